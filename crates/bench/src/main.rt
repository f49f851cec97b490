// The bench program of document 01: records from standard input, one a line, and what each answers to standard output. It
// streams: no more of the input is held than one line and what was read at once. A line that is no record ends the run, silently.
// What a line asks for and what is printed for it is the crate `records`.
#![tactic(auto)]

use lists::Held;
use records::Unit;
use std::io;
use std::io::Read;

// Between two parts of the input: the unit, the octets of a line that are held, and a buffer for the octets of a packet. The
// unit's state always holds together, also where a read or a write has failed. The line is no Vec: with one, the program would
// assume the C library's heap (7 axioms and not 4).
#[derive(Drop)]
struct Bench {
    unit: Unit,
    line: Held<u8, 2050>,
    packet: [u8; 1024],
}

fn main(rt: HostRuntime) -> io::Result<()> {
    println!(rt; "H\t1")?;
    let mut bench = Bench {
        unit: Unit::new(),
        line: Held::new(),
        packet: [0; 1024],
    };
    let goes_on = bench.on_input(&rt, &mut rt.stdin())?;
    if goes_on && bench.line.len() > 0 {
        bench.on_line(&rt)?;
    }
    Ok(())
}

// Each gives whether the run goes on: a bool, since `?` is for what a read or a write fails with, so that a ControlFlow or an
// Option would be tested where the bool is.
impl Bench {
    // All of the input. Nothing says that it ends, so the loop has a number of turns that no run uses up.
    fn on_input(&mut self, rt: &impl Print, input: &mut impl Read) -> io::Result<bool> {
        let mut part = [0u8; 65536];
        for _ in 0..u64::MAX {
            let n = input.read(&mut part)?;
            if n == 0 {
                break;
            }
            if !self.on_part(rt, &part[..n])? {
                return Ok(false);
            }
        }
        Ok(true)
    }

    // A part of the input, behind the octets of a line that are held: each line that ends in it is carried out, and what follows
    // the last newline is held.
    fn on_part(&mut self, rt: &impl Print, part: &[u8]) -> io::Result<bool> {
        for piece in part.split_inclusive(|x| *x == b'\n') {
            let (octets, ends) = match piece {
                [octets @ .., b'\n'] => (octets, true),
                _ => (piece, false),
            };
            if !self.hold(octets) {
                return Ok(false);
            }
            if ends && !self.on_line(rt)? {
                return Ok(false);
            }
        }
        Ok(true)
    }

    // Octets with no newline, behind those of the line that are held. A line of more than 2,050 octets is no record.
    fn hold(&mut self, octets: &[u8]) -> bool {
        if octets.len() > 2050 - self.line.len() {
            return false;
        }
        self.line.extend(octets);
        true
    }

    // The octets that are held are a line: its answer is printed, and nothing is held.
    fn on_line(&mut self, rt: &impl Print) -> io::Result<bool> {
        let answer = self.unit.step(self.line.as_slice(), &mut self.packet);
        self.line.clear();
        let Some(text) = answer else {
            return Ok(false);
        };
        rt.write_all(text.as_slice())?;
        Ok(true)
    }
}
