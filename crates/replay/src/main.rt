// Replays a sample of runs of the controller and prints what is answered in each, a line in hex a run. The file stdin has the
// runs, and the file stdout the answers of the source, the Rust, made by `oracle`.
//
// A run is six numbers of four octets, low first, then its setup (setup.rt) and its records (record.rt). The numbers say how
// many octets there are of the setup, the pool, the event buffer, the buffer of taken packets, the room for answers, and the
// records. A run whose setup is none has no answers. A run with more octets of one of these than the limit, the room for answers
// aside, ends the program, as the input's end does.
#![tactic(auto)]

mod dump;
mod hex;
mod queries;
mod reader;
mod record;
mod run;
mod setup;

ghost use Rattle.std.specs.Prelude.{◌≤◌, length, IfOk};

use setup::{Setup, Sizes};
use std::io;
use std::io::Read;

// The most octets that a run may have of one kind. Each kind has an array of so many: with a Vec the program could run out of
// memory, and would assume the C library's heap (7 axioms and not 4).
const LIMIT: usize = 65536;

// Nothing says that the input ends, so the loop has a number of turns that no sample uses up.
fn main(rt: HostRuntime) -> io::Result<()> {
    let mut input = rt.stdin();
    for _ in 0..u64::MAX {
        if !one_run(&rt, &mut input)? {
            break;
        }
    }
    Ok(())
}

// Replays one run of the input; whether there was one that fits: a bool, since `?` is for what a read or a write fails with, and
// the one caller would test a ControlFlow in the same place.
fn one_run(rt: &impl Print, input: &mut impl Read) -> io::Result<bool> {
    let mut head = [0; 24];
    let count = read_full(input, &mut head)?;
    let Some(sizes) = Sizes::of(&head[..count]) else {
        return Ok(false);
    };
    if !fits(sizes) {
        return Ok(false);
    }
    read_run(rt, input, sizes)?;
    println!(rt; "")?;
    Ok(true)
}

// Reads until the buffer is full or the input ends, and gives how many octets stand at its front then. The step is what a read
// gave, so it is no `for`.
fn read_full(input: &mut impl Read, buffer: &mut [u8]) -> io::Result<usize>
    ensures { IfOk result (λ n. n ≤ length buffer.new) }
{
    let mut done = 0;
    while done < buffer.len() {
        let n = input.read(&mut buffer[done..])?;
        if n == 0 {
            break;
        }
        done += n;
    }
    Ok(done)
}

fn fits(sizes: Sizes) -> bool {
    [
        sizes.setup,
        sizes.pool,
        sizes.events,
        sizes.packets,
        sizes.records,
    ]
    .iter()
    .all(|size| *size <= LIMIT)
}

// Reads the setup and the records of a run, and prints the answers. Zeros stand for the octets that the input ends before.
fn read_run(rt: &impl Print, input: &mut impl Read, sizes: Sizes) -> io::Result<()> {
    let mut setup = [0; LIMIT];
    let mut records = [0; LIMIT];
    let octets = front(&mut setup, sizes.setup);
    let records = front(&mut records, sizes.records);
    read_full(input, octets)?;
    read_full(input, records)?;
    if let Some(setup) = Setup::of(octets, sizes.pool) {
        run::answer_all(rt, setup, sizes, records)?;
    }
    Ok(())
}

// The first octets of a buffer, as many as count, which is at most LIMIT in a run that fits; all where it is more.
fn front(buffer: &mut [u8; LIMIT], count: usize) -> &mut [u8] {
    &mut buffer[..count.min(LIMIT)]
}
