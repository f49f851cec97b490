// What is printed for all lines of an input.
ghost use Rattle.std.specs.Prelude.{◌≡◌, suc, ◌-◌, ◌≤◌, length, take, drop};
ghost use Rattle.lists.specs.Lists.{first_at};
ghost use Rattle.octets.specs.Octets.{Put};
ghost use Rattle.calls.specs.Calls.{held, model_of};
ghost use Rattle.records.specs.Bench.{bench, is_newline, lines_of, answers, run_octets};

use crate::{Unit, read};

// The line at the front, without its newline, and the octets behind that.
fn split_line(octets: &[u8]) -> (&[u8], &[u8])
    ensures line { result.0.now ≡ take (first_at is_newline octets.now) octets.now }
    ensures behind { result.1.now ≡ drop (suc (first_at is_newline octets.now)) octets.now }
{
    match read::place_of(octets, b'\n') {
        Some(n) => (&octets[..n], &octets[n + 1..]),
        None => (octets, &[]),
    }
}

// All lines of the input, printed into out from index at; the index after them.
fn run_lines(mut unit: Unit, input: &[u8], out: &mut [u8], at: usize) -> usize
    requires { at ≤ length out.old }
    ensures { Put out.old at (answers (length out.old - at) (model_of bench (held unit.state unit.pool)) (lines_of input.now))
        result out.new }
{
    let mut packet = [0; 1024];
    let mut p = at;
    let mut rest = input;
    // No `for` over `split_inclusive`, which is no plainer: it leaves the newline on a line that has one, so each turn would take
    // it off again, where `split_line` cuts at the first newline, as the definition of the lines does.
    while !rest.is_empty() {
        if out.len() - p < 512 {
            return p;
        }
        let (line, behind) = split_line(rest);
        let Some(text) = unit.step(line, &mut packet) else {
            return p;
        };
        p = octets::put(out, p, text.as_slice());
        rest = behind;
    }
    p
}

// All lines of the input, from the default state: what is printed stands at the front of out. How many octets that is.
pub fn run(input: &[u8], out: &mut [u8]) -> usize
    ensures { Put out.old 0 (run_octets (length out.old) input.now) result out.new }
{
    if out.len() < 4 {
        return 0;
    }
    let at = octets::put(out, 0, b"H\t1\n");
    run_lines(Unit::new(), input, out, at)
}
