// Reading a line of input: its letter, and then the fields behind it. A tab is neither a digit nor a hex digit, so what is read
// as a number or a packet up to the line's end is the line's last field.
ghost use Rattle.std.specs.Prelude.{◌≡◌, ◌==◌, List, [], ◌∷◌, ℕ, position, None, Some, MatchOption};
ghost use Rattle.records.specs.Lines.{fields, read_fields, read_line};
ghost use Rattle.records.specs.Reading.{line_of, digit_of, number_of, first_of, pair_of};

use crate::Record;
use links::Timing;

// The record of a line, without its newline. A packet's octets go to the front of packet.
pub fn read_line(line: &[u8], packet: &mut [u8; 1024]) -> Option<Record>
    ensures { line_of result packet.new ≡ read_line line.now }
{
    let [letter, b'\t', rest @ ..] = line else {
        return None;
    };
    match *letter {
        b'P' => read_packet(rest, packet),
        b'O' => read_opening(rest),
        b'T' => {
            let (handle, most) = read_pair(rest)?;
            Some(Record::Take { handle, most })
        }
        b'C' => {
            let (handle, count) = read_pair(rest)?;
            Some(Record::Completed { handle, count })
        }
        _ => None,
    }
}

// The record of a line of letter `P`, from what stands behind its tab.
fn read_packet(rest: &[u8], packet: &mut [u8; 1024]) -> Option<Record>
    ensures { line_of result packet.new ≡ read_fields ((80 ∷ []) ∷ fields rest.now) }
{
    let (pairs, odd) = rest.as_chunks::<2>();
    if !odd.is_empty() || packet.len() < pairs.len() {
        return None;
    }
    for (j, [high, low]) in pairs.iter().enumerate() {
        packet[j] = 16 * hex_value(*high)? + hex_value(*low)?;
    }
    Some(Record::Packet(pairs.len()))
}

// The value of a lower-case hex digit. The library's `to_digit` takes upper-case ones too.
fn hex_value(x: u8) -> Option<u8>
    ensures { result ≡ digit_of x }
{
    match x {
        b'0'..=b'9' => Some(x - b'0'),
        b'a'..=b'f' => Some(x - b'a' + 10),
        _ => None,
    }
}

// The record of a line of letter `O`, from what stands behind its tab.
fn read_opening(rest: &[u8]) -> Option<Record>
    ensures { (packet : List ℕ) → line_of result packet ≡ read_fields ((79 ∷ []) ∷ fields rest.now) }
{
    let (handle, behind) = first_number(rest)?;
    let (interval, pair) = first_number(behind)?;
    let (latency, timeout) = read_pair(pair)?;
    let timing = Timing {
        interval,
        latency,
        timeout,
    };
    Some(Record::Open { handle, timing })
}

// The numbers of two fields, where there are two and no more.
fn read_pair(rest: &[u8]) -> Option<(u16, u16)>
    ensures { result ≡ pair_of (fields rest.now) }
{
    let (a, behind) = first_number(rest)?;
    let b = read_number(behind)?;
    Some((a, b))
}

// The number of the first field, where it is one and another field follows, and the octets behind its tab.
fn first_number(rest: &[u8]) -> Option<(u16, &[u8])>
    ensures { MatchOption result (first_of rest.now ≡ None) (λ p. first_of rest.now ≡ Some (p.0, p.1.now)) }
{
    let i = place_of(rest, b'\t')?;
    let a = read_number(&rest[..i])?;
    Some((a, &rest[i + 1..]))
}

// The index of the first octet that is x.
pub fn place_of(octets: &[u8], x: u8) -> Option<usize>
    ensures { result ≡ position (λ y. y == x) octets.now }
{
    octets.iter().position(|y| *y == x)
}

// The number that a field is, where it is one. The library's `parse` would take a sign before it.
fn read_number(field: &[u8]) -> Option<u16>
    ensures { result ≡ number_of field.now }
{
    if field.is_empty() {
        return None;
    }
    let mut n = 0u16;
    for x in field {
        if !x.is_ascii_digit() {
            return None;
        }
        n = n.checked_mul(10)?.checked_add(u16::from(*x - b'0'))?;
    }
    Some(n)
}
