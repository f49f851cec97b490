// The text of an answer: octets in hex, and lines. Printed by hand, since there is no heap: `write!` into an array has a Result
// for the full one, where these require the room.
ghost use Rattle.std.specs.Prelude.{◌≡◌, ◌≤◌, take, drop, MatchOption};
ghost use Rattle.h4.specs.Framing.{whole};
ghost use Rattle.records.specs.Lines.{hex_digit};

use lists::Held;

#[derive(Clone, Copy)]
pub struct Text {
    octets: Held<u8, 512>,
}

impl Text {
    ghost use Rattle.std.specs.Prelude.{[], ◌++◌, ◌+◌, ◌*◌, length};
    ghost use mathlib.Core.List.{map, flatten};
    ghost use Rattle.h4.specs.Framing.{packets};
    ghost use Rattle.records.specs.Lines.{hex_of, hex_line, digits, done_line};
    ghost use Rattle.records.specs.Text.{text_of};

    pub(crate) fn new() -> Text
        ensures { text_of result ≡ [] }
    {
        Text {
            octets: Held::new(),
        }
    }

    pub fn as_slice(&self) -> &[u8]
        ensures { result.now ≡ text_of self.now }
    {
        self.octets.as_slice()
    }

    // These octets behind the text.
    fn push(&mut self, octets: &[u8])
        requires { length (text_of self.old) + length octets.now ≤ 512 }
        ensures { text_of self.new ≡ text_of self.old ++ octets.now }
    {
        self.octets.extend(octets);
    }

    // Octets in hex, two digits each.
    fn push_hex(&mut self, octets: &[u8])
        requires { length (text_of self.old) + 2 * length octets.now ≤ 512 }
        ensures { text_of self.new ≡ text_of self.old ++ hex_of octets.now }
    {
        for x in octets {
            self.push(&[hex_digit(*x / 16), hex_digit(*x % 16)]);
        }
    }

    // The line of one packet.
    fn push_packet(&mut self, letter: u8, packet: &[u8])
        requires { length (text_of self.old) + 2 * length packet.now + 3 ≤ 512 }
        ensures { text_of self.new ≡ text_of self.old ++ hex_line letter packet.now }
    {
        self.push(&[letter, b'\t']);
        self.push_hex(packet);
        self.push(b"\n");
    }

    // A line for each whole packet of the octets, in order.
    pub(crate) fn push_packets(&mut self, letter: u8, octets: &[u8])
        requires { length (text_of self.old) + 3 * length octets.now ≤ 512 }
        ensures { text_of self.new ≡ text_of self.old ++ flatten (map (hex_line letter) (packets octets.now)) }
    {
        let mut rest = octets;
        // A step is a packet's length, so it is no `for`.
        while let Some((packet, behind)) = split_packet(rest) {
            self.push_packet(letter, packet);
            rest = behind;
        }
    }

    // A number below 100 in decimal digits.
    fn push_number(&mut self, n: u8)
        requires { length (text_of self.old) + 2 ≤ 512 }
        ensures { text_of self.new ≡ text_of self.old ++ digits n }
    {
        if n <= 9 {
            self.push(&[b'0' + n]);
        } else {
            self.push(&[b'0' + n / 10, b'0' + n % 10]);
        }
    }

    // The line that ends an answer.
    pub(crate) fn push_done(&mut self, number: u8, used: u8)
        requires { length (text_of self.old) + 8 ≤ 512 }
        ensures { text_of self.new ≡ text_of self.old ++ done_line number used }
    {
        self.push(b"D\t");
        self.push_number(number);
        self.push(b"\t");
        self.push_number(used);
        self.push(b"\n");
    }
}

// The lower-case digit of a number below 16.
fn hex_digit(n: u8) -> u8
    requires { n ≤ 15 }
    ensures { result ≡ hex_digit n }
{
    if n <= 9 { b'0' + n } else { b'a' + n - 10 }
}

// The packet at the front where all of it is there, and the octets behind it.
fn split_packet(octets: &[u8]) -> Option<(&[u8], &[u8])>
    ensures { MatchOption result (whole octets.now ≡ 0) (λ p.
        (p.0.now ≡ take (whole octets.now) octets.now) × (p.1.now ≡ drop (whole octets.now) octets.now)
        × (3 ≤ whole octets.now)) }
{
    let n = h4::h4_packet_len(octets).ok()??;
    octets.split_at_checked(n)
}
