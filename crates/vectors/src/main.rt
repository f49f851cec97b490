// The examples of FIPS 197 for AES-128, in hex: the key expansion of appendix A.1 and the blocks of B and C.1.
// The file stdout has what the standard prints.
#![tactic(auto)]

use std::{fmt, io};

// Octets in hex, two digits each; `replay` has its own, and says why.
#[derive(Drop)]
struct Hex<'a>(&'a [u8]);

impl fmt::Display for Hex<'_> {
    fn fmt<W: fmt::Write>(&self, f: &mut fmt::Formatter<W>) -> fmt::Result {
        for octet in self.0 {
            write!(f, "{octet:02x}")?;
        }
        Ok(())
    }
}

// The key of A.1 and B.
const KEY: [u8; 16] = [
    0x2b, 0x7e, 0x15, 0x16, 0x28, 0xae, 0xd2, 0xa6, 0xab, 0xf7, 0x15, 0x88, 0x09, 0xcf, 0x4f, 0x3c,
];

const INPUT_B: [u8; 16] = [
    0x32, 0x43, 0xf6, 0xa8, 0x88, 0x5a, 0x30, 0x8d, 0x31, 0x31, 0x98, 0xa2, 0xe0, 0x37, 0x07, 0x34,
];

const KEY_C1: [u8; 16] = [0, 1, 2, 3, 4, 5, 6, 7, 8, 9, 10, 11, 12, 13, 14, 15];

const INPUT_C1: [u8; 16] = [
    0x00, 0x11, 0x22, 0x33, 0x44, 0x55, 0x66, 0x77, 0x88, 0x99, 0xaa, 0xbb, 0xcc, 0xdd, 0xee, 0xff,
];

fn main(rt: HostRuntime) -> io::Result<()> {
    println!(rt; "FIPS 197 A.1")?;
    println!(rt; "key {}", Hex(&KEY))?;
    words(&rt, KEY)?;
    println!(rt; "FIPS 197 B")?;
    example(&rt, INPUT_B, KEY)?;
    println!(rt; "FIPS 197 C.1")?;
    example(&rt, INPUT_C1, KEY_C1)
}

// The words of the key expansion, a line each.
fn words(rt: &impl Print, key: [u8; 16]) -> io::Result<()> {
    for (i, word) in aes::key_expansion(key).iter().enumerate() {
        println!(rt; "w{i} {}", Hex(word))?;
    }
    Ok(())
}

// A block, the key and the block encrypted.
fn example(rt: &impl Print, input: [u8; 16], key: [u8; 16]) -> io::Result<()> {
    println!(rt; "input {}", Hex(&input))?;
    println!(rt; "key {}", Hex(&key))?;
    println!(rt; "output {}", Hex(&aes::encrypt_128(key, input)))
}
