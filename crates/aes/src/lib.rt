// AES-128 by FIPS 197: the cipher and its key expansion. specs/Field.antt and specs/Aes.antt say what they are.
//
// The two exported functions make the S-box once and lend it down. Rows and words are put together by literals of four: a closure
// that gives a row needs a clause of its own, which is longer. Words and rounds are counted: their definitions are by number.
#![tactic(auto)]

mod sbox;
mod tables;

ghost use Rattle.std.specs.Prelude.{◌≡◌, ◌<◌, get_or};
ghost use Rattle.aes.specs.Field.{xtime};
ghost use Rattle.aes.specs.Aes.{four, mix, state_of, octets_of, shift_rows, mix_columns, add_round_key, round_key, round};
ghost use Rattle.aes.specs.Aes.{rot_word, add_word, rcon, key_part, key_expansion, aes128};

use sbox::Sbox;
use tables::RCON;

// The words of the key schedule, four for each AddRoundKey.
pub fn key_expansion(key: [u8; 16]) -> [[u8; 4]; 44]
    ensures { result ≡ key_expansion key }
{
    let sbox = Sbox::new();
    let mut w = [[0u8; 4]; 44];
    w[0] = [key[0], key[1], key[2], key[3]];
    w[1] = [key[4], key[5], key[6], key[7]];
    w[2] = [key[8], key[9], key[10], key[11]];
    w[3] = [key[12], key[13], key[14], key[15]];
    for i in 4..44 {
        w[i] = add_word(w[i - 4], key_part(&sbox, w[i - 1], i));
    }
    w
}

// A block under a key.
pub fn encrypt_128(key: [u8; 16], block: [u8; 16]) -> [u8; 16]
    ensures { result ≡ aes128 key block }
{
    let sbox = Sbox::new();
    let w = key_expansion(key);
    let mut s = add_round_key(state_of(block), round_key(&w, 0));
    for i in 1..10 {
        // Bound first: the check does not cover a call whose array goes straight into a variable that is lent.
        let t = one_round(&sbox, s, round_key(&w, i));
        s = t;
    }
    octets_of(add_round_key(shift_rows(sbox.bytes(s)), round_key(&w, 10)))
}

#[tactic(auto, unfolding(crate::specs::Aes::round))]
fn one_round(sbox: &Sbox, s: [[u8; 4]; 4], k: [[u8; 4]; 4]) -> [[u8; 4]; 4]
    ensures { result ≡ round s k }
{
    add_round_key(mix_columns(shift_rows(sbox.bytes(s))), k)
}

// The four words of round i.
#[tactic(auto, unfolding(crate::specs::Aes::round_key))]
fn round_key(w: &[[u8; 4]; 44], i: usize) -> [[u8; 4]; 4]
    requires { i < 11 }
    ensures { result ≡ round_key w.now i }
{
    let k = 4 * i;
    [w[k], w[k + 1], w[k + 2], w[k + 3]]
}

fn state_of(b: [u8; 16]) -> [[u8; 4]; 4]
    ensures { result ≡ state_of b }
{
    [
        [b[0], b[4], b[8], b[12]],
        [b[1], b[5], b[9], b[13]],
        [b[2], b[6], b[10], b[14]],
        [b[3], b[7], b[11], b[15]],
    ]
}

fn octets_of(s: [[u8; 4]; 4]) -> [u8; 16]
    ensures { result ≡ octets_of s }
{
    let [a, b, c, d] = s;
    [
        a[0], b[0], c[0], d[0], a[1], b[1], c[1], d[1], a[2], b[2], c[2], d[2], a[3], b[3], c[3],
        d[3],
    ]
}

fn shift_rows(s: [[u8; 4]; 4]) -> [[u8; 4]; 4]
    ensures { result ≡ shift_rows s }
{
    let [a, b, c, d] = s;
    [
        [a[0], a[1], a[2], a[3]],
        [b[1], b[2], b[3], b[0]],
        [c[2], c[3], c[0], c[1]],
        [d[3], d[0], d[1], d[2]],
    ]
}

// The octet times x.
#[tactic(auto, unfolding(crate::specs::Field::xtime))]
fn times_x(b: u8) -> u8
    ensures { result ≡ xtime b }
{
    if b < 128 { b << 1 } else { 0x1b ^ (b << 1) }
}

#[tactic(auto, unfolding(crate::specs::Aes::mix))]
fn mix_octet(a: u8, b: u8, c: u8, d: u8) -> u8
    ensures { result ≡ mix a b c d }
{
    times_x(a) ^ (times_x(b) ^ b) ^ c ^ d
}

// A row of the mixed state, from that row and the three after it.
fn mix_row(a: [u8; 4], b: [u8; 4], c: [u8; 4], d: [u8; 4]) -> [u8; 4]
    ensures { result ≡ four (λ i. mix (get_or a i 0) (get_or b i 0) (get_or c i 0) (get_or d i 0)) }
{
    std::array::from_fn(|i| mix_octet(a[i], b[i], c[i], d[i]))
}

#[tactic(auto, using(crate::proofs::Four::each))]
fn mix_columns(s: [[u8; 4]; 4]) -> [[u8; 4]; 4]
    ensures { result ≡ mix_columns s }
{
    [
        mix_row(s[0], s[1], s[2], s[3]),
        mix_row(s[1], s[2], s[3], s[0]),
        mix_row(s[2], s[3], s[0], s[1]),
        mix_row(s[3], s[0], s[1], s[2]),
    ]
}

#[tactic(auto, using(crate::proofs::Four::each))]
fn add_round_key(s: [[u8; 4]; 4], k: [[u8; 4]; 4]) -> [[u8; 4]; 4]
    ensures { result ≡ add_round_key s k }
{
    let [a, b, c, d] = k;
    [
        add_word(s[0], [a[0], b[0], c[0], d[0]]),
        add_word(s[1], [a[1], b[1], c[1], d[1]]),
        add_word(s[2], [a[2], b[2], c[2], d[2]]),
        add_word(s[3], [a[3], b[3], c[3], d[3]]),
    ]
}

fn add_word(a: [u8; 4], b: [u8; 4]) -> [u8; 4]
    ensures { result ≡ add_word a b }
{
    std::array::from_fn(|i| a[i] ^ b[i])
}

fn rot_word(a: [u8; 4]) -> [u8; 4]
    ensures { result ≡ rot_word a }
{
    [a[1], a[2], a[3], a[0]]
}

#[tactic(auto, using(crate::proofs::Rcon::rule))]
fn round_constant(i: usize) -> [u8; 4]
    requires { i < 11 }
    ensures { result ≡ rcon i }
{
    [RCON[i], 0, 0, 0]
}

// What is added to word i - 4 to give word i; temp is word i - 1.
#[tactic(auto, unfolding(crate::specs::Aes::key_part))]
fn key_part(sbox: &Sbox, temp: [u8; 4], i: usize) -> [u8; 4]
    requires { i < 44 }
    ensures { result ≡ key_part temp i }
{
    if i % 4 == 0 {
        add_word(sbox.word(rot_word(temp)), round_constant(i / 4))
    } else {
        temp
    }
}
