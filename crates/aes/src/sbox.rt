// The S-box as a table that is known to be it.
ghost use Rattle.std.specs.Prelude.{◌≡◌};
ghost use Rattle.aes.specs.Field.{sbox, SboxTable};
ghost use Rattle.aes.specs.Aes.{sub_bytes, sub_word};

use crate::tables::SBOX;

// To be made once and lent: to index a constant is to copy the whole of it.
#[derive(Drop)]
pub(crate) struct Sbox {
    table: [u8; 256],
    ghost right: { SboxTable table },
}

impl Sbox {
    pub(crate) fn new() -> Sbox
        ensures { SboxTable result.table }
    {
        Sbox { table: SBOX }
    }

    fn byte(&self, b: u8) -> u8
        ensures { result ≡ sbox b }
    {
        self.table[usize::from(b)]
    }

    pub(crate) fn word(&self, a: [u8; 4]) -> [u8; 4]
        ensures { result ≡ sub_word a }
    {
        a.map(|b| self.byte(b))
    }

    // A row by a call each: with `map` the proof would need a clause of its own for the closure, which is longer.
    #[tactic(auto, using(crate::proofs::Four::each))]
    pub(crate) fn bytes(&self, s: [[u8; 4]; 4]) -> [[u8; 4]; 4]
        ensures { result ≡ sub_bytes s }
    {
        [
            self.word(s[0]),
            self.word(s[1]),
            self.word(s[2]),
            self.word(s[3]),
        ]
    }
}
