// The rows of a profile: how it answers each opcode, and the opcode's bit in the map of supported commands. They are three slices
// that the caller lends, and question 2 makes one struct of them. For `receive` and the controller's calls.
ghost use Rattle.std.specs.Prelude.{◌≡◌, true, cond, leb, ltb};
ghost use Rattle.lists.specs.Lists.{all};
ghost use Rattle.hci.specs.Bits.{with_bit};
ghost use Rattle.profile.specs.Profile.{answers_fit, row_bitmap};

use crate::Answering;

// Rows whose opcodes have answers, each at most 2: no more is asked where an opcode is looked up.
#[derive(Clone, Copy)]
pub struct Rows<'a> {
    pub opcodes: &'a [u16],
    pub answers: &'a [u8],
    pub bits: &'a [u16],
    pub ghost fits: { answers_fit opcodes.now answers.now ≡ true },
}

impl<'a> Rows<'a> {
    ghost use Rattle.std.specs.Prelude.{is_some, IfSome};
    ghost use Rattle.profile.specs.Profile.{rows_fit, row_answer, answer_number};

    // Question 2: are the rows' slices equally long, at most 256, and their answers at most 2?
    #[tactic(auto, unfolding(crate::specs::Profile::rows_fit))]
    pub fn of(opcodes: &'a [u16], answers: &'a [u8], bits: &'a [u16]) -> Option<Rows<'a>>
        ensures asked { is_some result ≡ rows_fit opcodes.now answers.now bits.now }
        ensures same { IfSome result (λ rows.
            (rows.opcodes.now ≡ opcodes.now) × (rows.answers.now ≡ answers.now) × (rows.bits.now ≡ bits.now)) }
    {
        let fit = opcodes.len() == answers.len()
            && opcodes.len() == bits.len()
            && opcodes.len() <= 256
            && answers_fit(answers);
        if !fit {
            return None;
        }
        Some(Rows {
            opcodes,
            answers,
            bits,
        })
    }

    // How the first row of an opcode answers it; None where no row has it.
    #[tactic(auto, using(crate::proofs::FirstRow::no_row, crate::proofs::FirstRow::first_row))]
    pub fn answer(&self, op: u16) -> Option<Answering>
        ensures { answer_number result ≡ row_answer self.now.opcodes.now self.now.answers.now op }
    {
        let i = hci::first_opcode(self.opcodes, op)?;
        // By a match: `try_from` would want a branch for the octets above 2, which no run takes.
        Some(match self.answers[i] {
            0 => Answering::Modeled,
            1 => Answering::Unmodeled,
            _ => Answering::Unknown,
        })
    }
}

// The Supported_Commands bit map (Core Vol 4 Part E section 6.27) of the rows that are not unknown, whether the rows fit or not.
#[tactic(auto, unfolding(crate::specs::Profile::row_bits))]
pub fn row_bitmap(answers: &[u8], bits: &[u16]) -> [u8; 64]
    ensures { result ≡ row_bitmap answers.now bits.now }
{
    let mut map = [0u8; 64];
    for (answer, bit) in answers.iter().zip(bits) {
        // 2 is the answer of an unknown command. A number and no `Answering`: these may be any octets, also of rows that don't
        // fit.
        if *answer != 2 {
            set_row_bit(&mut map, *bit);
        }
    }
    map
}

// Whether each answer is at most 2. It is asked with each call, so the loop looks at all of them and takes the greatest:
// compiled, it looks at sixteen at once, which a loop that returns at the first answer above 2 does not.
#[tactic(auto, unfolding(lists::specs::Lists::all), using(lists::proofs::Prefix::all_next))]
fn answers_fit(answers: &[u8]) -> bool
    ensures { result ≡ all (λ a. leb a 2) answers.now }
{
    let mut greatest: u8 = 0;
    for answer in answers {
        greatest = greatest.max(*answer);
    }
    greatest <= 2
}

// Sets the bit of a row, where the map has it.
fn set_row_bit(map: &mut [u8; 64], bit: u16)
    ensures { map.new ≡ cond (ltb bit 512) (with_bit map.old bit) map.old }
{
    if bit < 512 {
        hci::set_bit(map, usize::from(bit));
    }
}
