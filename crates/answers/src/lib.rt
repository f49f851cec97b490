// How a command is answered: how it is acknowledged, with the octets that are told so, and the event that may follow, which is
// the source's fourth form. For the commands, which make answers by these functions alone, and for the controller, which writes
// them. Contracts cite `specs/Answers.antt`.
#![tactic(auto)]

ghost use Rattle.std.specs.Prelude.{◌≡◌, [], ◌∷◌, ◌+◌, ◌≤◌, length};
ghost use Rattle.octets.specs.Octets.{Put, le, octet};
ghost use Rattle.hci.specs.Write.{count};
ghost use Rattle.answers.specs.Answers as spec;
ghost use Rattle.answers.specs.Answers.{answer_of, form_of, told_by, octets_of, Follows, CanWrite};

use hci::WriteError;
use lists::Held;

// How a command is acknowledged: by Command Complete with these return parameters, by Command Status with a status, or not at
// all.
#[derive(Clone, Copy)]
pub enum Acknowledgement {
    Complete(Held<u8, 65>),
    Status(u8),
    Silent,
}

// `then` is the event that follows.
#[derive(Clone, Copy)]
pub struct Answer {
    pub acknowledgement: Acknowledgement,
    pub then: Option<Held<u8, 37>>,
}

impl Answer {
    // The status that it tells: the first octet of what is acknowledged, 0 where it has none.
    pub fn status(&self) -> u8
        ensures { result ≡ octet (answer_of self.now).octets 0 }
    {
        match &self.acknowledgement {
            Acknowledgement::Complete(returned) => returned
                .as_slice()
                .first()
                .copied()
                .unwrap_or(0),
            Acknowledgement::Status(code) => *code,
            Acknowledgement::Silent => 0,
        }
    }
}

// An acknowledgement with no event behind it.
fn alone(acknowledgement: Acknowledgement) -> Answer
    ensures { answer_of result ≡ spec.alone (form_of acknowledgement) (told_by acknowledgement) }
{
    Answer {
        acknowledgement,
        then: None,
    }
}

// Command Complete with these return parameters.
pub fn complete(returned: &[u8]) -> Answer
    requires { length returned.now ≤ 65 }
    ensures { answer_of result ≡ spec.complete returned.now }
{
    alone(Acknowledgement::Complete(Held::from_slice(returned)))
}

// Command Complete with a status alone.
pub fn done(code: u8) -> Answer
    ensures { answer_of result ≡ spec.complete (code ∷ []) }
{
    complete(&[code])
}

// Command Complete with a status and a handle.
pub fn done_handle(code: u8, handle: u16) -> Answer
    ensures { answer_of result ≡ spec.complete (code ∷ le 2 handle) }
{
    let [low, high] = handle.to_le_bytes();
    complete(&[code, low, high])
}

// Command Status.
pub fn status(code: u8) -> Answer
    ensures { answer_of result ≡ spec.status code }
{
    alone(Acknowledgement::Status(code))
}

// No acknowledgement.
pub fn silent() -> Answer
    ensures { answer_of result ≡ spec.silent }
{
    alone(Acknowledgement::Silent)
}

// The same answer with an event behind it.
pub fn followed_by(answer: Answer, event: &[u8]) -> Answer
    requires { length event.now ≤ 37 }
    ensures { Follows event.now answer result }
{
    Answer {
        then: Some(Held::from_slice(event)),
        ..answer
    }
}

// The same answer with no event behind it.
pub fn followed_by_none(answer: Answer) -> Answer
    ensures { Follows [] answer result }
{
    alone(answer.acknowledgement)
}

// How many octets a writer says it wrote.
fn counted(written: Result<usize, WriteError>) -> usize
    ensures { result ≡ count written }
{
    written.unwrap_or(0)
}

// Writes the acknowledgement to the front of out, and returns the index after it.
#[tactic(auto, using(octets::proofs::Writing::put_none))]
fn acknowledge(acknowledgement: &Acknowledgement, num: u8, op: u16, out: &mut [u8]) -> usize
    requires { 6 + length (told_by acknowledgement.now) ≤ length out.old }
    ensures { Put out.old 0 (spec.acknowledgement (form_of acknowledgement.now) num op (told_by acknowledgement.now))
        result out.new }
{
    match acknowledgement {
        Acknowledgement::Complete(returned) => {
            counted(hci::command_complete(num, op, returned.as_slice(), out))
        }
        Acknowledgement::Status(code) => counted(hci::command_status(num, *code, op, out)),
        Acknowledgement::Silent => 0,
    }
}

// Writes the event behind an acknowledgement, where there is one, from at on, and returns the index after it.
#[tactic(auto, using(octets::proofs::Writing::put_none))]
pub fn write_event(answer: &Answer, at: usize, out: &mut [u8]) -> usize
    requires { at + length (answer_of answer.now).then ≤ length out.old }
    ensures { Put out.old at (answer_of answer.now).then result out.new }
{
    match &answer.then {
        Some(event) => octets::put(out, at, event.as_slice()),
        None => at,
    }
}

// Writes the events of an answer to the front of out, and returns how many octets they are.
pub fn write_answer(answer: Answer, num: u8, op: u16, out: &mut [u8]) -> usize
    requires { CanWrite answer out.old }
    ensures { Put out.old 0 (octets_of num op (answer_of answer)) result out.new }
{
    let at = acknowledge(&answer.acknowledgement, num, op, out);
    write_event(&answer, at, out)
}
