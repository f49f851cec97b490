// Why a call is refused, and what a refused call answers: the state as it came, nothing written, and the refusal's number. The
// answers are made inline, or the compiler would hand the state on (docs/SPEED.md).
ghost use Rattle.std.specs.Prelude.{◌≡◌};
ghost use Rattle.controller.specs.Asked.{number_of};

use crate::{Changed, Told, Took};
use state::Controller;

// The first of the seven questions with the answer "no" (docs/REFUSALS.md).
#[derive(Clone, Copy)]
pub enum Refusal {
    // The profile is not within its limits.
    Profile,
    // The rows' slices do not fit one another.
    Rows,
    // The state does not hold together.
    State,
    // The pool is too short.
    Pool,
    // The event buffer is too short.
    EventRoom,
    // The handle is not present, and no place is free.
    Handle,
    // The buffer for taken packets is too short.
    PacketRoom,
}

// What a call gets that no question refuses.
pub const ACCEPTED: u8 = 0;

// The question's number, which C gets.
impl From<Refusal> for u8 {
    ghost from_gives = { λ refusal number. number ≡ number_of refusal };

    fn from(refusal: Refusal) -> u8 {
        match refusal {
            Refusal::Profile => 1,
            Refusal::Rows => 2,
            Refusal::State => 3,
            Refusal::Pool => 4,
            Refusal::EventRoom => 5,
            Refusal::Handle => 6,
            Refusal::PacketRoom => 7,
        }
    }
}

impl Refusal {
    // The answer of a call that tells the host.
    #[inline(always)]
    pub fn told(self, s: Controller) -> Told
        ensures { (result.number ≡ number_of self) × (result.state ≡ s) × (result.written ≡ 0) }
    {
        Told::unchanged(s, self.into())
    }

    // The answer of a call that has no buffer.
    #[inline(always)]
    pub fn changed(self, s: Controller) -> Changed
        ensures { (result.number ≡ number_of self) × (result.state ≡ s) }
    {
        Changed {
            number: self.into(),
            state: s,
        }
    }

    // The answer of a take.
    #[inline(always)]
    pub fn took(self, s: Controller) -> Took
        ensures { (result.number ≡ number_of self) × (result.state ≡ s) × (result.count ≡ 0) × (result.written ≡ 0) }
    {
        Took {
            number: self.into(),
            state: s,
            count: 0,
            written: 0,
        }
    }
}
