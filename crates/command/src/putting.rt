// The state after a command, put together from what the command changed. The functions that carry a command out, but for Reset,
// which changes everything, give those parts alone: were the whole state to go through them, it would be copied twice more
// (docs/SPEED.md). Inline for the same reason.
ghost use Rattle.std.specs.Prelude.{◌≡◌};
ghost use Rattle.command.specs.Calling.{told_of};

use crate::{Changed, Noted, Told};
use commands::StatePart;
use state::Controller;

impl Told {
    // What is told after a call that changes nothing and writes no event: with its number, a refusal, and with 0, a packet that
    // asks for nothing.
    #[inline(always)]
    pub fn unchanged(s: Controller, number: u8) -> Told
        ensures { (result.number ≡ number) × (result.state ≡ s) × (result.written ≡ 0) }
    {
        Told {
            number,
            state: s,
            written: 0,
        }
    }
}

impl Noted {
    // What is told after a command that changes no more, from the state before it.
    #[inline(always)]
    pub fn told(self, s: Controller) -> Told
        ensures { result ≡ told_of s self }
    {
        let mut t = s;
        t.counters = self.counters;
        t.settings = self.settings;
        t.recent = self.recent;
        Told {
            number: 0,
            state: t,
            written: self.written,
        }
    }
}

impl<P: StatePart> Changed<P> {
    // The same where the command changes a part besides.
    #[inline(always)]
    pub fn told(self, s: Controller) -> Told
        ensures { result ≡ told_of (P.put self.part s) self.noted }
    {
        self.noted.told(self.part.put(s))
    }
}
