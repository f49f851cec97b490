// The answer of a command beside the one part of the state that the command changes, which is smaller to hand back than the
// whole, or, for Reset, beside the state; and how a part is put back into the state.
ghost use Rattle.std.specs.Prelude.{◌≡◌, ◌∷◌, ◌≤◌, length, refl};
ghost use Rattle.std.specs.Result.{result_unwrap_or};
ghost use Rattle.state.specs.declared.Controller.{Controller};
ghost use Rattle.state.specs.declared.Counters.{Counters};
ghost use Rattle.state.specs.declared.Recent.{Recent};
ghost use Rattle.state.specs.declared.Settings.{Settings};
ghost use Rattle.answers.specs.Answers.{complete, status};
ghost use Rattle.commands.specs.Outcome.{Answers, done, done_handle};
ghost use Rattle.commands.specs.Refused.{status_of};
ghost use Rattle.commands.specs.Put.{put_masks, put_settings, put_advertising, put_scanning, put_accept_list};
ghost use Rattle.commands.specs.Put.{put_resolving_list, put_links, put_counters, noted_in};

use crate::ErrorCode;
use crate::returned::returned;
use answers::Answer;
use filters::{AcceptList, ResolvingList};
use links::Links;
use state::{Advertising, Controller, Masks, Scanning, Settings};

#[derive(Clone, Copy)]
pub struct Answered<P> {
    pub part: P,
    pub answer: Answer,
}

// What a command gives that may be refused: then the part is as it was before. A method for each form in which the status is
// told: one that were handed how to tell it would be called by more words than it saves. Inline, or the part would be copied once
// more.
impl<P: Copy> Answered<P> {
    // By Command Complete with a status alone.
    #[inline(always)]
    pub fn done(before: P, outcome: Result<P, ErrorCode>) -> Answered<P>
        ensures { (result.part ≡ result_unwrap_or outcome before) × Answers (done (status_of outcome)) result.answer }
    {
        Answered {
            part: outcome.unwrap_or(before),
            answer: answers::done(status_of(outcome)),
        }
    }

    // By Command Complete with a status and a handle.
    #[inline(always)]
    pub fn done_handle(before: P, outcome: Result<P, ErrorCode>, handle: u16) -> Answered<P>
        ensures { (result.part ≡ result_unwrap_or outcome before)
            × Answers (done_handle (status_of outcome) handle) result.answer }
    {
        Answered {
            part: outcome.unwrap_or(before),
            answer: answers::done_handle(status_of(outcome), handle),
        }
    }

    // By Command Complete with a status and these octets behind it.
    #[inline(always)]
    pub fn returning(before: P, outcome: Result<P, ErrorCode>, octets: &[u8]) -> Answered<P>
        requires { length octets.now ≤ 64 }
        ensures { (result.part ≡ result_unwrap_or outcome before)
            × Answers (complete (status_of outcome ∷ octets.now)) result.answer }
    {
        Answered {
            part: outcome.unwrap_or(before),
            answer: returned(&[status_of(outcome)], octets),
        }
    }

    // By Command Status.
    #[inline(always)]
    pub fn status(before: P, outcome: Result<P, ErrorCode>) -> Answered<P>
        ensures { (result.part ≡ result_unwrap_or outcome before) × Answers (status (status_of outcome)) result.answer }
    {
        Answered {
            part: outcome.unwrap_or(before),
            answer: answers::status(status_of(outcome)),
        }
    }
}

// The status of what a command gives: success is 0.
#[inline(always)]
fn status_of<P: Copy>(outcome: Result<P, ErrorCode>) -> u8
    ensures { result ≡ status_of outcome }
{
    hci::number_of(outcome)
}

// A part of the state: `put x s` is the state s with x in place of its own. What is noted of every command, counters, settings
// and last answers, is put in after it, so it does not matter which of these the state had before. Each impl names its own field.
pub trait StatePart: Copy {
    ghost put: { Self → Controller → Controller };

    fn put(self, s: Controller) -> Controller
        ensures { result ≡ put self s };

    ghost noted_after: { (x : Self) (s : Controller) (counters before : Counters) (settings family : Settings) (recent : Recent)
        → noted_in counters settings recent (put x (put_settings family (put_counters before s)))
        ≡ noted_in counters settings recent (put x s) };
}

impl StatePart for Masks {
    ghost put = { put_masks };

    fn put(self, s: Controller) -> Controller {
        Controller { masks: self, ..s }
    }

    ghost noted_after = { λ x s c b t f r. refl };
}

impl StatePart for Settings {
    ghost put = { put_settings };

    fn put(self, s: Controller) -> Controller {
        Controller {
            settings: self,
            ..s
        }
    }

    ghost noted_after = { λ x s c b t f r. refl };
}

impl StatePart for Advertising {
    ghost put = { put_advertising };

    fn put(self, s: Controller) -> Controller {
        Controller {
            advertising: self,
            ..s
        }
    }

    ghost noted_after = { λ x s c b t f r. refl };
}

impl StatePart for Scanning {
    ghost put = { put_scanning };

    fn put(self, s: Controller) -> Controller {
        Controller {
            scanning: self,
            ..s
        }
    }

    ghost noted_after = { λ x s c b t f r. refl };
}

impl StatePart for AcceptList {
    ghost put = { put_accept_list };

    fn put(self, s: Controller) -> Controller {
        Controller {
            accept_list: self,
            ..s
        }
    }

    ghost noted_after = { λ x s c b t f r. refl };
}

impl StatePart for ResolvingList {
    ghost put = { put_resolving_list };

    fn put(self, s: Controller) -> Controller {
        Controller {
            resolving_list: self,
            ..s
        }
    }

    ghost noted_after = { λ x s c b t f r. refl };
}

impl StatePart for Links {
    ghost put = { put_links };

    fn put(self, s: Controller) -> Controller {
        Controller { links: self, ..s }
    }

    ghost noted_after = { λ x s c b t f r. refl };
}

// Reset gives all of the state.
impl StatePart for Controller {
    ghost put = { λ t _. t };

    fn put(self, _s: Controller) -> Controller {
        self
    }

    ghost noted_after = { λ x s c b t f r. refl };
}
