// Answers of Command Complete that return more than a status.
ghost use Rattle.std.specs.Prelude.{◌∷◌, ◌++◌, ◌+◌, ◌≤◌, length};
ghost use Rattle.octets.specs.Octets.{le};
ghost use Rattle.answers.specs.Answers.{complete};
ghost use Rattle.commands.specs.Status.{success};
ghost use Rattle.commands.specs.Outcome.{Answers};

use answers::Answer;
use hci::status::SUCCESS;
use lists::Held;

// The octets of head, and those of body behind them.
pub(crate) fn returned(head: &[u8], body: &[u8]) -> Answer
    requires { length head.now + length body.now ≤ 65 }
    ensures { Answers (complete (head.now ++ body.now)) result }
{
    let mut octets: Held<u8, 65> = Held::from_slice(head);
    octets.extend(body);
    answers::complete(octets.as_slice())
}

// Success, and these octets behind it.
pub fn succeeded(octets: &[u8]) -> Answer
    requires { length octets.now ≤ 64 }
    ensures { Answers (complete (success ∷ octets.now)) result }
{
    returned(&[SUCCESS], octets)
}

// A status, the handle of a link, and these octets behind it.
pub fn about(code: u8, handle: u16, octets: &[u8]) -> Answer
    requires { length octets.now ≤ 62 }
    ensures { Answers (complete (code ∷ le 2 handle ++ octets.now)) result }
{
    let [low, high] = handle.to_le_bytes();
    returned(&[code, low, high], octets)
}
