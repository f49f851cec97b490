// The last answers, and the four counters that wrap to zero.
ghost use Rattle.std.specs.Prelude.{◌≡◌, ◌≤◌, [], ◌∷◌, ◌++◌};
ghost use Rattle.octets.specs.Octets.{le};
ghost use Rattle.state.specs.State.{remember as remembered};
ghost use Rattle.state.specs.State.{answers_of, count_command, count_unknown, count_packet, count_dropped};

use crate::{Counters, Recent};

// One answer more; the last 32 are kept.
pub fn remember(recent: Recent, op: u16, status: u8) -> Recent
    requires { recent.count ≤ 32 }
    ensures { answers_of result ≡ remembered (le 2 op ++ (status ∷ [])) (answers_of recent) }
{
    let n = recent.count;
    let [low, high] = op.to_le_bytes();
    let kept = n.min(31);
    let from = 3 * (n - kept);
    // Copied from beside: moved within the one array (`copy_within`) it is a loop, some 45 instructions more a command.
    let before = recent.octets;
    let mut octets = before;
    let end = octets::put(&mut octets, 0, &before[from..3 * n]);
    octets::put(&mut octets, end, &[low, high, status]);
    Recent {
        octets,
        count: kept + 1,
    }
}

// A function for each counter: one over all would be handed which field it counts, and is no plainer than this one line.
impl Counters {
    pub fn count_command(mut self) -> Counters
        ensures { result ≡ count_command self }
    {
        self.commands = self.commands.wrapping_add(1);
        self
    }

    pub fn count_unknown(mut self) -> Counters
        ensures { result ≡ count_unknown self }
    {
        self.unknown_commands = self.unknown_commands.wrapping_add(1);
        self
    }

    pub fn count_packet(mut self) -> Counters
        ensures { result ≡ count_packet self }
    {
        self.acl_packets = self.acl_packets.wrapping_add(1);
        self
    }

    pub fn count_dropped(mut self) -> Counters
        ensures { result ≡ count_dropped self }
    {
        self.acl_dropped = self.acl_dropped.wrapping_add(1);
        self
    }
}
