// Packets from the host. Each way through the call returns by itself and puts the state together where it returns: the compiler
// then writes it where the caller finds it, and copies it no more often than it must (docs/SPEED.md).
ghost use Rattle.std.specs.Prelude.{◌≡◌};
ghost use Rattle.calls.specs.Calls as call;
ghost use Rattle.calls.specs.Calls.{held};
ghost use Rattle.calls.specs.Gives.{Gives, profile_of};
ghost use Rattle.controller.specs.Answers.{told};

use crate::Told;
use crate::questions::about_packet;
use crate::refusal::ACCEPTED;
use command::{answered, carried, read};
use dispatch::Part;
use filters::{AcceptList, ResolvingList};
use links::Links;
use profile::ControllerRow;
use receive::Task;
use state::{Advertising, Controller, Masks, Scanning, Settings};

// A packet of the host. The rows are opcodes, how each is answered, and their bit numbers; address is the public address, and
// random the number that Rand returns, lowest octet first.
pub fn wegrulsta_packet(
    profile: ControllerRow,
    opcodes: &[u16],
    answers: &[u8],
    bits: &[u16],
    s: Controller,
    pool: &mut [u8],
    address: &[u8; 6],
    random: u64,
    packet: &[u8],
    out: &mut [u8],
) -> Told
    ensures { Gives (profile_of profile opcodes.now answers.now bits.now)
        (call.on_packet address.now random packet.now)
        (held s pool.old) (held result.state pool.new)
        (told result out.old out.new) }
{
    let held = state::holds(s, profile);
    let asked = about_packet(profile, opcodes, answers, bits, held, pool.len(), out.len());
    let rows = match asked {
        Ok(rows) => rows,
        Err(refusal) => return refusal.told(s),
    };
    let task = receive::task_of(&rows, s.settings.advertising_family, packet);
    let p = receive::parameters(packet);
    match task {
        Task::Nothing => return Told::unchanged(s, ACCEPTED),
        Task::Data => return receive::data(s, profile, pool, packet).told(s),
        Task::Answered(op, reason) => return answered(s, profile, reason, op, out).told(s),
        Task::Carried(op, part) => match part {
            Part::Nothing => return read(s, profile, *address, random, op, p, out).told(s),
            Part::Masks => return carried::<Masks>(s, profile, op, p, out).told(s),
            Part::Settings => return carried::<Settings>(s, profile, op, p, out).told(s),
            Part::Advertising => return carried::<Advertising>(s, profile, op, p, out).told(s),
            Part::Scanning => return carried::<Scanning>(s, profile, op, p, out).told(s),
            Part::AcceptList => return carried::<AcceptList>(s, profile, op, p, out).told(s),
            Part::ResolvingList => return carried::<ResolvingList>(s, profile, op, p, out).told(s),
            Part::Links => return carried::<Links>(s, profile, op, p, out).told(s),
            Part::Everything => return carried::<Controller>(s, profile, op, p, out).told(s),
        },
    }
}
