// Packets from the host, and packets that the link takes, for C.
ghost use Rattle.calls.specs.Calls as call;
ghost use Rattle.calls.specs.Calls.{held};
ghost use Rattle.calls.specs.Gives.{Gives, profile_of, GivesAnyRows};
ghost use Rattle.controller.specs.Answers.{told, took};

use controller::{Told, Took};
use profile::ControllerRow;
use state::Controller;

// A packet of the host. The rows are opcodes, how each is answered, and their bit numbers; address is the public address, and
// random the number that Rand returns, lowest octet first.
#[unsafe(no_mangle)]
pub extern "C" fn wegrulsta_packet(
    profile: ControllerRow,
    opcodes: &[u16],
    answers: &[u8],
    bits: &[u16],
    s: Controller,
    pool: &mut [u8],
    address: &[u8; 6],
    random: u64,
    packet: &[u8],
    out: &mut [u8],
) -> Told
    ensures { Gives (profile_of profile opcodes.now answers.now bits.now)
        (call.on_packet address.now random packet.now)
        (held s pool.old) (held result.state pool.new)
        (told result out.old out.new) }
{
    controller::on_packet(
        profile, opcodes, answers, bits, s, pool, address, random, packet, out,
    )
}

// Takes up to max packets of a link, oldest first, end to end to the front of out. Question 7: does out hold them all?
#[unsafe(no_mangle)]
pub extern "C" fn wegrulsta_take(
    profile: ControllerRow,
    s: Controller,
    pool: &[u8],
    handle: u16,
    max: usize,
    out: &mut [u8],
) -> Took
    ensures { GivesAnyRows profile (call.take_transmit handle max) (held s pool.now) (held result.state pool.now)
        (took result out.old out.new) }
{
    controller::take_transmit(profile, s, pool, handle, max, out)
}
