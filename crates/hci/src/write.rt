// What a controller writes to the host. Each writer puts its packet at the front of the buffer, keeps the rest of the
// buffer and answers how many octets it wrote, or refuses and changes nothing.
ghost use Rattle.std.specs.Prelude.{◌≡◌, Err, ◌++◌, ◌+◌, ◌*◌, ◌≤◌, min, length};
ghost use Rattle.octets.specs.Octets.{Put};
ghost use Rattle.hci.specs.Packet as packet;
ghost use Rattle.hci.specs.Write.{Wrote, WroteEvent, number};

use crate::event_code::{COMMAND_COMPLETE, COMMAND_STATUS, LE_META, NUMBER_OF_COMPLETED_PACKETS};
use h4::{H4_ACL, H4_EVENT};

// Why a writer writes nothing: the packet's length field can't hold its length, or the buffer can't hold the packet. Else it
// answers how many octets it wrote.
#[derive(Clone, Copy)]
pub enum WriteError {
    TooLong,
    NoRoom,
}

// The question's number, which C gets.
impl From<WriteError> for u8 {
    ghost from_gives = { λ e n. n ≡ number (Err e) };

    fn from(e: WriteError) -> u8 {
        match e {
            WriteError::TooLong => 8,
            WriteError::NoRoom => 9,
        }
    }
}

// An event of the parameters in head and then those in body.
#[tactic(auto, unfolding(crate::specs::Write::refusal))]
fn event_of(code: u8, head: &[u8], body: &[u8], out: &mut [u8]) -> Result<usize, WriteError>
    ensures { WroteEvent code (head.now ++ body.now) out.old result out.new }
{
    let n = head.len() + body.len();
    let Ok(length) = u8::try_from(n) else {
        return Err(WriteError::TooLong);
    };
    if out.len() < 3 + n {
        return Err(WriteError::NoRoom);
    }
    let at = octets::put(out, 0, &[H4_EVENT, code, length]);
    Ok(octets::put_two(out, at, head, body))
}

// An event.
pub fn event(code: u8, params: &[u8], out: &mut [u8]) -> Result<usize, WriteError>
    ensures { WroteEvent code params.now out.old result out.new }
{
    event_of(code, &[], params, out)
}

// An ACL data packet: the handle's low 12 bits, the boundary flag above them, broadcast flag 0.
#[tactic(auto, unfolding(crate::specs::Write::refusal))]
pub fn acl(handle: u16, boundary: u8, load: &[u8], out: &mut [u8]) -> Result<usize, WriteError>
    ensures { Wrote (length load.now) 65535 (packet.acl handle boundary load.now) out.old result out.new }
{
    let Ok(length) = u16::try_from(load.len()) else {
        return Err(WriteError::TooLong);
    };
    if out.len() < 5 + load.len() {
        return Err(WriteError::NoRoom);
    }
    let word = handle % 4096 + 4096 * (u16::from(boundary) % 4);
    let [low, high] = word.to_le_bytes();
    let [length_low, length_high] = length.to_le_bytes();
    let header = [H4_ACL, low, high, length_low, length_high];
    Ok(octets::put_two(out, 0, &header, load))
}

// Command Complete.
pub fn command_complete(
    num: u8,
    op: u16,
    return_params: &[u8],
    out: &mut [u8],
) -> Result<usize, WriteError>
    ensures { WroteEvent 0x0E (packet.complete_params num op return_params.now) out.old result out.new }
{
    let [low, high] = op.to_le_bytes();
    event_of(COMMAND_COMPLETE, &[num, low, high], return_params, out)
}

// Command Status.
pub fn command_status(num: u8, status: u8, op: u16, out: &mut [u8]) -> Result<usize, WriteError>
    ensures { WroteEvent 0x0F (packet.status_params num status op) out.old result out.new }
{
    let [low, high] = op.to_le_bytes();
    event(COMMAND_STATUS, &[status, num, low, high], out)
}

// Number Of Completed Packets, of pairs of a handle and a count, in two slices as C has them; where one is longer, what it has
// more is no pair.
#[tactic(auto, using(crate::proofs::Pairs::length_pairs), unfolding(crate::specs::Write::refusal))]
pub fn number_of_completed_packets(
    handles: &[u16],
    counts: &[u16],
    out: &mut [u8],
) -> Result<usize, WriteError>
    ensures { Wrote (min (length handles.now) (length counts.now)) 63
        (packet.event 0x13 (packet.completed_params handles.now counts.now))
        out.old result out.new }
{
    let k = handles.len().min(counts.len());
    if 63 < k {
        return Err(WriteError::TooLong);
    }
    if out.len() < 4 + 4 * k {
        return Err(WriteError::NoRoom);
    }
    // By `as`: at most 63 pairs, and `try_from` would want a branch that no run takes.
    let at = octets::put(
        out,
        0,
        &[
            H4_EVENT,
            NUMBER_OF_COMPLETED_PACKETS,
            (1 + 4 * k) as u8,
            k as u8,
        ],
    );
    Ok(put_pairs(out, at, handles, counts))
}

// Each handle with its count, from index at. By index: with the two slices side by side as an iterator 16 pairs take twice as many
// instructions.
fn put_pairs(out: &mut [u8], at: usize, handles: &[u16], counts: &[u16]) -> usize
    requires { at + 4 * min (length handles.now) (length counts.now) ≤ length out.old }
    ensures { Put out.old at (packet.pairs handles.now counts.now) result out.new }
{
    let mut p = at;
    for i in 0..handles.len().min(counts.len()) {
        let [low, high] = handles[i].to_le_bytes();
        let [count_low, count_high] = counts[i].to_le_bytes();
        p = octets::put(out, p, &[low, high, count_low, count_high]);
    }
    p
}

// An LE Meta event.
pub fn le_meta(subevent: u8, params: &[u8], out: &mut [u8]) -> Result<usize, WriteError>
    ensures { WroteEvent 0x3E (packet.meta_params subevent params.now) out.old result out.new }
{
    event_of(LE_META, &[subevent], params, out)
}
