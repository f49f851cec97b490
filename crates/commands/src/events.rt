// The events that follow an answer, under their masks. Each function gives the same answer with the event behind it, or with
// none where the host has masked it.
ghost use Rattle.std.specs.Prelude.{◌≡◌, ◌++◌, ◌≤◌, length, flat_map, replicate};
ghost use Rattle.hci.specs.Packet.{event, meta_params};
ghost use Rattle.answers.specs.Answers.{Follows};
ghost use Rattle.commands.specs.Following.{timing_of, le_meta_event, update_complete, encryption_change};
ghost use Rattle.commands.specs.Following.{connection_tail, connection_complete, connection_failed};

use answers::Answer;
use hci::event_code::{ENCRYPTION_CHANGE, ENCRYPTION_CHANGE_V2};
use hci::mask;
use hci::status::SUCCESS;
use hci::subevent::{
    CONNECTION_COMPLETE, CONNECTION_UPDATE_COMPLETE, ENHANCED_CONNECTION_COMPLETE,
    ENHANCED_CONNECTION_COMPLETE_V2,
};
use links::Timing;
use state::Masks;

// An event of at most 37 octets.
pub fn followed_by_event(answer: Answer, code: u8, params: &[u8]) -> Answer
    requires { length params.now ≤ 34 }
    ensures { Follows (event code params.now) answer result }
{
    let mut event = [0; 37];
    let n = hci::event(code, params, &mut event).unwrap_or(0);
    answers::followed_by(answer, &event[..n])
}

// An LE Meta event. One function with `followed_by_event` would be handed which writer it calls, and is no plainer.
fn followed_by_subevent(answer: Answer, subevent: u8, params: &[u8]) -> Answer
    requires { length params.now ≤ 33 }
    ensures { Follows (event 0x3E (meta_params subevent params.now)) answer result }
{
    let mut event = [0; 37];
    let n = hci::le_meta(subevent, params, &mut event).unwrap_or(0);
    answers::followed_by(answer, &event[..n])
}

// An LE Meta event, where Event_Mask and LE_Event_Mask enable it.
#[tactic(auto, unfolding(crate::specs::Following::le_meta_event))]
pub fn followed_by_le(answer: Answer, masks: Masks, subevent: u8, params: &[u8]) -> Answer
    requires { (length params.now ≤ 33) × ((1 ≤ subevent) × (subevent ≤ 64)) }
    ensures { Follows (le_meta_event masks subevent params.now) answer result }
{
    if masks.enables_le(subevent) {
        return followed_by_subevent(answer, subevent, params);
    }
    answers::followed_by_none(answer)
}

// The three parameters of a link as events have them: two octets each.
fn timing_octets(timing: Timing) -> [[u8; 2]; 3]
    ensures { flat_map (λ x. x) result ≡ timing_of timing.interval timing.latency timing.timeout }
{
    [timing.interval, timing.latency, timing.timeout].map(u16::to_le_bytes)
}

// LE Connection Update Complete (section 7.7.65.3): a link has these parameters.
#[tactic(auto, unfolding(octets::specs::Octets::splice))]
pub fn followed_by_update(answer: Answer, masks: Masks, handle: u16, timing: Timing) -> Answer
    ensures { Follows (update_complete masks handle timing.interval timing.latency timing.timeout) answer result }
{
    let [low, high] = handle.to_le_bytes();
    let mut params = [SUCCESS; 9];
    octets::put_two(
        &mut params,
        1,
        &[low, high],
        timing_octets(timing).as_flattened(),
    );
    followed_by_le(answer, masks, CONNECTION_UPDATE_COMPLETE, &params)
}

// Encryption Change, in its newest form that the masks enable.
#[tactic(auto, unfolding(crate::specs::Following::encryption_change))]
pub fn followed_by_encryption_change(answer: Answer, masks: Masks, handle: u16) -> Answer
    ensures { Follows (encryption_change masks handle) answer result }
{
    let [low, high] = handle.to_le_bytes();
    if masks.enables_page2(mask::PAGE2_ENCRYPTION_CHANGE_V2) {
        return followed_by_event(
            answer,
            ENCRYPTION_CHANGE_V2,
            &[SUCCESS, low, high, 0x01, 16],
        );
    }
    if masks.enables(mask::ENCRYPTION_CHANGE) {
        return followed_by_event(answer, ENCRYPTION_CHANGE, &[SUCCESS, low, high, 0x01]);
    }
    answers::followed_by_none(answer)
}

// The parameters of LE Connection Complete, in the parts of which each of its forms is made.
#[derive(Clone, Copy)]
pub struct ConnectionComplete {
    // Status, handle, role, and the type of the peer's address.
    pub head: [u8; 5],
    pub peer: [u8; 6],
    pub timing: Timing,
    pub clock_accuracy: u8,
    // The advertising set and the periodic sync.
    pub sets: [u8; 3],
}

// The parameters of the newest form, version 2 of the enhanced one. Behind the peer's address are the two resolvable private
// addresses, of which there are none.
fn newest_params(c: ConnectionComplete) -> [u8; 33]
    ensures { result ≡ (c.head ++ c.peer) ++ replicate 12 0
        ++ connection_tail c.timing.interval c.timing.latency c.timing.timeout c.clock_accuracy ++ c.sets }
{
    let mut params = [0; 33];
    let peer_end = octets::put_two(&mut params, 0, &c.head, &c.peer);
    let at = octets::put_two(
        &mut params,
        peer_end,
        &[0; 12],
        timing_octets(c.timing).as_flattened(),
    );
    octets::put_two(&mut params, at, &[c.clock_accuracy], &c.sets);
    params
}

// LE Connection Complete, in its newest form that the masks enable (sections 7.7.65.10 and 7.7.65.1). Version 1 of the enhanced
// form has no sets at its end, and the plain form has no private addresses either.
#[tactic(auto, unfolding(crate::specs::Following::connection_complete))]
pub fn followed_by_connection_complete(
    answer: Answer,
    masks: Masks,
    c: ConnectionComplete,
) -> Answer
    ensures { Follows (connection_complete masks (c.head ++ c.peer)
        (connection_tail c.timing.interval c.timing.latency c.timing.timeout c.clock_accuracy) c.sets) answer result }
{
    let params = newest_params(c);
    if masks.enables_le(ENHANCED_CONNECTION_COMPLETE_V2) {
        return followed_by_subevent(answer, ENHANCED_CONNECTION_COMPLETE_V2, &params);
    }
    if masks.enables_le(ENHANCED_CONNECTION_COMPLETE) {
        return followed_by_subevent(answer, ENHANCED_CONNECTION_COMPLETE, &params[..30]);
    }
    let mut plain = [0; 18];
    octets::put_two(&mut plain, 0, &params[..11], &params[23..30]);
    followed_by_le(answer, masks, CONNECTION_COMPLETE, &plain)
}

// A connection that failed: its status, and zeros. The parameters are zeros in each form, so they are not put together of their
// parts, as those of a link that opened are: that took a third more time of a call that tells the advertising's end.
#[tactic(auto, unfolding(crate::specs::Following::connection_failed, crate::specs::Following::connection_complete))]
pub fn followed_by_connection_failed(answer: Answer, masks: Masks, code: u8) -> Answer
    ensures { Follows (connection_failed masks code) answer result }
{
    let mut failed = [0; 33];
    failed[0] = code;
    if masks.enables_le(ENHANCED_CONNECTION_COMPLETE_V2) {
        return followed_by_subevent(answer, ENHANCED_CONNECTION_COMPLETE_V2, &failed);
    }
    if masks.enables_le(ENHANCED_CONNECTION_COMPLETE) {
        return followed_by_subevent(answer, ENHANCED_CONNECTION_COMPLETE, &failed[..30]);
    }
    followed_by_le(answer, masks, CONNECTION_COMPLETE, &failed[..18])
}
