// The questions that several calls begin with: each function gives the first with a "no". The calls ask question 3 themselves,
// and `held` is its answer: the state would be copied to be handed on from here (docs/SPEED.md).
ghost use Rattle.std.specs.Prelude.{◌≡◌, ◌*◌, leb, IfOk};
ghost use Rattle.state.specs.Holding.{place_size};
ghost use Rattle.controller.specs.Asked.{refusal_number, about_state, about_events, about_pool, about_packet};

use crate::refusal::Refusal;
use profile::{ControllerRow, Rows};

// What a question answers that refuses nothing. Each question is a test and its refusal: a function that is handed both, with `?`
// behind it, is no plainer.
const PASSED: Result<(), Refusal> = Ok(());

// 1: is the profile within its limits? 3: does the state hold together?
#[tactic(auto, unfolding(calls::specs::Calls::first_no))]
pub fn about_state(profile: ControllerRow, held: bool) -> Result<(), Refusal>
    ensures { refusal_number result ≡ about_state profile held }
{
    if !profile::within_limits(profile) {
        return Err(Refusal::Profile);
    }
    if !held {
        return Err(Refusal::State);
    }
    PASSED
}

// 1, 3, and 5: has the event buffer 71 octets or more?
#[tactic(auto, unfolding(calls::specs::Calls::first_no), using(crate::proofs::Asking::some))]
pub fn about_events(profile: ControllerRow, held: bool, room: usize) -> Result<(), Refusal>
    ensures { refusal_number result ≡ about_events profile held room }
{
    about_state(profile, held)?;
    if room < 71 {
        return Err(Refusal::EventRoom);
    }
    PASSED
}

// 4: has the pool acl_count times acl_len + 5 octets or more?
fn pool_fits(profile: ControllerRow, pool: usize) -> bool
    ensures { result ≡ leb (profile.acl_count * place_size profile) pool }
{
    let places = state::places(profile);
    let least = places.count * places.size;
    least <= pool
}

// 1, 3 and 4.
#[tactic(auto, unfolding(calls::specs::Calls::first_no), using(crate::proofs::Asking::some))]
pub fn about_pool(profile: ControllerRow, held: bool, pool: usize) -> Result<(), Refusal>
    ensures { refusal_number result ≡ about_pool profile held pool }
{
    about_state(profile, held)?;
    if !pool_fits(profile, pool) {
        return Err(Refusal::Pool);
    }
    PASSED
}

// 1, 2: do the rows fit?, 3, 4 and 5. Gives the rows. They come as three slices, as C hands them in: that they are `Rows` is what
// question 2 asks.
#[tactic(auto, unfolding(calls::specs::Calls::first_no))]
pub fn about_packet<'a>(
    profile: ControllerRow,
    opcodes: &'a [u16],
    answers: &'a [u8],
    bits: &'a [u16],
    held: bool,
    pool: usize,
    room: usize,
) -> Result<Rows<'a>, Refusal>
    ensures asked { refusal_number result ≡ about_packet profile opcodes.now answers.now bits.now held pool room }
    ensures same { IfOk result (λ rows. (rows.opcodes.now ≡ opcodes.now) × (rows.answers.now ≡ answers.now)) }
{
    if !profile::within_limits(profile) {
        return Err(Refusal::Profile);
    }
    let Some(rows) = Rows::of(opcodes, answers, bits) else {
        return Err(Refusal::Rows);
    };
    if !held {
        return Err(Refusal::State);
    }
    if !pool_fits(profile, pool) {
        return Err(Refusal::Pool);
    }
    if room < 71 {
        return Err(Refusal::EventRoom);
    }
    Ok(rows)
}
