// The input: a length byte and the card, then events. How many bytes each takes, and what is wrong with it.
ghost use Rattle.std.specs.Prelude.{◌≡◌, ◌||◌, ◌<◌, ◌≤◌, length};
ghost use Rattle.num.specs.Refusals.{code};
ghost use Rattle.events.specs.Events as Events;

use num::refusal::Refusal;
use raster::pixels::at;

// How many bytes the length byte and the card take, as far as these bytes tell.
#[tactic(auto, unfolding(crate::specs::Events::head_wanted))]
pub fn head_wanted(bytes: &[u8]) -> usize
    ensures { (result ≡ Events.head_wanted bytes.now) × (result ≤ 256) }
{
    if bytes.is_empty() {
        return 1;
    }
    1 + at(bytes, 0)
}

#[tactic(auto, unfolding(crate::specs::Events::outside))]
fn outside(side: usize) -> bool
    ensures { result ≡ Events.outside side }
{
    side == 0 || 32 < side
}

fn bad_size(width: usize, height: usize) -> bool
    ensures { result ≡ (Events.outside width || Events.outside height) }
{
    outside(width) || outside(height)
}

// How many bytes a frame takes.
#[tactic(auto, unfolding(crate::specs::Events::frame_wanted), using(crate::proofs::Sizes::small))]
fn frame_wanted(bytes: &[u8]) -> usize
    ensures { (result ≡ Events.frame_wanted bytes.now) × (result ≤ 3075) }
{
    if bytes.len() < 3 {
        return 3;
    }
    let width = at(bytes, 1);
    let height = at(bytes, 2);
    if bad_size(width, height) {
        return 3;
    }
    3 + 3 * (height * width)
}

// How many bytes the event takes that begins with these, as far as they tell.
#[tactic(auto, unfolding(crate::specs::Events::event_wanted))]
pub fn event_wanted(bytes: &[u8]) -> usize
    ensures { (result ≡ Events.event_wanted bytes.now) × (result ≤ 3075) }
{
    match bytes.first() {
        None => 1,
        Some(b'F') => frame_wanted(bytes),
        Some(b'S') => 3,
        Some(_) => 1,
    }
}

#[tactic(auto, unfolding(crate::specs::Events::frame_fault), using(crate::proofs::Sizes::small))]
fn frame_fault(bytes: &[u8]) -> Result<(), Refusal>
    ensures { code result ≡ Events.frame_fault bytes.now }
{
    if bytes.len() < 3 {
        return Err(Refusal::TornCard);
    }
    let width = at(bytes, 1);
    let height = at(bytes, 2);
    if bad_size(width, height) {
        return Err(Refusal::BadSize);
    }
    if bytes.len() < 3 + 3 * (height * width) {
        return Err(Refusal::TornCard);
    }
    Ok(())
}

#[tactic(auto, unfolding(crate::specs::Events::switch_fault))]
fn switch_fault(bytes: &[u8]) -> Result<(), Refusal>
    ensures { code result ≡ Events.switch_fault bytes.now }
{
    if bytes.len() < 3 || 1 < at(bytes, 2) {
        return Err(Refusal::TornCard);
    }
    Ok(())
}

// Why the reading ends at this event, if it does: a bad size, or, with the number of a torn card, all else.
#[tactic(auto, unfolding(crate::specs::Events::event_fault))]
pub(crate) fn event_fault(bytes: &[u8]) -> Result<(), Refusal>
    requires { 0 < length bytes.now }
    ensures { code result ≡ Events.event_fault bytes.now }
{
    match bytes[0] {
        b'F' => frame_fault(bytes),
        b'S' => switch_fault(bytes),
        b'R' | b'L' => Ok(()),
        _ => Err(Refusal::TornCard),
    }
}
