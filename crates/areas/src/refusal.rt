// What is refused, by which of the papers' refusals.
ghost use Rattle.std.specs.Prelude.{◌≡◌, ◌+◌, ◌≤◌};
ghost use Rattle.num.specs.Refusals.{code};
ghost use Rattle.areas.specs.Areas.{bad_area, bad_areas, bad_list, refusal_of};

use super::area::{Area, area_at};
use num::refusal::Refusal;
use num::size::bad_side;

// Whether the rectangle leaves the picture.
#[tactic(auto, unfolding(crate::specs::Areas::bad_area))]
fn bad_area(a: Area, width: usize, height: usize) -> bool
    requires { (a.left + a.wide ≤ 131070) × (a.top + a.high ≤ 131070) }
    ensures { result ≡ bad_area width height a }
{
    width < a.left + a.wide || height < a.top + a.high
}

// Whether one of the rectangles does. (With `any` over the range the proof did not close.)
#[tactic(auto, using(crate::proofs::OneOf::none_more), unfolding(crate::specs::Areas::bad_areas))]
fn bad_areas(areas: &[u16], width: usize, height: usize) -> bool
    ensures { result ≡ bad_areas width height areas.now }
{
    for k in 0..areas.len() / 4 {
        if bad_area(area_at(areas, k), width, height) {
            return true;
        }
    }
    false
}

// Whether the list of rectangles, or the room for its totals, is refused.
#[tactic(auto, unfolding(crate::specs::Areas::bad_list))]
fn bad_list(areas: &[u16], width: usize, height: usize, room: usize) -> bool
    ensures { result ≡ bad_list width height areas.now room }
{
    let n = areas.len() / 4;
    64 < n || areas.len() % 4 != 0 || room < 3 * n || bad_areas(areas, width, height)
}

// By the lengths of the picture and of the result.
#[tactic(auto, unfolding(crate::specs::Areas::refusal_of))]
pub(crate) fn refusal(
    words: usize,
    width: usize,
    height: usize,
    areas: &[u16],
    room: usize,
) -> Result<(), Refusal>
    ensures { code result ≡ refusal_of words width height areas.now room }
{
    if bad_side(width) || bad_side(height) {
        return Err(Refusal::BadSize);
    }
    if words < height * width {
        return Err(Refusal::ShortFrame);
    }
    if bad_list(areas, width, height, room) {
        return Err(Refusal::BadArea);
    }
    Ok(())
}
