// The exact red, green and blue totals of many rectangles of a picture. The picture is walked over once: in bands of rows
// that have the same rectangles, and in a band over the runs of words that a rectangle holds. No word is read twice, and
// none that no rectangle holds.
#![tactic(auto)]

ghost use Rattle.std.specs.Prelude.{◌≡◌};
ghost use Rattle.areas.specs.Areas.{answered, judged};

mod area; // a rectangle of the list
mod refusal; // what is refused
mod edges; // where a band of rows ends, and from where to where it is held
mod lines; // the lines that a walk works with
mod marks; // which places of a row are held
mod block; // the words of a band that are held: each is read once, at one place
mod share; // what a band gives to each rectangle
mod walk; // band after band

use num::refusal::Refusal;

// The number of words read. Three totals for each rectangle of `areas` go to the front of `res`; the rest of it stays, and all of
// it where the call is refused.
#[tactic(auto, unfolding(crate::specs::Areas::judged, num::specs::Refusals::unless))]
pub fn totals(
    picture: &[u32],
    width: usize,
    height: usize,
    areas: &[u16],
    res: &mut [u64],
) -> Result<u32, Refusal>
    ensures { (answered result, res.new) ≡ judged picture.now width height areas.now res.old }
{
    refusal::refusal(picture.len(), width, height, areas, res.len())?;
    Ok(walk::walk(picture, width, height, areas, res))
}
