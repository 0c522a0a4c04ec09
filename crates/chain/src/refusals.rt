// What a frame is refused by, and what of a chain is asked for it: its depth, and whether it reads a curve.
ghost use Rattle.std.specs.Prelude.{◌≡◌, not, ◌&&◌, ◌≤◌, length};
ghost use Rattle.num.specs.Refusals.{code};
ghost use Rattle.passes.specs.ColorCorrection.{good_curve};
ghost use Rattle.chain.specs.Chain.{depth_of, depth as depthIn, reads as readsBy, reads_curve};
ghost use Rattle.chain.specs.Calls.{stops as stopsBy};

use cards::station::{Pass, Record, Station};
use num::refusal::Refusal;
use num::size::bad_side;
use passes::color_correction::{is_curved, is_good_curve};

// How many older frames a pass keeps.
pub(crate) fn depth_of(pass: Pass) -> usize
    ensures { (result ≡ depth_of pass) × (result ≤ 255) }
{
    match pass {
        Pass::Persistence { depth, .. } => depth as usize,
        _ => 0,
    }
}

// The sum of the depths of the records.
pub(crate) fn depth(records: &[Record]) -> usize
    requires { length records.now ≤ 12 }
    ensures { (result ≡ depthIn records.now) × (result ≤ 3060) }
{
    let mut sum = 0;
    for r in records {
        sum += depth_of(r.pass);
    }
    sum
}

// Whether a pass reads the curve: colour, at a gamma other than 1.0.
pub(crate) fn reads(pass: Pass) -> bool
    ensures { result ≡ readsBy pass }
{
    match pass {
        Pass::ColorCorrection { gamma, .. } => is_curved(gamma),
        _ => false,
    }
}

// Whether one of the records does, on or off.
#[tactic(auto, unfolding(crate::specs::Chain::reads_curve))]
fn reads_curve(records: &[Record]) -> bool
    ensures { result ≡ reads_curve records.now }
{
    records.iter().any(|r| reads(r.pass))
}

// Whether the records read a curve and this one cannot be read.
fn lacks_curve(records: &[Record], curve: &[f32]) -> bool
    ensures { result ≡ (reads_curve records.now && not (good_curve curve.now)) }
{
    reads_curve(records) && !is_good_curve(curve)
}

// Of a frame, by the curve and the lengths of all else that is lent: what `apply` would refuse it by. Nothing is changed, so a caller
// may ask before it writes the frame's words.
#[tactic(auto, unfolding(crate::specs::Calls::stops))]
pub fn stops(
    station: &Station,
    width: usize,
    height: usize,
    words: usize,
    history: usize,
    floats: usize,
    ints: usize,
    curve: &[f32],
) -> Result<(), Refusal>
    ensures { code result ≡ stopsBy station.now width height words history floats ints curve.now }
{
    if !station.is_good() {
        return Err(Refusal::BadStation);
    }
    if bad_side(width) || bad_side(height) {
        return Err(Refusal::BadSize);
    }
    let count = height * width;
    if words < count {
        return Err(Refusal::ShortFrame);
    }
    let records = station.chain();
    if history < depth(records) * count {
        return Err(Refusal::ShortHistory);
    }
    if floats < 3 * count + 3 * width || ints < count {
        return Err(Refusal::ShortScratch);
    }
    if lacks_curve(records, curve) {
        return Err(Refusal::BadCurve);
    }
    Ok(())
}
