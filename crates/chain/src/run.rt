// A frame's way through the chain: the passes that are on, in the card's order, each known by its promise alone. It assumes that the station
// is good and that enough is lent, which `refusals` has tested.
ghost use Rattle.std.specs.Prelude.{◌≡◌, length};
ghost use Rattle.passes.specs.Flow.{flow};
ghost use Rattle.passes.specs.Painted.{painted};
ghost use Rattle.chain.specs.Chain.{paint as paintOf, with_held, turn, ran, chain, samples_of, record_samples, samples_in};
ghost use Rattle.chain.specs.Lent.{Lent, Ready, Readies};

use super::refusals::depth_of;
use cards::station::{Pass, Record};
use num::size::Size;
use passes::blur::Counts;
use passes::{
    auto_gradient, bloom, color_correction, crt, curvature, lut, ntsc, persistence, scanlines,
    vignette,
};

// What a pass without a blur counts.
fn clipped(clipped: u32) -> Counts
    ensures { (result.clipped ≡ clipped) × (result.samples ≡ 0) }
{
    Counts {
        clipped,
        samples: 0,
    }
}

// A pass that keeps nothing, and what it counts; persistence is none, and leaves the frame.
fn paint(
    pass: Pass,
    size: Size,
    frame: &mut [u32],
    floats: &mut [f32],
    ints: &mut [u32],
    curve: &[f32],
) -> Counts
    requires lent { Lent size frame.old floats.old ints.old }
    requires ready { Ready size pass 0 (length curve.now) }
    ensures { (painted frame.new result.clipped ≡ paintOf size.width size.height curve.now pass frame.old)
        × (result.samples ≡ samples_of size.width size.height pass) }
{
    let width = size.width as usize;
    let height = size.height as usize;
    match pass {
        Pass::Ntsc { strength, bleed } => ntsc::apply(
            frame,
            width,
            height,
            strength,
            bleed as usize,
        ),
        Pass::Bloom {
            threshold,
            strength,
            radius,
        } => bloom::apply(
            frame,
            floats,
            width,
            height,
            threshold,
            strength,
            radius as usize,
        ),
        Pass::AutoGradient {
            strength,
            vertical,
            horizontal,
        } => clipped(auto_gradient::apply(frame, width, height, strength, vertical, horizontal)),
        Pass::Persistence { .. } => clipped(0),
        Pass::Lut { preset, strength } => clipped(lut::apply(frame, preset, strength)),
        Pass::Curvature { amount } => {
            curvature::apply(frame, ints, width, height, amount);
            clipped(0)
        }
        Pass::ColorCorrection {
            brightness,
            contrast,
            saturation,
            gamma,
        } => clipped(color_correction::apply(
            frame, curve, brightness, contrast, saturation, gamma,
        )),
        Pass::Crt { strength } => {
            crt::apply(frame, width, height, strength);
            clipped(0)
        }
        Pass::Vignette { strength } => {
            vignette::apply(frame, floats, width, height, strength);
            clipped(0)
        }
        Pass::Scanlines { strength } => {
            scanlines::apply(frame, width, height, strength);
            clipped(0)
        }
    }
}

// A record: its pass, where it is on. Persistence goes by what the record holds, any other pass paints the frame.
fn run_record(
    rec: &mut Record,
    size: Size,
    frame: &mut [u32],
    history: &mut [u32],
    floats: &mut [f32],
    ints: &mut [u32],
    curve: &[f32],
) -> Counts
    requires lent { Lent size frame.old floats.old ints.old }
    requires ready { Ready size rec.old.pass (length history.old) (length curve.now) }
    ensures run { (flow (painted frame.new result.clipped) rec.new.held history.new
        ≡ turn size.width size.height curve.now rec.old (painted frame.old 0) history.old)
        × (result.samples ≡ record_samples size.width size.height rec.old) }
    ensures rest { rec.new ≡ with_held rec.new.held rec.old }
{
    if !rec.on {
        return clipped(0);
    }
    let Pass::Persistence { amount, depth } = rec.pass else {
        return paint(rec.pass, size, frame, floats, ints, curve);
    };
    let kept = persistence::apply(frame, history, ints, amount, depth, rec.held, size);
    rec.held = kept.held;
    clipped(kept.clipped)
}

// The records of a chain in their order, each with its own part of the history, one after the other.
pub(crate) fn run_chain(
    records: &mut [Record],
    size: Size,
    frame: &mut [u32],
    history: &mut [u32],
    floats: &mut [f32],
    ints: &mut [u32],
    curve: &[f32],
) -> Counts
    requires lent { Lent size frame.old floats.old ints.old }
    requires ready { Readies size records.old (length history.old) (length curve.now) }
    ensures { (ran (painted frame.new result.clipped) records.new history.new
        ≡ chain size.width size.height curve.now records.old (painted frame.old 0) history.old)
        × (result.samples ≡ samples_in size.width size.height records.old) }
{
    let count = size.area();
    let mut sum = clipped(0);
    let mut at = 0;
    for rec in records.iter_mut() {
        let end = at + depth_of(rec.pass) * count;
        let counts = run_record(rec, size, frame, &mut history[at..end], floats, ints, curve);
        sum.clipped += counts.clipped;
        sum.samples += counts.samples;
        at = end;
    }
    sum
}
