// Gradient: a warm and cool gradient by rows and a light centre by columns, weaker in a bright scene. What a column keeps of its light
// is worked out once for all rows.
ghost use Rattle.std.specs.Prelude.{◌≡◌, ◌<◌, ◌≤◌, length};
ghost use Rattle.num.specs.Const.{c0_0};
ghost use Rattle.num.specs.Rewrite.{fill};
ghost use Rattle.passes.specs.Fold.{fold};
ghost use Rattle.passes.specs.Rows.{Frame, placed};
ghost use Rattle.passes.specs.Plain.AutoGradient as AutoGradient;
ghost use Rattle.passes.specs.Painted.{painted};
ghost use Rattle.passes.specs.Private.{at, mark_clamped, every_clamped, gradient_by};

use crate::pixel::Rgb;
use crate::{blur, marks, pixel, rows};

fn add_luma(sum: f32, p: u32) -> f32
    ensures { result ≡ AutoGradient.add_luma sum p }
{
    sum + pixel::luma709(pixel::unpack(p))
}

// The sum of all lumas, from the first word on.
fn total(frame: &[u32]) -> f32
    ensures { result ≡ fold AutoGradient.add_luma c0_0 frame.now }
{
    frame.iter().fold(0.0, |sum, p| add_luma(sum, *p))
}

// The strength, by the mean luma: a dark scene gets more.
fn adaptive(strength: f32, count: u32, sum: f32) -> f32
    requires { count ≤ 1048576 }
    ensures { result ≡ AutoGradient.adaptive strength count sum }
{
    let scene = num::steps::clamp(sum / count as f32 / 255.0, 0.0, 1.0);
    strength * (1.0 - scene * 0.45)
}

// The warmth of a row.
fn warm(h: usize, y: usize, vertical: f32, a: f32) -> f32
    requires { (y ≤ 1024) × (h ≤ 1024) }
    ensures { result ≡ AutoGradient.warm h y vertical a }
{
    -rows::position(h, y) * vertical * a
}

// How much of its light a column keeps.
fn fall(w: usize, x: usize, horizontal: f32, a: f32) -> f32
    requires { (x ≤ 1024) × (w ≤ 1024) }
    ensures { result ≡ AutoGradient.fall w horizontal a x }
{
    1.0 - num::steps::abs(rows::position(w, x)) * horizontal * a
}

// The same for each column of a row that is as long as the line.
fn falls(line: &mut [f32], horizontal: f32, a: f32)
    requires { length line.old ≤ 1024 }
    ensures { line.new ≡ fill (AutoGradient.fall (length line.old) horizontal a) line.old }
{
    let w = line.len();
    for (x, kept) in line.iter_mut().enumerate() {
        *kept = fall(w, x, horizontal, a);
    }
}

// The brightness factor of a column that keeps so much, in a row of warmth t.
fn brightness(t: f32, kept: f32) -> f32
    ensures { result ≡ AutoGradient.brightness t kept }
{
    (1.0 + t * 0.30) * kept
}

fn shade(t: f32, factor: f32, p: u32) -> u32
    ensures { result ≡ mark_clamped (AutoGradient.shade t factor p) }
{
    let c = pixel::unpack(p);
    marks::clamped(Rgb {
        r: c.r * factor + t * 18.0,
        g: c.g * factor + t * 5.0,
        b: c.b * factor - t * 14.0,
    })
}

// A row of warmth t; `kept` gives what each column keeps.
fn row(row: &mut [u32], kept: &[f32], t: f32)
    requires { length kept.now ≡ length row.old }
    ensures { row.new
        ≡ every_clamped (λ x. AutoGradient.shade t (AutoGradient.brightness t (at kept.now x))) row.old }
{
    for (x, word) in row.iter_mut().enumerate() {
        *word = shade(t, brightness(t, kept[x]), *word);
    }
}

#[tactic(auto, using(crate::proofs::RowLoops::row_loop))]
fn rows(frame: &mut [u32], kept: &[f32], width: usize, height: usize, vertical: f32, a: f32)
    requires { Frame width height frame.old × (length kept.now ≡ width) }
    ensures { frame.new ≡ every_clamped (placed width (gradient_by height (at kept.now) vertical a)) frame.old }
{
    for y in 0..height {
        let at = y * width;
        row(
            &mut frame[at..at + width],
            kept,
            warm(height, y, vertical, a),
        );
    }
}

// Returns how many channels were clipped.
pub fn apply(
    frame: &mut [u32],
    width: usize,
    height: usize,
    strength: f32,
    vertical: f32,
    horizontal: f32,
) -> u32
    requires { Frame width height frame.old }
    ensures { painted frame.new result ≡ AutoGradient.auto_gradient width height strength vertical horizontal frame.old }
{
    let a = adaptive(strength, frame.len() as u32, total(frame));
    let mut line = blur::line::<1024>();
    falls(&mut line[..width], horizontal, a);
    rows(frame, &line[..width], width, height, vertical, a);
    marks::collect(frame)
}
