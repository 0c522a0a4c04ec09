// Colour correction. The original raises each channel to the power gamma first. Here that power of each of the 256 channels is lent as a
// curve; at gamma 1.0 the power gives back its operand, and no curve is read.
ghost use Rattle.std.specs.Prelude.{◌≡◌, ◌≤◌, length};
ghost use Rattle.passes.specs.ColorCorrection as Text;
ghost use Rattle.passes.specs.Plain.ColorCorrection as ColorCorrection;
ghost use Rattle.passes.specs.Plain.Pixel as Pixel;
ghost use Rattle.passes.specs.Painted.{painted};
ghost use Rattle.passes.specs.Private.{mark_unit, every_unit, toned};

use crate::pixel::Rgb;
use crate::{marks, pixel};

// Whether a curve is read at that gamma.
pub fn is_curved(gamma: f32) -> bool
    ensures { result ≡ Text.curved gamma }
{
    gamma != 1.0
}

// In 0..1 by value: -0 is, no NaN is.
fn in_unit(x: f32) -> bool
    ensures { result ≡ Text.in_unit x }
{
    0.0 <= x && x <= 1.0
}

// Whether a curve can be read: 256 words or more, the first 256 of them in 0..1.
pub fn is_good_curve(curve: &[f32]) -> bool
    ensures { result ≡ Text.good_curve curve.now }
{
    curve.len() >= 256 && curve[..256].iter().all(|x| in_unit(*x))
}

// The channels of a word as the curve has them.
fn powers(curve: &[f32], p: u32) -> Rgb
    requires { 256 ≤ length curve.now }
    ensures { result ≡ Pixel.by_number (ColorCorrection.power curve.now) p }
{
    Rgb {
        r: curve[(p / 65536 % 256) as usize],
        g: curve[(p / 256 % 256) as usize],
        b: curve[(p % 256) as usize],
    }
}

// Brightness, then contrast about the middle.
fn level(x: f32, brightness: f32, contrast: f32) -> f32
    ensures { result ≡ ColorCorrection.level brightness contrast x }
{
    (x + brightness - 0.5) * contrast + 0.5
}

// What becomes of a colour from there on.
fn tone(c: Rgb, brightness: f32, contrast: f32, saturation: f32) -> u32
    ensures { result ≡ mark_unit (toned brightness contrast saturation c) }
{
    let d = c.map(|x| level(x, brightness, contrast));
    let luminance = pixel::luma709(d);
    marks::unit(d.map(|x| luminance + (x - luminance) * saturation))
}

// At gamma 1.0, by a loop of its own: it reads no table, so that it becomes vector code. Out of line, so that its code does
// not hang on what else the chain's long function holds.
#[inline(never)]
fn by_share(frame: &mut [u32], brightness: f32, contrast: f32, saturation: f32)
    ensures { frame.new ≡ every_unit (λ i. ColorCorrection.colour ColorCorrection.share brightness contrast saturation) frame.old }
{
    for word in frame.iter_mut() {
        *word = tone(pixel::unit(*word), brightness, contrast, saturation);
    }
}

// The same by a curve, out of line for the same reason.
#[inline(never)]
fn by_curve(frame: &mut [u32], curve: &[f32], brightness: f32, contrast: f32, saturation: f32)
    requires { 256 ≤ length curve.now }
    ensures { frame.new ≡ every_unit (λ i. ColorCorrection.colour (ColorCorrection.power curve.now) brightness contrast saturation)
        frame.old }
{
    for word in frame.iter_mut() {
        *word = tone(powers(curve, *word), brightness, contrast, saturation);
    }
}

// A curve is needed only where it is read.
fn paint(
    frame: &mut [u32],
    curve: &[f32],
    brightness: f32,
    contrast: f32,
    saturation: f32,
    gamma: f32,
)
    requires { Text.Enough gamma curve.now }
    ensures { frame.new
        ≡ every_unit (λ i. ColorCorrection.colour (ColorCorrection.start curve.now gamma) brightness contrast saturation) frame.old }
{
    if is_curved(gamma) {
        by_curve(frame, curve, brightness, contrast, saturation);
    } else {
        by_share(frame, brightness, contrast, saturation);
    }
}

// Returns how many channels were clipped.
pub fn apply(
    frame: &mut [u32],
    curve: &[f32],
    brightness: f32,
    contrast: f32,
    saturation: f32,
    gamma: f32,
) -> u32
    requires fact_1 { length frame.old ≤ 1048576 }
    requires fact_2 { Text.Enough gamma curve.now }
    ensures { painted frame.new result
        ≡ ColorCorrection.color_correction curve.now brightness contrast saturation gamma frame.old }
{
    paint(frame, curve, brightness, contrast, saturation, gamma);
    marks::collect(frame)
}
