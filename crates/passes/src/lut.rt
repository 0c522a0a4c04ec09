// LUT: the preset number decides among seven colour treatments, in the order of the original's `LutPreset`.
ghost use Rattle.std.specs.Prelude.{◌≡◌, ◌*◌, ◌≤◌, length, slice_index};
ghost use Rattle.num.specs.Rewrite.{every, fill};
ghost use Rattle.passes.specs.Plain.Lut as Lut;
ghost use Rattle.passes.specs.Painted.{painted};
ghost use Rattle.passes.specs.Private.{Greys, OfWord, entry, every_unit, picked, third};

use crate::pixel::Rgb;
use crate::{marks, pixel};

// Game Boy's level: the luma, rounded to thirds. That of a word lies where `nearest` is the shorter way to `round`.
fn third(c: Rgb) -> f32
    requires { OfWord c }
    ensures { result ≡ third c }
{
    num::whole::nearest(pixel::luma601(c) * 3.0) as u16 as f32 / 3.0
}

fn transform(preset: u8, c: Rgb) -> Rgb
    requires { OfWord c }
    ensures { result ≡ Lut.transform preset c }
{
    match preset {
        0 => c,
        1 => Rgb {
            r: c.r * 1.05 + 0.015,
            g: c.g * 1.01,
            b: c.b * 0.92,
        },
        2 => Rgb {
            r: c.r * 0.94,
            g: c.g * 0.99,
            b: c.b * 1.06 + 0.01,
        },
        3 => {
            let y = pixel::luma601(c);
            Rgb {
                r: (y + (c.r - y) * 0.82) * 1.03,
                g: (y + (c.g - y) * 0.88) * 1.00,
                b: (y + (c.b - y) * 0.72) * 0.96,
            }
        }
        4 => {
            let level = third(c);
            Rgb {
                r: level * 0.35,
                g: level * 0.72,
                b: level * 0.42,
            }
        }
        5 => {
            let luminance = pixel::luma601(c);
            Rgb {
                r: luminance * 0.95,
                g: luminance * 0.58,
                b: luminance * 0.16,
            }
        }
        _ => c.map(|x| (x - 0.5) * 1.25 + 0.5),
    }
}

fn colour(p: u32, preset: u8, strength: f32) -> Rgb
    ensures { result ≡ Lut.colour preset strength p }
{
    let c = pixel::unit(p);
    let t = transform(preset, c);
    Rgb {
        r: c.r + (t.r - c.r) * strength,
        g: c.g + (t.g - c.g) * strength,
        b: c.b + (t.b - c.b) * strength,
    }
}

// One channel of a colour at its place in a word, marked: three of them add up to the marked word.
fn entry(which: usize, c: Rgb) -> u32
    ensures { result ≡ entry which c }
{
    match which {
        0 => num::whole::cut_unit(c.r) * 65536 + marks::clip(c.r, 1.0) * 16777216,
        1 => num::whole::cut_unit(c.g) * 256 + marks::clip(c.g, 1.0) * 16777216,
        _ => num::whole::cut_unit(c.b) + marks::clip(c.b, 1.0) * 16777216,
    }
}

// What one channel of the greys becomes, by its value: word k is that of 0x010101 * k.
fn greys(table: &mut [u32], which: usize, preset: u8, strength: f32)
    requires { length table.old ≤ 256 }
    ensures { table.new ≡ fill (λ k. entry which (Lut.colour preset strength (k * 65793))) table.old }
{
    for (k, word) in table.iter_mut().enumerate() {
        *word = entry(which, colour(k as u32 * 65793, preset, strength));
    }
}

fn table(which: usize, preset: u8, strength: f32) -> [u32; 256]
    ensures { Greys which preset strength result }
{
    let mut words = [0; 256];
    greys(&mut words, which, preset, strength);
    words
}

// The sum of the tables' words for a word's channels. It does not wrap where the tables are those of the greys.
fn picked(reds: &[u32], greens: &[u32], blues: &[u32], p: u32) -> u32
    requires { (256 ≡ length reds.now) × (256 ≡ length greens.now) × (256 ≡ length blues.now) }
    ensures { result ≡ picked (λ k. slice_index reds.now k) (λ k. slice_index greens.now k)
        (λ k. slice_index blues.now k) p }
{
    let red = reds[(p / 65536 % 256) as usize];
    let green = greens[(p / 256 % 256) as usize];
    let blue = blues[(p % 256) as usize];
    red.wrapping_add(green).wrapping_add(blue)
}

// Out of line, where its addresses stay in registers: within the chain's long function it took a fifth longer.
#[inline(never)]
fn by_greys(frame: &mut [u32], reds: &[u32], greens: &[u32], blues: &[u32])
    requires { (256 ≡ length reds.now) × (256 ≡ length greens.now) × (256 ≡ length blues.now) }
    ensures { frame.new ≡ every (λ i. picked (λ k. slice_index reds.now k) (λ k. slice_index greens.now k)
        (λ k. slice_index blues.now k)) frame.old }
{
    for word in frame.iter_mut() {
        *word = picked(reds, greens, blues, *word);
    }
}

// Presets 3, 4 and 5, which mix channels. Each is an instance of its own, where the preset is a number: so the loop has its own
// treatment alone and becomes vector code. As one loop that is handed the preset it did not, and took seven times as long. Out of line,
// as `by_greys` is.
#[inline(never)]
fn by_mixing<const PRESET: u8>(frame: &mut [u32], strength: f32)
    ensures { frame.new ≡ every_unit (λ i. Lut.colour PRESET strength) frame.old }
{
    for word in frame.iter_mut() {
        *word = marks::unit(colour(*word, PRESET, strength));
    }
}

// Where a channel becomes what it does by its own value alone, the 256 greys say all.
fn paint(frame: &mut [u32], preset: u8, strength: f32)
    ensures { frame.new ≡ every_unit (λ i. Lut.colour preset strength) frame.old }
{
    match preset {
        3 => by_mixing::<3>(frame, strength),
        4 => by_mixing::<4>(frame, strength),
        5 => by_mixing::<5>(frame, strength),
        _ => {
            let reds = table(0, preset, strength);
            let greens = table(1, preset, strength);
            let blues = table(2, preset, strength);
            by_greys(frame, &reds, &greens, &blues);
        }
    }
}

// Returns how many channels were clipped.
pub fn apply(frame: &mut [u32], preset: u8, strength: f32) -> u32
    requires { length frame.old ≤ 1048576 }
    ensures { painted frame.new result ≡ Lut.lut preset strength frame.old }
{
    paint(frame, preset, strength);
    marks::collect(frame)
}
