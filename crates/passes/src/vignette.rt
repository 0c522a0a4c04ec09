// Vignette: each word is dimmed by its distance from the frame's middle. The distance at column x is that at width - x, and
// at row y that at height - y, to the bit. So the factors are worked out for one quarter of the frame, into lent scratch,
// and a root serves up to four words.
ghost use Rattle.std.specs.Prelude.{◌≡◌, ◌+◌, ◌-◌, ◌/◌, ◌<◌, ◌≤◌, min, length, drop, slice_index_or};
ghost use Rattle.std.specs.Float.{nan};
ghost use Rattle.num.specs.F32.{◌⊕◌};
ghost use Rattle.num.specs.Root.{root_of};
ghost use Rattle.passes.specs.Plain.Pixel as Pixel;
ghost use Rattle.num.specs.Rewrite.{every, fill};
ghost use Rattle.passes.specs.Rows.{Frame, sampled};
ghost use Rattle.passes.specs.Plain.Vignette as Vignette;

use crate::pixel;

// How far k is from the middle of n, in halves of n, squared.
fn offset_squared(n: usize, k: usize) -> f32
    requires { (n ≤ 1024) × (k ≤ 1024) }
    ensures { result ≡ Vignette.offset_squared n k }
{
    let c = n as u16 as f32 / 2.0;
    let d = (k as u16 as f32 - c) / c;
    d * d
}

fn factor(strength: f32, distance: f32) -> f32
    ensures { result ≡ Vignette.factor strength distance }
{
    1.0 - num::steps::min(distance * strength, 1.0)
}

// The squares of the distances in one row up to its middle; yy is the row's own.
fn squares(line: &mut [f32], width: usize, yy: f32)
    requires { (width ≤ 1024) × (length line.old ≤ 1024) }
    ensures { line.new ≡ fill (λ x. Vignette.offset_squared width x ⊕ yy) line.old }
{
    for (x, square) in line.iter_mut().enumerate() {
        *square = offset_squared(width, x) + yy;
    }
}

// Distances become factors.
fn factors(line: &mut [f32], strength: f32)
    ensures { line.new ≡ every (λ x. Vignette.factor strength) line.old }
{
    for word in line.iter_mut() {
        *word = factor(strength, *word);
    }
}

// The factors of one row up to its middle.
fn line(line: &mut [f32], width: usize, strength: f32, yy: f32)
    requires { (width ≤ 1024) × (length line.old ≤ 1024) }
    ensures { line.new ≡ fill (λ x. Vignette.factor strength (root_of (Vignette.offset_squared width x ⊕ yy))) line.old }
{
    squares(line, width, yy);
    num::root::roots(line);
    factors(line, strength);
}

// The factors of the quarter: `wide` to a line, `high` lines.
#[tactic(auto, using(crate::proofs::RowLoops::row_loop))]
fn lines(table: &mut [f32], wide: usize, high: usize, width: usize, height: usize, strength: f32)
    requires { Frame wide high table.old × (width ≤ 1024) × (height ≤ 1024) }
    ensures { table.new ≡ sampled wide (Vignette.factor_at width height strength) table.old }
{
    for y in 0..high {
        let at = y * wide;
        line(
            &mut table[at..at + wide],
            width,
            strength,
            offset_squared(height, y),
        );
    }
}

// One row of the frame, by the factors up to its middle: forwards, and then backwards down to word 1 of the line.
fn row(row: &mut [u32], line: &[f32])
    requires { (0 < length row.old) × (length line.now ≡ length row.old / 2 + 1) }
    ensures { row.new ≡ every (λ x. Pixel.dim (slice_index_or line.now (min x (length row.old - x)) nan)) row.old }
{
    // By index, since the line is read forwards, and then backwards.
    for x in 0..line.len() {
        row[x] = pixel::dim(row[x], line[x]);
    }
    for x in line.len()..row.len() {
        row[x] = pixel::dim(row[x], line[row.len() - x]);
    }
}

// The scratch from the frame's count of words on stays as it is.
pub fn apply(frame: &mut [u32], scratch: &mut [f32], width: usize, height: usize, strength: f32)
    requires { Frame width height frame.old × (0 < width) × (0 < height) × (length frame.old ≤ length scratch.old) }
    ensures { (frame.new ≡ Vignette.vignette width height strength frame.old)
        × (drop (length frame.old) scratch.new ≡ drop (length frame.old) scratch.old) }
{
    let wide = width / 2 + 1;
    let high = height / 2 + 1;
    let words = high * wide;
    lines(&mut scratch[..words], wide, high, width, height, strength);
    for y in 0..height {
        let at = y * width;
        let from = y.min(height - y) * wide;
        row(&mut frame[at..at + width], &scratch[from..from + wide]);
    }
}
