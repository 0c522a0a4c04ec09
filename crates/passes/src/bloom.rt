// Bloom: the bright part of the frame is blurred along rows into lent scratch, then along columns, and laid over the frame.
ghost use Rattle.std.specs.Prelude.{◌≡◌, ◌+◌, ◌*◌, ◌/◌, ◌%◌, ◌<◌, ◌≤◌, length, drop, slice_index};
ghost use Rattle.passes.specs.Plain.Pixel.{rgb};
ghost use Rattle.num.specs.Rewrite.{fill};
ghost use Rattle.passes.specs.Rows.{Frame, placed, sampled};
ghost use Rattle.passes.specs.Plain.Blur.{quotient};
ghost use Rattle.passes.specs.Plain.Bloom as Bloom;
ghost use Rattle.passes.specs.Painted.{painted};
ghost use Rattle.passes.specs.Samples.{samples as samples_of, bloom_samples};
ghost use Rattle.passes.specs.Private.{at, bright_by, horizontal_by, stored, mark_clamped, every_clamped};

use crate::blur::Counts;
use crate::pixel::Rgb;
use crate::{blur, marks, pixel};

// The part of a colour that lies above the threshold.
fn bright(c: Rgb, threshold: f32) -> Rgb
    ensures { result ≡ Bloom.bright threshold c }
{
    let brightness = pixel::luma709(c);
    if brightness <= threshold {
        return Rgb {
            r: 0.0,
            g: 0.0,
            b: 0.0,
        };
    }
    let intensity = num::steps::clamp((brightness - threshold) / (255.0 - threshold), 0.0, 1.0);
    pixel::scaled(c, intensity)
}

// One channel of a row's bright part.
fn bright_line(out: &mut [f32], row: &[u32], threshold: f32, which: usize)
    requires { length out.old ≡ length row.now }
    ensures { out.new ≡ fill (λ i. Bloom.bright_of threshold which (slice_index row.now i)) out.old }
{
    for (i, sample) in out.iter_mut().enumerate() {
        *sample = pixel::channel(which, bright(pixel::unpack(row[i]), threshold));
    }
}

// One channel of a row's bright part, blurred. `w` gives each column's sum of weights, `line` is room for a row. Returns how many samples were taken.
fn blurred_line(
    out: &mut [f32],
    row: &[u32],
    line: &mut [f32],
    w: &[f32],
    threshold: f32,
    which: usize,
    radius: usize,
) -> usize
    requires { (radius ≤ 64) × (length out.old ≡ length row.now) × (length line.old ≡ length row.now) × (length w.now ≡ length row.now)
        × (length row.now ≤ 1024) }
    ensures { (out.new ≡ fill (bright_by (at w.now) row.now threshold radius which) out.old)
        × (result ≡ samples_of (length row.now) radius) }
{
    bright_line(line, row, threshold, which);
    blur::blur_line(out, line, w, radius)
}

// All three channels of a row, one after the other. Returns how many samples were taken: each channel takes the same, and they count once.
fn horizontal_row(
    out: &mut [f32],
    row: &[u32],
    line: &mut [f32],
    w: &[f32],
    threshold: f32,
    radius: usize,
) -> usize
    requires { (radius ≤ 64) × (length out.old ≡ 3 * length row.now) × (length line.old ≡ length row.now) × (length w.now ≡ length row.now)
        × (length row.now ≤ 1024) }
    ensures { (out.new
        ≡ sampled (length row.now) (λ x which. bright_by (at w.now) row.now threshold radius which x) out.old)
        × (result ≡ samples_of (length row.now) radius) }
{
    let width = row.len();
    let mut samples = 0;
    for which in 0..3 {
        let at = which * width;
        samples = blurred_line(
            &mut out[at..at + width],
            row,
            line,
            w,
            threshold,
            which,
            radius,
        );
    }
    samples
}

// The bright part of the frame, blurred along rows: each row of `planes` has the three channels of the frame's row. Returns how many samples were taken.
fn horizontal(
    planes: &mut [f32],
    frame: &[u32],
    line: &mut [f32],
    w: &[f32],
    width: usize,
    height: usize,
    threshold: f32,
    radius: usize,
) -> usize
    requires fact_1 { (radius ≤ 64) × (length planes.old ≡ height * (3 * width)) × (length line.old ≡ width) × (length w.now ≡ width) }
    requires fact_2 { Frame width height frame.now }
    ensures { (planes.new ≡ sampled (3 * width)
        (λ i y. horizontal_by (at w.now) width radius threshold frame.now (i / width) (i % width) y) planes.old)
        × (result ≡ height * samples_of width radius) }
{
    let mut samples = 0;
    for y in 0..height {
        let from = y * width;
        let at = y * (3 * width);
        samples += horizontal_row(
            &mut planes[at..at + 3 * width],
            &frame[from..from + width],
            line,
            w,
            threshold,
            radius,
        );
    }
    samples
}

// A word with its glow.
fn composite(p: u32, glow: Rgb, strength: f32) -> u32
    ensures { result ≡ mark_clamped (Bloom.composite strength glow p) }
{
    let c = pixel::unpack(p);
    marks::clamped(Rgb {
        r: c.r + glow.r * strength,
        g: c.g + glow.g * strength,
        b: c.b + glow.b * strength,
    })
}

// A row with its glow: the three channels' sums over its columns, and its sum of weights.
fn composite_row(row: &mut [u32], sums: &[f32], w: f32, strength: f32)
    requires { length sums.now ≡ 3 * length row.old }
    ensures { row.new ≡ every_clamped (λ x. Bloom.composite strength
        (rgb (quotient (at sums.now x) w) (quotient (at sums.now (length row.old + x)) w)
        (quotient (at sums.now (2 * length row.old + x)) w))) row.old }
{
    let n = row.len();
    for (x, word) in row.iter_mut().enumerate() {
        let glow = Rgb {
            r: blur::quotient(sums[x], w),
            g: blur::quotient(sums[n + x], w),
            b: blur::quotient(sums[2 * n + x], w),
        };
        *word = composite(*word, glow, strength);
    }
}

// The frame with its glow, row by row. `sums` is room for a row of three channels. Returns how many samples were taken: as many of each column.
fn composite_rows(
    frame: &mut [u32],
    planes: &[f32],
    sums: &mut [f32],
    width: usize,
    height: usize,
    strength: f32,
    radius: usize,
) -> usize
    requires fact_1 { (radius ≤ 64) × (length planes.now ≡ height * (3 * width)) × (length sums.old ≡ 3 * width) }
    requires fact_2 { Frame width height frame.old }
    ensures { (frame.new
        ≡ every_clamped (placed width (Bloom.over height strength radius (stored planes.now width))) frame.old)
        × (result ≡ width * samples_of height radius) }
{
    let mut taken = 0;
    for y in 0..height {
        let at = y * width;
        taken += blur::accumulate_rows(sums, planes, height, radius, y);
        let w = blur::weight_sum(height, radius, y);
        composite_row(&mut frame[at..at + width], sums, w, strength);
    }
    width * taken
}

// Returns how many channels were clipped and how many samples were taken. The scratch past three times the frame's words stays.
pub fn apply(
    frame: &mut [u32],
    scratch: &mut [f32],
    width: usize,
    height: usize,
    threshold: u8,
    strength: f32,
    radius: usize,
) -> Counts
    requires fact_1 { Frame width height frame.old }
    requires fact_2 { (radius ≤ 64) × (3 * length frame.old ≤ length scratch.old) }
    ensures { (painted frame.new result.clipped ≡ Bloom.bloom width height threshold strength radius frame.old)
        × (result.samples ≡ bloom_samples width height radius)
        × (drop (3 * length frame.old) scratch.new ≡ drop (3 * length frame.old) scratch.old) }
{
    let n = 3 * frame.len();
    let w = blur::weight_line(width, radius);
    let mut line = blur::line::<1024>();
    let mut sums = blur::line::<3072>();
    let across = horizontal(
        &mut scratch[..n],
        frame,
        &mut line[..width],
        &w[..width],
        width,
        height,
        threshold as f32,
        radius,
    );
    let down = composite_rows(
        frame,
        &scratch[..n],
        &mut sums[..3 * width],
        width,
        height,
        strength,
        radius,
    );
    let clipped = marks::collect(frame);
    Counts {
        clipped,
        samples: (across + down) as u32,
    }
}
