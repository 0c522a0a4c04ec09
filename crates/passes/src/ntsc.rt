// NTSC: the chroma of each row is blurred along it.
ghost use Rattle.std.specs.Prelude.{◌≡◌, ◌*◌, ◌<◌, ◌≤◌, length, slice_index};
ghost use Rattle.passes.specs.Plain.Pixel.{unpack};
ghost use Rattle.num.specs.Rewrite.{fill};
ghost use Rattle.passes.specs.Rows.{Frame, placed};
ghost use Rattle.passes.specs.Plain.Ntsc as Ntsc;
ghost use Rattle.passes.specs.Painted.{painted};
ghost use Rattle.passes.specs.Samples.{samples as samples_of, ntsc_samples};
ghost use Rattle.passes.specs.Private.{at, chroma_by, ntsc_by, mark_clamped, every_clamped};

use crate::blur::Counts;
use crate::pixel::Rgb;
use crate::{blur, marks, pixel};

// The chroma components by number: 0 is U, any other is V.
fn chroma(which: u8, c: Rgb) -> f32
    ensures { result ≡ Ntsc.chroma which c }
{
    match which {
        0 => -0.14713 * c.r - 0.28886 * c.g + 0.436 * c.b,
        _ => 0.615 * c.r - 0.51499 * c.g - 0.10001 * c.b,
    }
}

// One component of a row.
fn chroma_line(out: &mut [f32], row: &[u32], which: u8)
    requires { length out.old ≡ length row.now }
    ensures { out.new ≡ fill (λ i. Ntsc.chroma which (unpack (slice_index row.now i))) out.old }
{
    for (i, sample) in out.iter_mut().enumerate() {
        *sample = chroma(which, pixel::unpack(row[i]));
    }
}

// A word with its blurred chroma.
fn pixel(p: u32, bu: f32, bv: f32, strength: f32) -> u32
    ensures { result ≡ mark_clamped (Ntsc.pixel strength bu bv p) }
{
    let c = pixel::unpack(p);
    let y = pixel::luma601(c);
    let original_u = chroma(0, c);
    let original_v = chroma(1, c);
    let u = original_u + (bu - original_u) * strength;
    let v = original_v + (bv - original_v) * strength;
    marks::clamped(Rgb {
        r: y + 1.13983 * v,
        g: y - 0.39465 * u - 0.58060 * v,
        b: y + 2.03211 * u,
    })
}

// A row with its blurred components.
fn blend_row(row: &mut [u32], u: &[f32], v: &[f32], strength: f32)
    requires { (length u.now ≡ length row.old) × (length v.now ≡ length row.old) }
    ensures { row.new ≡ every_clamped (λ x. Ntsc.pixel strength (at u.now x) (at v.now x)) row.old }
{
    for (x, word) in row.iter_mut().enumerate() {
        *word = pixel(*word, u[x], v[x], strength);
    }
}

// One row. `w` gives each column's sum of weights; the other lines are room for a component, and for both blurred. Returns how many samples
// were taken: both components take the same, and they count once.
fn row(
    row: &mut [u32],
    line: &mut [f32],
    u: &mut [f32],
    v: &mut [f32],
    w: &[f32],
    bleed: usize,
    strength: f32,
) -> usize
    requires { (bleed ≤ 64) × (length line.old ≡ length row.old) × (length u.old ≡ length row.old)
        × (length v.old ≡ length row.old) × (length w.now ≡ length row.old) × (length row.old ≤ 1024) }
    ensures { (row.new ≡ every_clamped (λ x. Ntsc.pixel strength
        (chroma_by (at w.now) 0 row.old bleed x)
        (chroma_by (at w.now) 1 row.old bleed x)) row.old)
        × (result ≡ samples_of (length row.old) bleed) }
{
    chroma_line(line, row, 0);
    let samples = blur::blur_line(u, line, w, bleed);
    chroma_line(line, row, 1);
    blur::blur_line(v, line, w, bleed);
    blend_row(row, u, v, strength);
    samples
}

// Returns how many samples were taken.
fn rows(
    frame: &mut [u32],
    line: &mut [f32],
    u: &mut [f32],
    v: &mut [f32],
    w: &[f32],
    width: usize,
    height: usize,
    bleed: usize,
    strength: f32,
) -> usize
    requires fact_1 { (bleed ≤ 64) × (length line.old ≡ width) × (length u.old ≡ width) × (length v.old ≡ width) × (length w.now ≡ width) }
    requires fact_2 { Frame width height frame.old }
    ensures { (frame.new
        ≡ every_clamped (placed width (ntsc_by (at w.now) width strength bleed frame.old)) frame.old)
        × (result ≡ height * samples_of width bleed) }
{
    let mut samples = 0;
    for y in 0..height {
        let at = y * width;
        samples += row(&mut frame[at..at + width], line, u, v, w, bleed, strength);
    }
    samples
}

// Returns how many channels were clipped and how many samples were taken.
pub fn apply(frame: &mut [u32], width: usize, height: usize, strength: f32, bleed: usize) -> Counts
    requires fact_1 { Frame width height frame.old }
    requires fact_2 { bleed ≤ 64 }
    ensures { (painted frame.new result.clipped ≡ Ntsc.ntsc width strength bleed frame.old)
        × (result.samples ≡ ntsc_samples width height bleed) }
{
    let mut line = blur::line::<1024>();
    let mut u = blur::line::<1024>();
    let mut v = blur::line::<1024>();
    let w = blur::weight_line(width, bleed);
    let samples = rows(
        frame,
        &mut line[..width],
        &mut u[..width],
        &mut v[..width],
        &w[..width],
        width,
        height,
        bleed,
        strength,
    );
    let clipped = marks::collect(frame);
    Counts {
        clipped,
        samples: samples as u32,
    }
}
