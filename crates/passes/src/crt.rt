// CRT: a beam three rows high, a phosphor three columns wide, and a fall towards the edge.
ghost use Rattle.std.specs.Prelude.{◌≡◌, ◌<◌, ◌≤◌, length};
ghost use Rattle.num.specs.Rewrite.{every};
ghost use Rattle.passes.specs.Rows.{Frame};
ghost use Rattle.passes.specs.Plain.Crt as Crt;

use crate::pixel;
use crate::pixel::Rgb;

// The beam, by the row modulo three.
fn beam(row: usize, strength: f32) -> f32
    ensures { result ≡ Crt.beam row strength }
{
    match row {
        1 => 1.0,
        _ => 1.0 - 0.12 * strength,
    }
}

// The phosphor, by the column modulo three.
fn phosphor(column: u16, dim: f32, c: Rgb) -> Rgb
    ensures { result ≡ Crt.phosphor column dim c }
{
    match column {
        0 => Rgb {
            r: c.r,
            g: c.g * dim,
            b: c.b * dim,
        },
        1 => Rgb {
            r: c.r * dim,
            g: c.g,
            b: c.b * dim,
        },
        _ => Rgb {
            r: c.r * dim,
            g: c.g * dim,
            b: c.b,
        },
    }
}

// How far k is from the middle of 0..n - 1, times one over that middle, which is taken as at least 1.
fn offset(n: usize, k: usize) -> f32
    requires { (k < n) × (n ≤ 1024) }
    ensures { result ≡ Crt.offset n k }
{
    let c = (n - 1) as u16 as f32 * 0.5;
    (k as u16 as f32 - c) * (1.0 / num::steps::max(c, 1.0))
}

// The fall towards the edge.
fn edge(strength: f32, nx: f32, ny: f32) -> f32
    ensures { result ≡ Crt.edge strength nx ny }
{
    num::steps::clamp(1.0 - strength * 0.12 * (nx * nx + ny * ny), 0.0, 1.0)
}

fn shade(column: u16, dim: f32, factor: f32, p: u32) -> u32
    ensures { result ≡ Crt.shade column dim factor p }
{
    pixel::pack_nearest(pixel::scaled(phosphor(column, dim, pixel::unpack(p)), factor))
}

// One row of the frame. A column is below 1024, and its remainder in 16 bits is quicker than in 64. Out of
// line, so that its code does not hang on what else the chain's long function holds.
#[inline(never)]
fn row(row: &mut [u32], y: usize, width: usize, height: usize, strength: f32)
    requires { (y < height) × (height ≤ 1024) × (width ≤ 1024) × (length row.old ≡ width) }
    ensures { row.new ≡ every (λ x. Crt.word_at width height strength x y) row.old }
{
    let dim = 1.0 - 0.035 * strength;
    let bright = beam(y % 3, strength);
    let ny = offset(height, y);
    for (x, word) in row.iter_mut().enumerate() {
        let factor = bright * edge(strength, offset(width, x), ny);
        *word = shade(x as u16 % 3, dim, factor, *word);
    }
}

#[tactic(auto, using(crate::proofs::RowLoops::row_loop), unfolding(crate::specs::Crt::crt))]
pub fn apply(frame: &mut [u32], width: usize, height: usize, strength: f32)
    requires { Frame width height frame.old }
    ensures { frame.new ≡ Crt.crt width height strength frame.old }
{
    for y in 0..height {
        let at = y * width;
        row(&mut frame[at..at + width], y, width, height, strength);
    }
}
