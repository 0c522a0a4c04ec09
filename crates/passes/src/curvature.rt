// Curvature: each word is read from a copy of the frame, at a place bent outwards. The copy is kept in lent scratch. As it has
// the frame's words, a row of the frame first gets its places, in a loop that becomes vector code, and then the words there.
ghost use Rattle.std.specs.Prelude.{◌≡◌, ◌<◌, ◌≤◌, length, drop, slice_index};
ghost use Rattle.num.specs.Index.{index_of};
ghost use Rattle.num.specs.Rewrite.{every};
ghost use Rattle.passes.specs.Rows.{Frame};
ghost use Rattle.passes.specs.Plain.Curvature as Curvature;

use crate::rows;

fn outside(s: f32) -> bool
    ensures { result ≡ Curvature.outside s }
{
    s < -1.0 || s > 1.0
}

// The place among 0..n - 1 that is nearest to s in -1..1.
fn index(n: usize, s: f32) -> u32
    requires { (0 < n) × (n ≤ 1024) }
    ensures { (result ≡ index_of n s) × (result ≤ 1023) }
{
    num::whole::nearest((s + 1.0) * 0.5 * (n - 1) as u16 as f32)
}

// Where in the copy the word for (sx, sy) stands, or past its end if that is outside. Outside too the place is worked out, since
// a branch around a step would keep the loop over it from becoming vector code.
fn place(copy: &[u32], width: usize, height: usize, sx: f32, sy: f32) -> u32
    requires { (0 < width) × (0 < height) × Frame width height copy.now }
    ensures { slice_index copy.now result ≡ Curvature.sample width height copy.now sx sy }
{
    let past = copy.len() as u32;
    let at = index(height, sy) * width as u32 + index(width, sx);
    if outside(sx) {
        past
    } else if outside(sy) {
        past
    } else {
        at
    }
}

fn bend(copy: &[u32], width: usize, height: usize, amount: f32, nx: f32, ny: f32) -> u32
    requires { (0 < width) × (0 < height) × Frame width height copy.now }
    ensures { slice_index copy.now result ≡ Curvature.bend width height amount copy.now nx ny }
{
    let r2 = nx * nx + ny * ny;
    let distortion = 1.0 + amount * r2;
    place(copy, width, height, nx * distortion, ny * distortion)
}

// The words at these places are those of row y. Out of line, so that its code does not hang on what else the chain's long function holds.
#[inline(never)]
fn places(line: &mut [u32], copy: &[u32], y: usize, width: usize, height: usize, amount: f32)
    requires { (y < height) × (length line.old ≡ width) × Frame width height copy.now }
    ensures { every (λ x p. slice_index copy.now p) line.new
        ≡ every (λ x. Curvature.word_at width height amount copy.now x y) line.old }
{
    let ny = rows::position(height, y);
    for (x, place) in line.iter_mut().enumerate() {
        *place = bend(copy, width, height, amount, rows::position(width, x), ny);
    }
}

// The copy's word at a place, or 0 past the copy.
fn word(copy: &[u32], place: u32) -> u32
    ensures { result ≡ slice_index copy.now place }
{
    let at = place as usize;
    if at < copy.len() { copy[at] } else { 0 }
}

// Places become the words there, out of line for the same reason.
#[inline(never)]
fn words(line: &mut [u32], copy: &[u32])
    ensures { line.new ≡ every (λ x p. slice_index copy.now p) line.old }
{
    for place in line.iter_mut() {
        *place = word(copy, *place);
    }
}

fn row(row: &mut [u32], copy: &[u32], y: usize, width: usize, height: usize, amount: f32)
    requires { (y < height) × (length row.old ≡ width) × Frame width height copy.now }
    ensures { row.new ≡ every (λ x. Curvature.word_at width height amount copy.now x y) row.old }
{
    places(row, copy, y, width, height, amount);
    words(row, copy);
}

#[tactic(auto, using(crate::proofs::RowLoops::row_loop))]
fn rows(frame: &mut [u32], copy: &[u32], width: usize, height: usize, amount: f32)
    requires { Frame width height frame.old × Frame width height copy.now }
    ensures { frame.new ≡ Curvature.bent width height amount copy.now frame.old }
{
    for y in 0..height {
        let at = y * width;
        row(&mut frame[at..at + width], copy, y, width, height, amount);
    }
}

// The scratch past the frame's words stays.
pub fn apply(frame: &mut [u32], scratch: &mut [u32], width: usize, height: usize, amount: f32)
    requires fact_1 { Frame width height frame.old }
    requires fact_2 { length frame.old ≤ length scratch.old }
    ensures { (frame.new ≡ Curvature.curvature width height amount frame.old)
        × (drop (length frame.old) scratch.new ≡ drop (length frame.old) scratch.old) }
{
    let n = frame.len();
    rows::copy(&mut scratch[..n], frame);
    rows(frame, &scratch[..n], width, height, amount);
}
