// Clipped channels: the final conversions, each with the number of channels that it clips, and their sum over a frame. A word has
// 24 bits, so that the number finds room above it until the loops of the pass are done, and these have no sum to carry along.
ghost use Rattle.std.specs.Prelude.{◌≡◌, ◌+◌, ◌*◌, ◌<◌, ◌≤◌, length};
ghost use Rattle.passes.specs.Plain.Pixel as Pixel;
ghost use Rattle.passes.specs.Private.{mark_clamped, mark_unit, unmarked};
ghost use Rattle.passes.specs.Painted.{painted};

use crate::pixel;
use crate::pixel::Rgb;

// 1 where a channel lies outside 0..top, and so is clipped, else 0. A NaN lies nowhere. No early return, so that a loop over it
// becomes vector code.
pub fn clip(x: f32, top: f32) -> u32
    ensures { (result ≡ Pixel.clip top x) × (result ≤ 1) }
{
    if x < 0.0 {
        1
    } else if top < x {
        1
    } else {
        0
    }
}

// A word, marked with the number of the channels of c that lie outside 0..top.
fn marked(word: u32, c: Rgb, top: f32) -> u32
    requires { word < 16777216 }
    ensures { result ≡ word + Pixel.clips top c * 16777216 }
{
    word + (clip(c.r, top) + clip(c.g, top) + clip(c.b, top)) * 16777216
}

// `pack_clamped`, marked.
pub fn clamped(c: Rgb) -> u32
    ensures { result ≡ mark_clamped c }
{
    marked(pixel::pack_clamped(c), c, 255.0)
}

// `pack_unit`, marked.
pub fn unit(c: Rgb) -> u32
    ensures { result ≡ mark_unit c }
{
    marked(pixel::pack_unit(c), c, 1.0)
}

// Clears the marks of a frame, and returns their sum: at most 255 for each word, which 32 bits hold. Out of line,
// so that its code does not hang on what else the chain's long function holds.
#[inline(never)]
pub fn collect(frame: &mut [u32]) -> u32
    requires { length frame.old ≤ 1048576 }
    ensures { painted frame.new result ≡ unmarked frame.old }
{
    let mut clipped = 0;
    for word in frame.iter_mut() {
        clipped += *word / 16777216;
        *word %= 16777216;
    }
    clipped
}
