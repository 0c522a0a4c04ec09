// The totals of rectangles of the frame that a file holds as binary PPM.
ghost use Rattle.std.specs.Prelude.{◌≡◌, ◌*◌};
ghost use Rattle.frames.specs.Frames.{Room};
ghost use Rattle.frames.specs.Judge.{judged, measured_of, in_file};

use super::NotTaken;
use raster::ppm::Frame;
use raster::{pixels, ppm};

// A frame: its pixels and its words, just as many as it has.
fn measure(
    pixels: &[u8],
    width: usize,
    height: usize,
    words: &mut [u32],
    areas: &[u16],
    res: &mut [u64],
) -> Result<u32, NotTaken>
    requires { Room (height * width) words.old pixels.now }
    ensures { (judged result, words.new, res.new) ≡ measured_of width height pixels.now areas.now res.old }
{
    pixels::unpack(words, pixels);
    Ok(areas::totals(words, width, height, areas, res)?)
}

// How many words were read. Three totals for each rectangle, at the front of the result. A frame may have as many pixels as there
// are words; the first of them are the frame's then.
#[tactic(auto, using(crate::proofs::Parts::takings), unfolding(crate::specs::Judge::in_file))]
pub fn totals(
    file: &[u8],
    words: &mut [u32],
    areas: &[u16],
    res: &mut [u64],
) -> Result<u32, NotTaken>
    ensures { (judged result, words.new, res.new) ≡ in_file words.old file.now areas.now res.old }
{
    let Frame {
        width,
        height,
        start,
    } = ppm::parse(file, words.len())?;
    let count = height * width;
    measure(
        &file[start..],
        width,
        height,
        &mut words[..count],
        areas,
        res,
    )
}
