// A file that holds one frame as binary PPM, under a station: the frame's pixels are replaced by the picture's, and the header stays.
#![tactic(auto)]

ghost use Rattle.std.specs.Prelude.{◌≡◌, ◌*◌, length};
ghost use Rattle.raster.specs.Ppm.{parse_of};
ghost use Rattle.frames.specs.Outcome.{fault_number};
ghost use Rattle.frames.specs.Frames.{Room, Filters, shows_of, filtered_of, number_of, fault_of};
ghost use Rattle.frames.specs.declared.NotTaken.TheVariants as No;

pub mod area; // a rectangle in words
pub mod curve; // the curve that a file holds
pub mod judge; // the totals of rectangles of the frame that a file holds

use cards::station::Station;
use chain::pipeline;
use chain::refusals::stops;
use num::refusal::Refusal;
use passes::blur::Counts;
use raster::ppm::{Frame, NotAFrame};
use raster::{pixels, ppm};

// Why nothing is made of a file.
#[derive(Clone, Copy, Debug, PartialEq, Eq)]
pub enum NotTaken {
    // The file is no frame that can be taken.
    NoFrame(NotAFrame),
    // What was asked of its frame is refused.
    Refused(Refusal),
}

impl From<NotAFrame> for NotTaken {
    ghost from_gives = { λ k e. e ≡ No.NoFrame k };

    fn from(k: NotAFrame) -> NotTaken {
        NotTaken::NoFrame(k)
    }
}

impl From<Refusal> for NotTaken {
    ghost from_gives = { λ k e. e ≡ No.Refused k };

    fn from(k: Refusal) -> NotTaken {
        NotTaken::Refused(k)
    }
}

// A frame: its pixels and its words, just as many as it has. They are written once the station takes it.
#[tactic(auto, using(crate::proofs::Parts::unshown))]
fn show(
    station: &mut Station,
    pixels: &mut [u8],
    width: usize,
    height: usize,
    words: &mut [u32],
    history: &mut [u32],
    floats: &mut [f32],
    ints: &mut [u32],
    curve: &[f32],
) -> Result<Counts, NotTaken>
    requires { Room (height * width) words.old pixels.old }
    ensures { Filters (shows_of width height station.old pixels.old words.old history.old
        (length floats.old) (length ints.old) curve.now)
        result station.new pixels.new words.new history.new floats.old floats.new ints.old ints.new }
{
    stops(
        station,
        width,
        height,
        words.len(),
        history.len(),
        floats.len(),
        ints.len(),
        curve,
    )?;
    pixels::unpack(words, pixels);
    let counts = pipeline::apply(station, words, width, height, history, floats, ints, curve)?;
    pixels::pack(pixels, words);
    Ok(counts)
}

// Why a file is no frame of at most `most` pixels, if it is none. `more` says that the file goes on past these bytes. Where they end
// inside the header or the pixels it is then not cut off: it has more bytes than were read.
pub fn fault(file: &[u8], more: bool, most: usize) -> Option<NotAFrame>
    ensures { fault_number result ≡ fault_of more (number_of (parse_of most file.now)) }
{
    let fault = ppm::parse(file, most).err();
    if !more {
        return fault;
    }
    match fault {
        None => Some(NotAFrame::LeftOver),
        Some(NotAFrame::HeaderCut | NotAFrame::PixelsCut) => Some(NotAFrame::Unread),
        _ => fault,
    }
}

// Filters the frame that the file holds, and counts as the call on it does. A frame may have as many pixels as there are words. Where no picture is shown,
// the station stays, and all that is lent.
#[tactic(auto, using(crate::proofs::Parts::takings, crate::proofs::Parts::no_frame))]
pub fn filter(
    station: &mut Station,
    file: &mut [u8],
    words: &mut [u32],
    history: &mut [u32],
    floats: &mut [f32],
    ints: &mut [u32],
    curve: &[f32],
) -> Result<Counts, NotTaken>
    ensures { Filters (filtered_of station.old file.old words.old history.old
        (length floats.old) (length ints.old) curve.now)
        result station.new file.new words.new history.new floats.old floats.new ints.old ints.new }
{
    let Frame {
        width,
        height,
        start,
    } = ppm::parse(file, words.len())?;
    let count = height * width;
    show(
        station,
        &mut file[start..],
        width,
        height,
        &mut words[..count],
        history,
        floats,
        ints,
        curve,
    )
}
