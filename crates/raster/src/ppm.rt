// A whole file that should be one frame as binary PPM (netpbm's P6), read: its size and where its pixels start, or why it is refused.
ghost use Rattle.std.specs.Prelude.{◌≡◌, ◌≤◌, length, false};
ghost use Rattle.raster.specs.Ppm.{is_white, ends_line, is_digit, in_gap, in_comment, grow, value_of, gap_of, digits_of, number_in, is_p6};
ghost use Rattle.raster.specs.Ppm.{header_in, parsed, parse_of, number_of};
ghost use Rattle.raster.specs.Private.{number_step, header_step};

// Why bytes are no frame, each reason with its number (specs/Ppm.antt).
#[derive(Clone, Copy, Debug, PartialEq, Eq)]
pub enum NotAFrame {
    Empty = 1, // no byte at all
    OtherFormat, // not binary PPM: it does not begin with `P6`
    HeaderCut, // the bytes end inside the header
    BadHeader, // no gap where one must be, or no digit, or no white byte after the maximum
    OtherMaximum, // the maximum is not 255
    EmptyPicture, // a side of 0
    TooLarge, // a side above 1024, or more pixels than are taken
    PixelsCut, // fewer bytes than the pixels have
    LeftOver, // and more
    Unread, // more bytes than were read, of a file that is read up to a limit: `parse` never gives it
}

impl NotAFrame {
    pub fn number(self) -> u8
        ensures { result ≡ number_of self }
    {
        self as u8
    }
}

// A frame's size, and where its pixels start.
#[derive(Clone, Copy)]
pub struct Frame {
    pub width: usize,
    pub height: usize,
    pub start: usize,
}

fn is_white(b: u8) -> bool
    ensures { result ≡ is_white b }
{
    b == b' ' || (9..=13).contains(&b)
}

fn ends_line(b: u8) -> bool
    ensures { result ≡ ends_line b }
{
    b == b'\n' || b == b'\r'
}

pub fn is_digit(b: u8) -> bool
    ensures { result ≡ is_digit b }
{
    b.is_ascii_digit()
}

// Whether a byte is part of a gap. `comment`: it stands inside a comment.
fn in_gap(comment: bool, b: u8) -> bool
    ensures { result ≡ in_gap comment b }
{
    comment || is_white(b) || b == b'#'
}

// Whether the byte after that one of a gap stands inside a comment.
fn in_comment(comment: bool, b: u8) -> bool
    ensures { result ≡ in_comment comment b }
{
    if comment { !ends_line(b) } else { b == b'#' }
}

// How many bytes of a gap stand at the front.
#[tactic(auto, using(crate::proofs::Counting::gap_more, crate::proofs::Counting::gap_stops, crate::proofs::Counting::gap_ends))]
fn gap(bytes: &[u8]) -> usize
    ensures { (result ≡ gap_of false bytes.now) × (result ≤ length bytes.now) }
{
    let mut comment = false;
    for (i, b) in bytes.iter().enumerate() {
        if !in_gap(comment, *b) {
            return i;
        }
        comment = in_comment(comment, *b);
    }
    bytes.len()
}

// One digit more. A value above 9999 stays, so that no sum overflows; it is still above 9999, and so no side and no maximum that is taken.
fn grown(v: usize, d: u8) -> usize
    requires { d ≤ 9 }
    ensures { result ≡ grow v d }
{
    if 9999 < v { v } else { v * 10 + d as usize }
}

// A number, and where its digits end.
#[derive(Clone, Copy)]
pub struct NumberRead {
    value: usize,
    end: usize,
}

// The digits at the front.
#[tactic(auto, using(crate::proofs::Counting::digits_stop, crate::proofs::Counting::digits_ended))]
fn digits(bytes: &[u8]) -> NumberRead
    ensures { (result.value ≡ value_of 0 bytes.now) × (result.end ≡ digits_of bytes.now) × (result.end ≤ length bytes.now) }
{
    let mut value: usize = 0;
    for (end, b) in bytes.iter().enumerate() {
        if !is_digit(*b) {
            return NumberRead { value, end };
        }
        value = grown(value, *b - b'0');
    }
    NumberRead {
        value,
        end: bytes.len(),
    }
}

// A gap, then a number. The bytes go on after each of them.
#[tactic(auto, using(std::proofs::lemmas::List::take_rest), unfolding(crate::specs::Ppm::number_in, crate::specs::Ppm::gap_in, crate::specs::Ppm::digits_in))]
fn number(bytes: &[u8], at: usize) -> Result<NumberRead, NotAFrame>
    requires { at ≤ length bytes.now }
    ensures { number_step result ≡ number_in bytes.now at }
{
    let start = at + gap(&bytes[at..]);
    if bytes.len() <= start {
        return Err(NotAFrame::HeaderCut);
    }
    if start == at {
        return Err(NotAFrame::BadHeader);
    }
    let NumberRead { value, end } = digits(&bytes[start..]);
    let end = start + end;
    if bytes.len() <= end {
        return Err(NotAFrame::HeaderCut);
    }
    if end == start {
        return Err(NotAFrame::BadHeader);
    }
    Ok(NumberRead { value, end })
}

fn is_p6(bytes: &[u8]) -> bool
    ensures { result ≡ is_p6 bytes.now }
{
    bytes.len() >= 2 && bytes[0] == b'P' && bytes[1] == b'6'
}

// The header, up to the first pixel; the size is not looked at.
#[tactic(auto, using(crate::proofs::Taken::number_inside), unfolding(crate::specs::Ppm::header_in, crate::specs::Step::refuse_if))]
fn header(bytes: &[u8]) -> Result<Frame, NotAFrame>
    ensures { header_step result ≡ header_in bytes.now 0 }
{
    if bytes.is_empty() {
        return Err(NotAFrame::Empty);
    }
    if !is_p6(bytes) {
        return Err(NotAFrame::OtherFormat);
    }
    let width = number(bytes, 2)?;
    let height = number(bytes, width.end)?;
    let maximum = number(bytes, height.end)?;
    if !is_white(bytes[maximum.end]) {
        return Err(NotAFrame::BadHeader);
    }
    if maximum.value != 255 {
        return Err(NotAFrame::OtherMaximum);
    }
    Ok(Frame {
        width: width.value,
        height: height.value,
        start: maximum.end + 1,
    })
}

// A frame of at most `most` pixels, or why the bytes are not one.
#[tactic(auto, unfolding(crate::specs::Ppm::frame_in, crate::specs::Ppm::parse_of, crate::specs::Step::refuse_if))]
pub fn parse(bytes: &[u8], most: usize) -> Result<Frame, NotAFrame>
    ensures { parsed result ≡ parse_of most bytes.now }
{
    let frame = header(bytes)?;
    let Frame {
        width,
        height,
        start,
    } = frame;
    if width == 0 || height == 0 {
        return Err(NotAFrame::EmptyPicture);
    }
    if 1024 < width || 1024 < height || most < height * width {
        return Err(NotAFrame::TooLarge);
    }
    let end = start + 3 * (height * width);
    if bytes.len() < end {
        return Err(NotAFrame::PixelsCut);
    }
    if end < bytes.len() {
        return Err(NotAFrame::LeftOver);
    }
    Ok(frame)
}
