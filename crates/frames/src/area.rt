// A rectangle in words: LEFT,TOP,WIDTH,HEIGHT, four decimal numbers of at most 65535.
ghost use Rattle.std.specs.Prelude.{◌≡◌, ◌≤◌};
ghost use Rattle.frames.specs.Area.{grow, with_digit, next_number, step_of, unread, read_of, is_large, named, named_of, begins_of};

use raster::ppm::is_digit;

// Why the words are no rectangle.
#[derive(Clone, Copy, Debug, PartialEq, Eq)]
pub enum NotAnArea {
    NotFour, // not four numbers with a comma between two
    TooLarge, // a number above 65535
}

#[derive(Clone, Copy)]
pub struct Named {
    pub left: u16,
    pub top: u16,
    pub width: u16,
    pub height: u16,
}

// What was read: the number that stands now, the three before it, how many commas there were, and whether that number has a
// digit. Four commas stand for anything that no rectangle has.
#[derive(Clone, Copy)]
struct Reading {
    first: u32,
    second: u32,
    third: u32,
    value: u32,
    commas: u8,
    digit: bool,
}

// One digit more. A value above 65535 stays, so that no sum overflows; it is still above 65535.
fn grown(v: u32, d: u8) -> u32
    requires { d ≤ 9 }
    ensures { result ≡ grow v d }
{
    if 65535 < v { v } else { v * 10 + d as u32 }
}

fn digit_read(r: Reading, d: u8) -> Reading
    requires { d ≤ 9 }
    ensures { result ≡ with_digit r d }
{
    Reading {
        value: grown(r.value, d),
        digit: true,
        ..r
    }
}

// After a comma.
fn comma_read(r: Reading) -> Reading
    requires { r.commas ≤ 2 }
    ensures { result ≡ next_number r }
{
    Reading {
        first: r.second,
        second: r.third,
        third: r.value,
        value: 0,
        commas: r.commas + 1,
        digit: false,
    }
}

// One byte more.
#[tactic(auto, unfolding(crate::specs::Area::step_of))]
fn step(r: Reading, b: u8) -> Reading
    ensures { result ≡ step_of r b }
{
    if is_digit(b) {
        digit_read(r, b - b'0')
    } else if b == b',' && r.digit && r.commas < 3 {
        comma_read(r)
    } else {
        Reading { commas: 4, ..r }
    }
}

fn read(text: &[u8]) -> Reading
    ensures { result ≡ read_of unread text.now }
{
    let mut r = Reading {
        first: 0,
        second: 0,
        third: 0,
        value: 0,
        commas: 0,
        digit: false,
    };
    for b in text {
        r = step(r, *b);
    }
    r
}

#[tactic(auto, unfolding(crate::specs::Area::is_large))]
fn is_large(r: Reading) -> bool
    ensures { result ≡ is_large r }
{
    65535 < r.first || 65535 < r.second || 65535 < r.third || 65535 < r.value
}

// The rectangle that the words name.
#[tactic(auto, unfolding(crate::specs::Area::named_of, crate::specs::Area::named_by))]
pub fn parse(text: &[u8]) -> Result<Named, NotAnArea>
    ensures { named result ≡ named_of text.now }
{
    let r = read(text);
    if r.commas != 3 || !r.digit {
        return Err(NotAnArea::NotFour);
    }
    if is_large(r) {
        return Err(NotAnArea::TooLarge);
    }
    Ok(Named {
        left: r.first as u16,
        top: r.second as u16,
        width: r.third as u16,
        height: r.value as u16,
    })
}

// Whether the words are meant for a rectangle and not for a file: they begin with a digit.
#[tactic(auto, unfolding(crate::specs::Area::begins_of))]
pub fn begins(text: &[u8]) -> bool
    ensures { result ≡ begins_of text.now }
{
    !text.is_empty() && is_digit(text[0])
}
