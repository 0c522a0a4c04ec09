// A size in words: WIDTHxHEIGHT, two decimal numbers, each from 1 to 1024. Zeros before a number are taken; a number without a digit is 0, which no side is.
ghost use Rattle.std.specs.Prelude.{◌≡◌, ◌≤◌, IfSome};
ghost use Rattle.inspect.specs.Extent.{grow, with_digit, crossed, step_of, unread, read_of, extent_of};
ghost use Rattle.inspect.specs.Private.{present};

use num::size::bad_side;

#[derive(Clone, Copy, Debug, PartialEq, Eq)]
pub struct Extent {
    pub width: usize,
    pub height: usize,
}

// What is read so far, each as far as its digits were read.
#[derive(Clone, Copy)]
enum Reading {
    // The width: no `x` was read.
    Width(usize),
    // The width, and behind the `x` the height.
    Height(usize, usize),
}

// One digit more. A value above 1024 stays, so that no sum overflows; it is still above 1024.
fn grown(v: usize, d: u8) -> usize
    requires { (v ≤ 10249) × (d ≤ 9) }
    ensures { (result ≡ grow v d) × (result ≤ 10249) }
{
    if 1024 < v { v } else { v * 10 + d as usize }
}

impl Reading {
    fn with_digit(self, d: u8) -> Reading
        requires { (present self ≤ 10249) × (d ≤ 9) }
        ensures { (result ≡ with_digit self d) × (present result ≤ 10249) }
    {
        match self {
            Reading::Width(width) => Reading::Width(grown(width, d)),
            Reading::Height(width, height) => Reading::Height(width, grown(height, d)),
        }
    }

    // The `x`; there is one.
    fn crossed(self) -> Option<Reading>
        ensures { (result ≡ crossed self) × IfSome result (λ r. present r ≤ 10249) }
    {
        match self {
            Reading::Width(width) => Some(Reading::Height(width, 0)),
            Reading::Height(..) => None,
        }
    }
}

// One byte more; none for what stands in no size.
fn step(r: Reading, b: u8) -> Option<Reading>
    requires { present r ≤ 10249 }
    ensures { (result ≡ step_of r b) × IfSome result (λ s. present s ≤ 10249) }
{
    match b {
        b'0'..=b'9' => Some(r.with_digit(b - b'0')),
        b'x' => r.crossed(),
        _ => None,
    }
}

fn read(text: &[u8]) -> Option<Reading>
    ensures { result ≡ read_of (Some unread) text.now }
{
    let mut r = Reading::Width(0);
    for b in text {
        r = step(r, *b)?;
    }
    Some(r)
}

// The size that the words are, if they are one.
pub fn parse(text: &[u8]) -> Option<Extent>
    ensures { result ≡ extent_of text.now }
{
    let Reading::Height(width, height) = read(text)? else {
        return None;
    };
    if bad_side(width) || bad_side(height) {
        return None;
    }
    Some(Extent { width, height })
}
