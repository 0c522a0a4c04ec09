// The areas that the arguments give.
ghost use Rattle.std.specs.Prelude.{◌≡◌, ◌+◌, ◌<◌, ◌≤◌, length, IfSome};

use cli::stream::STDERR_FILENO;
use cli::{input, says};
use frames::area;
use frames::area::{Named, NotAnArea};

// Four numbers for each of 64 areas.
pub fn room() -> [u16; 256]
    ensures { 256 ≡ length result }
{
    [0; 256]
}

// Whether argument i is meant for an area.
pub fn is_area(rt: HostRuntime, i: usize) -> bool {
    let mut text = io::buffer();
    let n = input::given(rt, i, &mut text);
    area::begins(&text[..n])
}

// The area that argument i gives.
fn named(rt: HostRuntime, i: usize) -> Result<Named, NotAnArea> {
    let mut text = io::buffer();
    let loaded = input::argument(rt, i, &mut text);
    let n = loaded.length;
    area::parse(&text[..n])
}

// Words that do not even begin as an area are meant for a picture.
fn not_four(rt: HostRuntime, i: usize) {
    says::text(b"no area: it is LEFT,TOP,WIDTH,HEIGHT, four numbers");
    if !is_area(rt, i) {
        says::text(b" (a second picture stands before the areas)");
    }
    says::text(b"\n");
}

fn not_named(rt: HostRuntime, i: usize, why: NotAnArea) {
    says::name(rt, STDERR_FILENO, i);
    match why {
        NotAnArea::NotFour => not_four(rt, i),
        NotAnArea::TooLarge => says::text(b"no area: a number is above 65535\n"),
    }
}

// The area that argument i gives, as four numbers from place n on. Whether it gives one; else it is said why not.
fn take(rt: HostRuntime, i: usize, n: usize, out: &mut [u16]) -> bool
    requires { n + 3 < length out.old }
{
    match named(rt, i) {
        Ok(area) => {
            out[n] = area.left;
            out[n + 1] = area.top;
            out[n + 2] = area.width;
            out[n + 3] = area.height;
            true
        }
        Err(why) => {
            not_named(rt, i, why);
            false
        }
    }
}

// The arguments from `first` on, as areas: how many numbers they have, if all of them could be taken.
pub fn areas(rt: HostRuntime, first: usize, count: usize, out: &mut [u16]) -> Option<usize>
    requires { 256 ≡ length out.old }
    ensures { IfSome result (λ n. n ≤ length out.new) }
{
    let mut n: usize = 0;
    for i in first..count {
        if 252 < n {
            says::text(b"too many areas: at most 64\n");
            return None;
        }
        if !take(rt, i, n, out) {
            return None;
        }
        n += 4;
    }
    Some(n)
}
