// The totals of a picture.
ghost use Rattle.std.specs.Prelude.{◌≡◌, ◌≤◌, length};

use cli::stream::STDERR_FILENO;
use cli::{input, says, words};
use frames::{NotTaken, judge};
use raster::ppm::NotAFrame;

// Three totals for each of 64 areas.
pub fn room() -> [u64; 192]
    ensures { 192 ≡ length result }
{
    [0; 192]
}

// Whether the one area is refused.
fn leaves(file: &[u8], words: &mut [u32], area: &[u16]) -> bool {
    let mut totals = room();
    let judged = judge::totals(file, words, area, &mut totals);
    matches!(judged, Err(NotTaken::Refused(_)))
}

// Says behind argument k, an area, that it leaves the picture that argument i names.
fn bad_area(rt: HostRuntime, i: usize, k: usize) {
    says::name(rt, STDERR_FILENO, k);
    says::text(b"bad area: it leaves the picture ");
    says::argument(rt, STDERR_FILENO, i);
    says::text(b"\n");
}

// Which of the areas leaves the picture that argument i names: the first that is refused by itself.
fn outside(rt: HostRuntime, i: usize, first: usize, file: &[u8], words: &mut [u32], areas: &[u16])
    requires { first ≤ 3 }
{
    for k in 0..areas.len() / 4 {
        if leaves(file, words, &areas[4 * k..4 * k + 4]) {
            bad_area(rt, i, first + k);
            return;
        }
    }
}

// A file that is no frame.
fn no_frame(rt: HostRuntime, i: usize, why: NotAFrame) {
    says::name(rt, STDERR_FILENO, i);
    words::no_frame(STDERR_FILENO, why.number());
}

// The totals of the picture that argument i names, and how many words were read; or a line that says why there are none.
pub fn totals(
    rt: HostRuntime,
    i: usize,
    first: usize,
    file: &mut [u8],
    words: &mut [u32],
    areas: &[u16],
    res: &mut [u64],
) -> Option<u32>
    requires { first ≤ 3 }
{
    let loaded = input::named(rt, i, file);
    if !loaded.ok {
        return None;
    }
    let n = loaded.length;
    if let Some(why) = frames::fault(&file[..n], loaded.more, 61440) {
        no_frame(rt, i, why);
        return None;
    }
    match judge::totals(&file[..n], words, areas, res) {
        Ok(read) => Some(read),
        Err(NotTaken::NoFrame(why)) => {
            no_frame(rt, i, why);
            None
        }
        Err(NotTaken::Refused(_)) => {
            outside(rt, i, first, &file[..n], words, areas);
            None
        }
    }
}
