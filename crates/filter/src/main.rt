// Program `filter`: runs frames through a card and writes the pictures. Each argument after the card names a file with one frame as binary PPM. The frames go
// through one station one after another, so persistence sees them in a row. The pictures are written to standard output one after another, each the file of
// its frame with other pixels. Every file is looked at before anything is written. With the option --counts it is said on standard error of each picture
// how many channels were clipped and how many samples were taken. The option --curve names a file with the curve that is lent to each frame; without it
// none is lent. What becomes of a file is decided by crate `frames`.
#![tactic(auto)]

ghost use Rattle.std.specs.Prelude.{◌≤◌};

mod memory; // the buffers that are lent
mod files; // frames read, looked at and shown
mod says; // why something is refused

use cards::reader;
use cards::station::Station;
use cli::input;
use cli::stream::STDERR_FILENO;

fn usage() {
    io::write_all(
        STDERR_FILENO,
        b"usage: filter [--counts] [--curve FILE] CARD FRAME..   (a card as a file or in hexadecimal; ",
    );
    io::write_all(
        STDERR_FILENO,
        b"frames as binary PPM, up to 61440 pixels, no side above 1024; a curve as 256 binary32)\n",
    );
}

// Whether every argument from the first frame on names a frame that can be taken.
fn all_taken(rt: HostRuntime, first: usize, count: usize, file: &mut [u8]) -> bool {
    for i in first..count {
        if files::taken(rt, i, file).is_none() {
            return false;
        }
    }
    true
}

// Shows the frames in a row, as long as they can be read and written.
fn show_all(
    rt: HostRuntime,
    station: &mut Station,
    first: usize,
    count: usize,
    tell: bool,
    curve: &[f32],
    file: &mut [u8],
) {
    let mut words = cli::memory::words();
    let mut history = memory::history();
    let mut floats = memory::floats();
    let mut ints = memory::ints();
    for i in first..count {
        let written = files::play(
            rt,
            station,
            i,
            tell,
            file,
            &mut words,
            &mut history,
            &mut floats,
            &mut ints,
            curve,
        );
        if !written {
            return;
        }
    }
}

// A single frame, in these bytes.
fn show_one(
    rt: HostRuntime,
    station: &mut Station,
    first: usize,
    tell: bool,
    curve: &[f32],
    file: &mut [u8],
) {
    let mut words = cli::memory::words();
    let mut history = memory::history();
    let mut floats = memory::floats();
    let mut ints = memory::ints();
    files::show(
        rt,
        station,
        first,
        tell,
        file,
        &mut words,
        &mut history,
        &mut floats,
        &mut ints,
        curve,
    );
}

// A single frame is read once, so it may come from a pipe. Several are read twice: all are looked at before the first picture is written.
fn run(
    rt: HostRuntime,
    station: &mut Station,
    first: usize,
    count: usize,
    tell: bool,
    curve: &[f32],
)
    requires { first ≤ 5 }
{
    let mut file = cli::memory::file();
    if count == first + 1 {
        if let Some(n) = files::taken(rt, first, &mut file) {
            show_one(rt, station, first, tell, curve, &mut file[..n]);
        }
        return;
    }
    if all_taken(rt, first, count, &mut file) {
        show_all(rt, station, first, count, tell, curve, &mut file);
    }
}

// With the curve that argument `named` names, if one does.
fn lend(
    rt: HostRuntime,
    station: &mut Station,
    first: usize,
    count: usize,
    tell: bool,
    named: Option<usize>,
)
    requires { first ≤ 5 }
{
    let Some(i) = named else {
        run(rt, station, first, count, tell, &[]);
        return;
    };
    if let Some(curve) = input::curve(rt, i) {
        run(rt, station, first, count, tell, &curve);
    }
}

// The card at place `at` among the arguments, and the frames behind it.
fn play(rt: HostRuntime, at: usize, count: usize, tell: bool, named: Option<usize>)
    requires { at ≤ 4 }
{
    if count < at + 2 || input::is_option(rt, at) {
        usage();
        return;
    }
    let mut card = io::buffer();
    let loaded = input::card(rt, at, &mut card);
    if !loaded.ok {
        return;
    }
    let n = loaded.length;
    match reader::open(&card[..n]) {
        Ok(mut station) => lend(rt, &mut station, at + 1, count, tell, named),
        Err(why) => says::card(rt, at, &card[..n], why),
    }
}

#[derive(Clone, Copy, Debug, PartialEq, Eq)]
enum Choice {
    Counts,
    Curve,
}

// Which option argument i is.
fn option(rt: HostRuntime, i: usize) -> Option<Choice> {
    let mut name = io::buffer();
    let n = input::given(rt, i, &mut name);
    if check::same(&name[..n], b"--counts") {
        return Some(Choice::Counts);
    }
    if check::same(&name[..n], b"--curve") {
        return Some(Choice::Curve);
    }
    None
}

// The options come before the card, in either order, each once.
fn main(rt: HostRuntime) {
    let count = input::count(rt);
    match option(rt, 1) {
        Some(Choice::Counts) => {
            if option(rt, 2) == Some(Choice::Curve) {
                play(rt, 4, count, true, Some(3));
            } else {
                play(rt, 2, count, true, None);
            }
        }
        Some(Choice::Curve) => {
            if option(rt, 3) == Some(Choice::Counts) {
                play(rt, 4, count, true, Some(2));
            } else {
                play(rt, 3, count, false, Some(2));
            }
        }
        None => play(rt, 1, count, false, None),
    }
}
