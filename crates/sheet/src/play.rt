// A sheet played on a station, event by event: a line for each, and at the end the last picture.
ghost use Rattle.std.specs.Prelude.{◌<◌, ◌≤◌};
ghost use Rattle.sheets.specs.Promises.{Within};

use crate::{files, lines, memory, picture, says};
use cards::fields::Cursor;
use cards::station::Station;
use cli::output::told;
use cli::says::text;
use cli::stream::STDERR_FILENO;
use num::refusal::Refusal;
use num::size::Size;
use sheets::event::{Event, is_whole, read};
use sheets::play::make;

// One event, made and told.
fn turn(
    station: &mut Station,
    sheet: &[u8],
    event: Event,
    words: &mut [u32; 61440],
    history: &mut [u32; 491520],
    floats: &mut [f32; 187392],
    ints: &mut [u32; 61440],
    curve: &[f32],
) -> Result<(), Refusal>
    requires { Within sheet.now event }
{
    let made = make(station, sheet, event, words, history, floats, ints, curve);
    lines::event(event, made, station, words);
    made
}

// How many events were accepted, and the size of the last picture, with both sides 0 for none.
#[derive(Clone, Copy)]
struct Played {
    accepted: u32,
    size: Size,
}

// Plays the n events of a sheet that is whole.
fn all(
    station: &mut Station,
    sheet: &[u8],
    n: u32,
    words: &mut [u32; 61440],
    history: &mut [u32; 491520],
    floats: &mut [f32; 187392],
    ints: &mut [u32; 61440],
    curve: &[f32],
) -> Played
    requires { n < 65536 }
    ensures { result.accepted ≤ n }
{
    let mut accepted: u32 = 0;
    let mut size = Size::NOTHING;
    let mut cursor = Cursor {
        bytes: sheet,
        at: 16,
    };
    for _ in 0..n {
        let Some(event) = read(&mut cursor) else {
            return Played { accepted, size };
        };
        let made = turn(station, sheet, event, words, history, floats, ints, curve);
        if made.is_ok() {
            accepted += 1;
        }
        size = lines::last_size(event, made.is_ok(), size);
    }
    Played { accepted, size }
}

// The last line.
fn tally(accepted: u32, refused: u32) {
    text(b"accepted ");
    io::print_decimal(STDERR_FILENO, accepted as u64);
    text(b", refused ");
    io::print_decimal(STDERR_FILENO, refused as u64);
    text(b"\n");
}

// Plays a sheet that is whole, writes the last picture, and tells how many events were accepted; where it cannot be written, that is said in their place.
fn run(rt: HostRuntime, mut station: Station, sheet: &[u8], curve: &[f32]) {
    let mut words = cli::memory::words();
    let mut history = memory::history();
    let mut floats = memory::floats();
    let mut ints = memory::ints();
    let n = files::count(sheet);
    let played = all(
        &mut station,
        sheet,
        n,
        &mut words,
        &mut history,
        &mut floats,
        &mut ints,
        curve,
    );
    let accepted = played.accepted;
    let size = played.size;
    let written = picture::write(rt, size, &words);
    if written.is_ok() {
        tally(accepted, n - accepted);
    } else {
        told(written);
    }
}

// The sheet that argument i names.
pub fn play(rt: HostRuntime, station: Station, i: usize, curve: &[f32], file: &mut [u8]) {
    let loaded = files::load(rt, i, file);
    if !loaded.ok {
        return;
    }
    let n = loaded.length;
    if is_whole(&file[..n]) {
        run(rt, station, &file[..n], curve);
    } else {
        says::sheet(rt, i);
    }
}
