// Program `sheet`: prints a run sheet in words; plays one on a card, with a line for each event, and writes the last picture; or writes the sheet of a file
// of events that program `station` takes. What stands on a sheet and what playing it does is decided by crate `sheets`.
#![tactic(auto)]

ghost use Rattle.std.specs.Prelude.{◌≤◌};

mod memory; // the buffers that are lent
mod files; // files that arguments name
mod says; // why something is refused
mod show; // a sheet in words
mod lines; // what is said of an event that was played
mod picture; // the last picture
mod play; // a sheet played
mod pack; // events of program `station` as those of a sheet
mod record; // a sheet written

use cards::reader;
use cards::station::Station;
use cli::stream::STDERR_FILENO;
use cli::{input, output};

fn usage() {
    io::write_all(
        STDERR_FILENO,
        b"usage: sheet SHEET | sheet [--curve FILE] --play CARD SHEET | sheet --record EVENTS   (a card as a file or in hexadecimal; a curve as 256 binary32; ",
    );
    io::write_all(
        STDERR_FILENO,
        b"sheets and events as files of up to 2097152 bytes; frames up to 61440 pixels, no side above 1024)\n",
    );
}

// Which option argument i is, 0 for none.
const PLAY: u8 = 1;

const CURVE: u8 = 2;

const RECORD: u8 = 3;

fn option(rt: HostRuntime, i: usize) -> u8 {
    let mut name = io::buffer();
    let n = input::given(rt, i, &mut name);
    if check::same(&name[..n], b"--play") {
        return PLAY;
    }
    if check::same(&name[..n], b"--curve") {
        return CURVE;
    }
    if check::same(&name[..n], b"--record") {
        return RECORD;
    }
    0
}

// Prints the sheet that argument 1 names.
fn printed(rt: HostRuntime, file: &mut [u8]) {
    let loaded = files::load(rt, 1, file);
    if !loaded.ok {
        return;
    }
    let n = loaded.length;
    output::told(show::titled(rt, 1, &file[..n]));
}

// Plays the sheet that argument i names, with the curve that argument `named` names; 0 for none.
fn lend(rt: HostRuntime, station: Station, i: usize, named: usize, file: &mut [u8]) {
    if named == 0 {
        let none: [f32; 0] = [];
        play::play(rt, station, i, &none, file);
        return;
    }
    if let Some(curve) = input::curve(rt, named) {
        play::play(rt, station, i, &curve, file);
    }
}

// The card at place `at` among the arguments, and the sheet behind it.
fn played(rt: HostRuntime, at: usize, count: usize, named: usize, file: &mut [u8])
    requires { at ≤ 4 }
{
    if count != at + 2 || input::is_option(rt, at) || input::is_option(rt, at + 1) {
        usage();
        return;
    }
    let mut card = io::buffer();
    let loaded = input::card(rt, at, &mut card);
    if !loaded.ok {
        return;
    }
    let n = loaded.length;
    match reader::open(&card[..n]) {
        Ok(station) => lend(rt, station, at + 1, named, file),
        Err(k) => says::card(rt, at, &card[..n], k.number()),
    }
}

// The one file that is named at place i, the last one.
fn is_last(rt: HostRuntime, i: usize, count: usize) -> bool
    requires { i ≤ 2 }
{
    count == i + 1 && !input::is_option(rt, i)
}

// The options of a playing come before the card, in either order, each once.
fn main(rt: HostRuntime) {
    let count = input::count(rt);
    let mut file = memory::bytes();
    match option(rt, 1) {
        PLAY => {
            if option(rt, 2) == CURVE {
                played(rt, 4, count, 3, &mut file);
            } else {
                played(rt, 2, count, 0, &mut file);
            }
        }
        CURVE => {
            if option(rt, 3) == PLAY {
                played(rt, 4, count, 2, &mut file);
            } else {
                usage();
            }
        }
        RECORD => {
            if is_last(rt, 2, count) {
                record::record(rt, 2, &mut file);
            } else {
                usage();
            }
        }
        _ => {
            if is_last(rt, 1, count) {
                printed(rt, &mut file);
            } else {
                usage();
            }
        }
    }
}
