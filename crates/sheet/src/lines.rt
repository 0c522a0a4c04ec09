// What is said of an event that was played: a line on standard error, as program `station` writes it on standard output, with A for a switch that was asked
// for and C for one that was committed.
ghost use Rattle.std.specs.Prelude.{◌<◌};

use cards::station::Station;
use chain::pipeline;
use cli::says::text;
use cli::stream::STDERR_FILENO;
use num::refusal::Refusal;
use num::size::Size;
use sheets::event::Event;

// A digit below sixteen, in capitals.
fn digit(d: u32) -> u8
    requires { d < 16 }
{
    if d < 10 { 48 + d as u8 } else { 55 + d as u8 }
}

// A space and the six digits of a pixel.
fn pixel(p: u32) {
    text(&[
        b' ',
        digit(p / 1048576 % 16),
        digit(p / 65536 % 16),
        digit(p / 4096 % 16),
        digit(p / 256 % 16),
        digit(p / 16 % 16),
        digit(p % 16),
    ]);
}

fn pixels(words: &[u32]) {
    for &p in words {
        pixel(p);
    }
}

// A size of picture: no side is above 1,024. Of any other size it is 0 by 0.
fn sized(width: usize, height: usize) -> Size {
    if 1024 < width || 1024 < height {
        return Size::NOTHING;
    }
    Size {
        width: width as u16,
        height: height as u16,
    }
}

// The picture of an accepted frame, at the start of the framebuffer.
fn frame(size: Size, words: &[u32]) {
    text(b"F");
    let count = size.area();
    if count <= words.len() {
        pixels(&words[..count]);
    }
    text(b"\n");
}

// A letter and a number.
fn numbered(letter: &[u8], n: u8) {
    text(letter);
    io::print_decimal(STDERR_FILENO, n as u64);
    text(b"\n");
}

// The preset after a step.
fn step(station: &Station) {
    match pipeline::preset(station) {
        Ok(preset) => numbered(b"L ", preset),
        Err(k) => numbered(b"E ", k.number()),
    }
}

// An event that was accepted, with the station and the framebuffer after it.
fn accepted(e: Event, station: &Station, words: &[u32]) {
    match e {
        Event::Frame { width, height, .. } => frame(sized(width, height), words),
        Event::Reset => text(b"R\n"),
        Event::Switch { .. } => text(b"S\n"),
        Event::Step => step(station),
        Event::Ask { .. } => text(b"A\n"),
        Event::Commit => text(b"C\n"),
    }
}

// An event, after it was made.
pub fn event(e: Event, made: Result<(), Refusal>, station: &Station, words: &[u32]) {
    match made {
        Ok(()) => accepted(e, station, words),
        Err(k) => numbered(b"E ", k.number()),
    }
}

// The size of the last picture after an event: that of a frame, where it was accepted.
pub fn last_size(e: Event, ok: bool, before: Size) -> Size {
    match e {
        Event::Frame { width, height, .. } if ok => sized(width, height),
        _ => before,
    }
}
