// The events of program `station`, written as a sheet. An event that has no place there has a fault.
ghost use Rattle.std.specs.Prelude.{◌≡◌, ◌+◌, ◌*◌, ◌^◌, ◌<◌, ◌≤◌, length};
ghost use Rattle.io.specs.Counts.{IsPrefixLen};
ghost use Rattle.events.specs.Events.{letter_in, outside as outsideOf};
ghost use Rattle.events.specs.Text.{F, L, R, S};
ghost use Rattle.sheet.specs.Recorded.{Near, Puts, Packs};

use raster::pixels::at;
use sheets::write;

// Faults.
pub const CUT: u8 = 1; // the file ends inside the event

pub const LETTER: u8 = 2; // it begins with another letter than F, R, S or L

pub const SIZE: u8 = 3; // a side of a frame is not from 1 to 32

pub const KIND: u8 = 4; // the kind of a switch is above 15: a sheet has four bits for it

pub const POSITION: u8 = 5; // the position of a switch is neither 0 nor 1

pub const ROOM: u8 = 6; // the sheet has no room for it

pub const COUNT: u8 = 7; // 65,535 events stand before it

// What became of an event: its fault, 0 for none; how many bytes it has, and where the next one begins on the sheet.
#[derive(Clone, Copy)]
pub struct Put {
    pub fault: u8,
    pub bytes: usize,
    pub next: usize,
}

fn not_put(fault: u8, p: usize) -> Put
    ensures { (result.fault ≡ fault) × (result.bytes ≡ 0) × (result.next ≡ p) }
{
    Put {
        fault,
        bytes: 0,
        next: p,
    }
}

// Whether no frame has a side of that length.
fn outside(side: usize) -> bool
    ensures { result ≡ outsideOf side }
{
    if side == 0 {
        return true;
    }
    32 < side
}

// A frame: two sides, and three bytes for each pixel.
fn frame(events: &[u8], sheet: &mut [u8], p: usize) -> Put
    requires { (0 < length events.now) × (letter_in events.now ≡ F) × (p < 2 ^ 40) }
    ensures { Near events.now p result × (result.fault ≡ 0 → Puts events.now p result sheet.old sheet.new) }
{
    if events.len() < 3 {
        return not_put(CUT, p);
    }
    let width = at(events, 1);
    let height = at(events, 2);
    if outside(width) {
        return not_put(SIZE, p);
    }
    if outside(height) {
        return not_put(SIZE, p);
    }
    let count = height * width;
    let bytes = 3 + 3 * count;
    if events.len() < bytes {
        return not_put(CUT, p);
    }
    if sheet.len() < (p + 25 + 24 * count + 7) / 8 {
        return not_put(ROOM, p);
    }
    let next = write::frame(sheet, p, width, height, &events[3..bytes]);
    Put {
        fault: 0,
        bytes,
        next,
    }
}

// A switch: its kind and its position.
fn switch(events: &[u8], sheet: &mut [u8], p: usize) -> Put
    requires { (0 < length events.now) × (letter_in events.now ≡ S) × (p < 2 ^ 40) }
    ensures { Near events.now p result × (result.fault ≡ 0 → Puts events.now p result sheet.old sheet.new) }
{
    if events.len() < 3 {
        return not_put(CUT, p);
    }
    let kind = events[1];
    let position = events[2];
    if 15 < kind {
        return not_put(KIND, p);
    }
    if 1 < position {
        return not_put(POSITION, p);
    }
    if sheet.len() < (p + 15) / 8 {
        return not_put(ROOM, p);
    }
    let next = write::switch(sheet, p, kind, position == 1);
    Put {
        fault: 0,
        bytes: 3,
        next,
    }
}

fn reset(events: &[u8], sheet: &mut [u8], p: usize) -> Put
    requires { (0 < length events.now) × (letter_in events.now ≡ R) × (p < 2 ^ 40) }
    ensures { Near events.now p result × (result.fault ≡ 0 → Puts events.now p result sheet.old sheet.new) }
{
    if sheet.len() < (p + 10) / 8 {
        return not_put(ROOM, p);
    }
    let next = write::reset(sheet, p);
    Put {
        fault: 0,
        bytes: 1,
        next,
    }
}

// A preset step.
fn step(events: &[u8], sheet: &mut [u8], p: usize) -> Put
    requires { (0 < length events.now) × (letter_in events.now ≡ L) × (p < 2 ^ 40) }
    ensures { Near events.now p result × (result.fault ≡ 0 → Puts events.now p result sheet.old sheet.new) }
{
    if sheet.len() < (p + 10) / 8 {
        return not_put(ROOM, p);
    }
    let next = write::step(sheet, p);
    Put {
        fault: 0,
        bytes: 1,
        next,
    }
}

// The event at the start of these bytes.
fn event(events: &[u8], sheet: &mut [u8], p: usize) -> Put
    requires { (0 < length events.now) × (p < 2 ^ 40) }
    ensures { Near events.now p result × (result.fault ≡ 0 → Puts events.now p result sheet.old sheet.new) }
{
    match events[0] {
        b'F' => frame(events, sheet, p),
        b'R' => reset(events, sheet, p),
        b'S' => switch(events, sheet, p),
        b'L' => step(events, sheet, p),
        _ => not_put(LETTER, p),
    }
}

// What became of a file's events: a fault, 0 for none, how many events stand before it, and how many bytes the sheet has; its last event ends at `bits`.
#[derive(Clone, Copy)]
pub struct Packed {
    pub fault: u8,
    pub events: usize,
    pub length: usize,
    pub bits: usize,
}

fn not_packed(fault: u8, events: usize) -> Packed
    ensures { (result.fault ≡ fault) × (result.length ≡ 0) }
{
    Packed {
        fault,
        events,
        length: 0,
        bits: 0,
    }
}

// The sheet of these events, in the buffer's first bytes.
pub fn all(events: &[u8], sheet: &mut [u8]) -> Packed
    requires { 2 ≤ length sheet.old }
    ensures { IsPrefixLen result.length sheet.new × (result.fault ≡ 0 → Packs events.now result sheet.new) }
{
    let mut from: usize = 0;
    let mut p: usize = 16;
    let mut n: usize = 0;
    while from < events.len() {
        if n == 65535 {
            return not_packed(COUNT, n);
        }
        let put = event(&events[from..], sheet, p);
        if put.fault != 0 {
            return not_packed(put.fault, n);
        }
        from += put.bytes;
        p = put.next;
        n += 1;
    }
    let length = write::close(sheet, p, n);
    Packed {
        fault: 0,
        events: n,
        length,
        bits: p,
    }
}
