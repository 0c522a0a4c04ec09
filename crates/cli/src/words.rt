// Refusals in words, and why a file is no frame, or holds no curve.
use super::{names, output};
use cards::reader;
use inspect::layout::{Field, field_at};
use std::io::Error;

// The trade's word of a refusal, as the papers have it. By its number: `refused` takes any number, and may ask no more of those that call it.
fn word(fd: i32, number: u8) {
    match number {
        1 => io::write_all(fd, b"torn card"),
        2 => io::write_all(fd, b"foreign card"),
        3 => io::write_all(fd, b"overfull card"),
        4 => io::write_all(fd, b"unknown pass"),
        5 => io::write_all(fd, b"doubled pass"),
        6 => io::write_all(fd, b"bad setting"),
        7 => io::write_all(fd, b"long card"),
        15 => io::write_all(fd, b"pass out of order"),
        _ => io::write_all(fd, b"no refusal of a card"),
    };
}

// Pass i, counted from 0 there and from 1 here.
fn pass(fd: i32, i: usize) {
    io::write_all(fd, b" of pass ");
    if i < 12 {
        io::print_decimal(fd, (i + 1) as u64);
    }
}

// The same, with its kind.
fn named(fd: i32, i: usize, kind: u8) {
    pass(fd, i);
    io::write_all(fd, b", ");
    names::kind(fd, kind);
}

// A field of a card.
fn field(fd: i32, f: Field) {
    match f {
        Field::Version => {
            io::write_all(fd, b"the version");
        }
        Field::Passes => {
            io::write_all(fd, b"the number of passes");
        }
        Field::Kind(i) => {
            io::write_all(fd, b"the kind");
            pass(fd, i);
        }
        Field::Switch(i, kind) => {
            io::write_all(fd, b"the switch");
            named(fd, i, kind);
        }
        Field::Setting(i, kind, j) => {
            io::write_all(fd, b"the ");
            names::setting(fd, kind, j);
            named(fd, i, kind);
        }
        Field::Rest => {
            io::write_all(fd, b"after the last pass");
        }
    }
}

// Why the card is refused, and where reading it stopped: at which bit, and in which field. Whether the end of this line was written, or why not.
pub fn refused(rt: HostRuntime, fd: i32, card: &[u8], number: u8) -> Result<(), Error> {
    let at = reader::stopped(card);
    io::write_all(fd, b"refused: ");
    io::print_decimal(fd, number as u64);
    io::write_all(fd, b", ");
    word(fd, number);
    io::write_all(fd, b"; reading stopped at bit ");
    io::print_decimal(fd, at as u64);
    io::write_all(fd, b": ");
    field(fd, field_at(card, at));
    output::end_at(rt, fd, b"\n")
}

// Why a file is no frame of 61,440 pixels, by the reason's number. As `refused`, this takes any.
pub fn no_frame(fd: i32, number: u8) {
    match number {
        1 => io::write_all(fd, b"empty file\n"),
        2 => io::write_all(fd, b"not a binary PPM: it does not begin with P6\n"),
        3 => io::write_all(fd, b"cut off in its header\n"),
        4 => io::write_all(
            fd,
            b"bad header: it is P6, width, height, 255 and one white byte\n",
        ),
        5 => io::write_all(fd, b"a maximum other than 255\n"),
        6 => io::write_all(fd, b"a width or height of 0\n"),
        7 => io::write_all(
            fd,
            b"too large: more than 61440 pixels (256 by 240), or a side above 1024\n",
        ),
        8 => io::write_all(fd, b"cut off: fewer pixels than its header says\n"),
        9 => io::write_all(fd, b"bytes left over after the last pixel\n"),
        _ => io::write_all(fd, b"more bytes than a frame of 61440 pixels has\n"),
    };
}

// Why a file holds no curve, by the fault's number. The same.
pub fn no_curve(fd: i32, number: u8) {
    match number {
        1 => io::write_all(
            fd,
            b"no curve: it has not 1024 bytes, which are 256 binary32, the low byte first\n",
        ),
        _ => io::write_all(fd, b"no curve: a number in it is not from 0 to 1\n"),
    };
}
