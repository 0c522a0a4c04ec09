// Why something is refused: one line on standard error, behind the argument that gave it.
use crate::pack;
use cli::output::end_at;
use cli::says::{name, text};
use cli::stream::STDERR_FILENO;
use cli::words;
use std::io::Error;

// The card, which argument i gives.
pub fn card(rt: HostRuntime, i: usize, card: &[u8], number: u8) {
    name(rt, STDERR_FILENO, i);
    let _ = words::refused(rt, STDERR_FILENO, card, number);
}

pub fn too_long(rt: HostRuntime, i: usize) {
    name(rt, STDERR_FILENO, i);
    text(b"too long: more than 2097152 bytes\n");
}

// A sheet that cannot be played. Whether this line was written, or why not.
pub fn bad_sheet(rt: HostRuntime, fd: i32) -> Result<(), Error> {
    end_at(rt, fd, b"refused: 20, bad sheet\n")
}

pub fn sheet(rt: HostRuntime, i: usize) {
    name(rt, STDERR_FILENO, i);
    let _ = bad_sheet(rt, STDERR_FILENO);
}

// A file of events that ends before its card does.
pub fn no_card(rt: HostRuntime, i: usize) {
    name(rt, STDERR_FILENO, i);
    text(b"cut off in its card\n");
}

// The card of a file of events.
pub fn card_in(rt: HostRuntime, i: usize, card: &[u8], number: u8) {
    name(rt, STDERR_FILENO, i);
    text(b"card ");
    let _ = words::refused(rt, STDERR_FILENO, card, number);
}

// An event that has no place on a sheet, behind so many others.
pub fn event(rt: HostRuntime, i: usize, before: usize, fault: u8) {
    name(rt, STDERR_FILENO, i);
    text(b"event ");
    if before < 65536 {
        io::print_decimal(STDERR_FILENO, (before + 1) as u64);
    }
    match fault {
        pack::CUT => text(b" is cut off\n"),
        pack::LETTER => text(b" is none: it begins with another letter than F, R, S or L\n"),
        pack::SIZE => text(b" is a frame of a bad size: each side is from 1 to 32\n"),
        pack::KIND => text(b" is a switch of a kind above 15, for which a sheet has no room\n"),
        pack::POSITION => text(b" is a switch to a position other than 0 and 1\n"),
        pack::ROOM => text(b" does not fit: the sheet would have more than 2097152 bytes\n"),
        _ => text(b" is one too many: a sheet has at most 65535\n"),
    }
}
