// Why something is refused, and what a picture's frame reported: one line on standard error, behind the argument that gave it.
use cli::says::{name, text};
use cli::stream::STDERR_FILENO;
use cli::words;
use num::refusal::Refusal;
use passes::blur::Counts;
use raster::ppm::NotAFrame;

// The card, which argument i gives.
pub fn card(rt: HostRuntime, i: usize, card: &[u8], why: Refusal) {
    name(rt, STDERR_FILENO, i);
    let _ = words::refused(rt, STDERR_FILENO, card, why.number());
}

// A file that is no frame.
pub fn no_frame(rt: HostRuntime, i: usize, why: NotAFrame) {
    name(rt, STDERR_FILENO, i);
    words::no_frame(STDERR_FILENO, why.number());
}

// A frame that the station refused. No station that a card opens refuses a frame with all that is lent here, but by a bad curve where none is named.
pub fn no_picture(rt: HostRuntime, i: usize, why: Refusal) {
    name(rt, STDERR_FILENO, i);
    text(b"refused: ");
    io::print_decimal(STDERR_FILENO, why.number() as u64);
    if why == Refusal::BadCurve {
        text(b", bad curve: the card has a gamma other than 1, so name a curve by --curve FILE");
    }
    text(b"\n");
}

// A picture that was written.
pub fn counts(rt: HostRuntime, i: usize, counts: Counts) {
    name(rt, STDERR_FILENO, i);
    io::print_decimal(STDERR_FILENO, counts.clipped as u64);
    text(b" clipped channels, ");
    io::print_decimal(STDERR_FILENO, counts.samples as u64);
    text(b" blur samples\n");
}
