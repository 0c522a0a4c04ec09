// A card in words: its passes in order, how many samples their blurs take, and its normalised bytes; or why it is refused.
use crate::names::text;
use crate::{names, numbers};
use cards::station::{Record, Station};
use cards::{reader, writer};
use chain::samples::samples;
use cli::output::end;
use cli::stream::STDOUT_FILENO;
use cli::{input, names as called, words};
use inspect::extent::Extent;
use inspect::settings::{Setting, setting_at};
use std::io::Error;

// The value of a setting of that kind of pass.
pub fn value(kind: u8, s: Setting) {
    match s {
        Setting::Real(x) => numbers::exact(x),
        Setting::Whole(v) => {
            numbers::byte(v);
            if kind == 5 {
                names::preset(v);
            }
        }
    }
}

// The setting at place j of the pass of a record, if it has one.
fn setting(r: &Record, j: usize) {
    if let Some(s) = setting_at(r.pass, j) {
        if j == 0 {
            text(b": ");
        } else {
            text(b", ");
        }
        let kind = r.pass.kind();
        called::setting(STDOUT_FILENO, kind, j);
        text(b" ");
        value(kind, s);
    }
}

// A line for the pass at place i, counted from 1. No pass has more than four settings.
fn record(rt: HostRuntime, r: &Record, i: usize) -> Result<(), Error> {
    text(b"  ");
    numbers::whole(i);
    text(b"  ");
    called::kind(STDOUT_FILENO, r.pass.kind());
    text(b", ");
    names::switch(r.on);
    for j in 0..4 {
        setting(r, j);
    }
    end(rt, b"\n")
}

// A line for each pass of the chain.
fn passes(rt: HostRuntime, station: &Station) -> Result<(), Error> {
    let chain = station.chain();
    if chain.is_empty() {
        return end(rt, b"  no pass: the picture is the frame\n");
    }
    for (i, r) in chain.iter().enumerate() {
        record(rt, r, i + 1)?;
    }
    Ok(())
}

// A line for the samples that the blurs take at a size. No station that a card opens is refused, nor is a size that has sides.
fn sampled(rt: HostRuntime, station: &Station, width: usize, height: usize) -> Result<(), Error> {
    match samples(station, width, height) {
        Ok(n) => {
            text(b"  samples: ");
            numbers::whole(n as usize);
            text(b" at ");
            numbers::whole(width);
            text(b" by ");
            numbers::whole(height);
            end(rt, b"\n")
        }
        Err(_) => end(rt, b"  no samples\n"),
    }
}

// The same for the size that is asked for, if one is.
fn asked(rt: HostRuntime, station: &Station, extent: Option<Extent>) -> Result<(), Error> {
    match extent {
        Some(Extent { width, height }) => sampled(rt, station, width, height),
        None => Ok(()),
    }
}

// The card as every card of this station is written.
fn normalised(rt: HostRuntime, station: &Station) -> Result<(), Error> {
    let mut card = [0u8; 83];
    match writer::write(station, &mut card) {
        Ok(n) => {
            text(b"  normalised:");
            prefix(&card, n);
            end(rt, b"\n")
        }
        Err(_) => end(rt, b"  no card\n"),
    }
}

// The first n bytes, as far as there are so many.
fn prefix(card: &[u8], n: usize) {
    if n <= card.len() {
        numbers::bytes(&card[..n]);
    }
}

// A card that is accepted, in words. The samples are told of a frame of 256 by 240, and of the size that is asked for.
fn accepted(rt: HostRuntime, station: &Station, extent: Option<Extent>) -> Result<(), Error> {
    passes(rt, station)?;
    sampled(rt, station, 256, 240)?;
    asked(rt, station, extent)?;
    normalised(rt, station)
}

// The card in words, or why it is refused.
fn described(rt: HostRuntime, card: &[u8], extent: Option<Extent>) -> Result<(), Error> {
    match reader::open(card) {
        Ok(station) => accepted(rt, &station, extent),
        Err(refusal) => {
            text(b"  ");
            words::refused(rt, STDOUT_FILENO, card, refusal.number())
        }
    }
}

// The card that argument i gave, below that argument.
pub fn titled(rt: HostRuntime, i: usize, card: &[u8], extent: Option<Extent>) -> Result<(), Error> {
    let mut name = io::buffer();
    let given = input::argument(rt, i, &mut name);
    let n = given.length;
    text(&name[..n]);
    end(rt, b"\n")?;
    described(rt, card, extent)
}
