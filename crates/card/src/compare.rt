// Two cards: whether they are alike, and where they differ first.
ghost use Rattle.std.specs.Prelude.{◌≤◌};

use crate::names::text;
use crate::{names, numbers, show};
use cards::reader;
use cards::station::{Pass, Record, Station};
use cli::names as called;
use cli::output::end;
use cli::stream::STDOUT_FILENO;
use inspect::difference::{Difference, first_difference};
use inspect::settings::setting_at;
use std::io::Error;

// The record at place i.
fn record(station: &Station, i: usize) -> Record {
    station.records[i.min(11)]
}

fn setting(r: Record, j: usize) {
    match setting_at(r.pass, j) {
        Some(s) => show::value(r.pass.kind(), s),
        None => text(b"none"),
    }
}

// Place i, counted from 1.
fn place(i: usize) {
    text(b"not alike: pass ");
    if i < 12 {
        numbers::whole(i + 1);
    }
}

fn length(rt: HostRuntime, i: usize, a: &Station) -> Result<(), Error> {
    place(i);
    if i < a.n {
        end(rt, b" is on the first card only\n")
    } else {
        end(rt, b" is on the second card only\n")
    }
}

// The order of the passes is the same on every card, so the cards have different passes.
fn kinds(rt: HostRuntime, i: usize, a: &Station, b: &Station) -> Result<(), Error> {
    place(i);
    text(b" is ");
    called::kind(STDOUT_FILENO, record(a, i).pass.kind());
    text(b" and ");
    called::kind(STDOUT_FILENO, record(b, i).pass.kind());
    end(
        rt,
        b": not the same passes, which stand by ascending kind on every card\n",
    )
}

fn switches(rt: HostRuntime, i: usize, a: &Station, b: &Station) -> Result<(), Error> {
    let r = record(a, i);
    let s = record(b, i);
    place(i);
    text(b", ");
    called::kind(STDOUT_FILENO, r.pass.kind());
    text(b", is ");
    names::switch(r.on);
    text(b" and ");
    names::switch(s.on);
    end(rt, b"\n")
}

fn settings(rt: HostRuntime, i: usize, j: usize, a: &Station, b: &Station) -> Result<(), Error> {
    let r = record(a, i);
    place(i);
    text(b", ");
    called::kind(STDOUT_FILENO, r.pass.kind());
    text(b": ");
    called::setting(STDOUT_FILENO, r.pass.kind(), j);
    text(b" ");
    setting(r, j);
    text(b" and ");
    setting(record(b, i), j);
    end(rt, b"\n")
}

// The depth of a pass that is persistence and on.
fn depth(r: &Record) -> usize
    ensures { result ≤ 255 }
{
    match r.pass {
        Pass::Persistence { depth, .. } if r.on => depth as usize,
        _ => 0,
    }
}

// How many older frames a picture depends on: the depths of the persistence passes that are on, added up.
fn mixed(station: &Station) -> usize {
    let mut depths = 0;
    for r in station.chain() {
        depths += depth(r);
    }
    depths
}

// Whether a picture depends on the curve that is lent with its frame: colour is in the chain with a gamma other than 1. (Where it is off, the curve decides
// a refusal still.)
fn is_curved(station: &Station) -> bool {
    for r in station.chain() {
        if let Pass::ColorCorrection { gamma, .. } = r.pass {
            return gamma != 1.0;
        }
    }
    false
}

// From which frame on.
fn begin(frames: usize) {
    if frames == 0 {
        text(b"from the first shared frame on");
        return;
    }
    text(b"after ");
    numbers::whole(frames);
    text(b" shared frames, or from a shared reset on");
}

// From when on two stations with these settings show the same picture.
fn alike(rt: HostRuntime, station: &Station) -> Result<(), Error> {
    text(b"alike: the same settings; the pictures are the same ");
    begin(mixed(station));
    if is_curved(station) {
        text(b", where both are lent the same curve");
    }
    end(rt, b"\n")
}

fn opened(rt: HostRuntime, a: &Station, b: &Station) -> Result<(), Error> {
    match first_difference(a, b) {
        None => alike(rt, a),
        Some(Difference::Length(i)) => length(rt, i, a),
        Some(Difference::Kind(i)) => kinds(rt, i, a, b),
        Some(Difference::Switch(i)) => switches(rt, i, a, b),
        Some(Difference::Setting(i, j)) => settings(rt, i, j, a, b),
    }
}

// Only cards that are accepted are compared: a refused one shows no picture.
pub fn compared(rt: HostRuntime, card: &[u8], other: &[u8]) -> Result<(), Error> {
    let Ok(a) = reader::open(card) else {
        return end(rt, b"not compared: the first card is refused\n");
    };
    let Ok(b) = reader::open(other) else {
        return end(rt, b"not compared: the second card is refused\n");
    };
    opened(rt, &a, &b)
}
