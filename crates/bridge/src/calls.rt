// The exported calls. Each answers what the call reports, 0 where it reports nothing, or 256 and the refusal's number. What a frame reports, and what may be
// above 255, has a place of its own.
ghost use Rattle.std.specs.Prelude.{◌≡◌, ◌+◌, not, eqb};
ghost use Rattle.areas.specs.Areas.{judged};
ghost use Rattle.chain.specs.Answers.{called};
ghost use Rattle.num.specs.Refusals.{number_of};
ghost use Rattle.chain.specs.Calls.{reset_reply, switch_reply, ask_reply, commit_reply, step_reply};
ghost use Rattle.bridge.specs.Cabinets.{ShowsSource};
ghost use Rattle.bridge.specs.Judged.{judged_told};
ghost use Rattle.bridge.specs.Sheets.{PlaysSheet};
ghost use Rattle.bridge.specs.Outcomes.{outcome, answered, opening, on_state, depth_set, depth_told, enabled_told, preset_told, write_told, write_left, Kept};
ghost use Rattle.bridge.specs.Outcomes.{Frames};

use super::state::{decode, encode};
use cabinet::{show, source_stops};
use cards::station::Station;
use cards::{reader, writer};
use chain::pipeline;
use num::refusal::Refusal;
use passes::blur::Counts;
use sheets::play::play;

// A refusal's number.
fn refusal(k: Refusal) -> u32
    ensures { result ≡ 256 + number_of k }
{
    256 + k.number() as u32
}

// Tells how a call was answered, and keeps its station where it is no refusal.
fn keep(answer: Result<(), Refusal>, station: &Station, state: &mut [u8; 134]) -> u32
    ensures { outcome result state.new ≡ answered state.old (called answer station.now) }
{
    match answer {
        Ok(()) => {
            *state = encode(station);
            0
        }
        Err(k) => refusal(k),
    }
}

// Tells how a frame was answered, and keeps its station and what it reports where it is no refusal.
fn keep_frame(
    answer: Result<Counts, Refusal>,
    station: &Station,
    state: &mut [u8; 134],
    reports: &mut [u32; 2],
) -> u32
    ensures { Kept state.old reports.old answer station.now result state.new reports.new }
{
    match answer {
        Ok(Counts { clipped, samples }) => {
            *state = encode(station);
            *reports = [clipped, samples];
            0
        }
        Err(k) => refusal(k),
    }
}

// The station of a card, written as the state.
#[unsafe(no_mangle)]
pub extern "C" fn hedgemallow_open(card: &[u8], state: &mut [u8; 134]) -> u32
    ensures { outcome result state.new ≡ opening card.now state.old }
{
    match reader::open(card) {
        Ok(station) => {
            *state = encode(&station);
            0
        }
        Err(k) => refusal(k),
    }
}

// The station's card at the start of the buffer, and its length.
#[unsafe(no_mangle)]
pub extern "C" fn hedgemallow_write(state: &[u8; 134], buffer: &mut [u8]) -> u32
    ensures { (result ≡ write_told state.now buffer.old)
        × (buffer.new ≡ write_left state.now buffer.old) }
{
    let Ok(station) = decode(state) else {
        return refusal(Refusal::BadStation);
    };
    match writer::write(&station, buffer) {
        Ok(n) => n as u32,
        Err(k) => refusal(k),
    }
}

// A frame; and what it reports: how many channels were clipped, and how many samples were taken.
#[unsafe(no_mangle)]
pub extern "C" fn hedgemallow_apply(
    state: &mut [u8; 134],
    framebuffer: &mut [u32],
    width: usize,
    height: usize,
    history: &mut [u32],
    floats: &mut [f32],
    ints: &mut [u32],
    curve: &[f32],
    reports: &mut [u32; 2],
) -> u32
    ensures { Frames width height state.old framebuffer.old history.old floats.old ints.old
        curve.now reports.old result state.new framebuffer.new history.new floats.new
        ints.new reports.new }
{
    let Ok(mut station) = decode(state) else {
        return refusal(Refusal::BadStation);
    };
    let applied = pipeline::apply(
        &mut station,
        framebuffer,
        width,
        height,
        history,
        floats,
        ints,
        curve,
    );
    keep_frame(applied, &station, state, reports)
}

// A frame of a source, enlarged. The source is looked at first.
#[unsafe(no_mangle)]
pub extern "C" fn hedgemallow_show(
    state: &mut [u8; 134],
    picture: &[u8],
    width: usize,
    height: usize,
    colours: &[u32],
    framebuffer: &mut [u32],
    history: &mut [u32],
    floats: &mut [f32],
    ints: &mut [u32],
    curve: &[f32],
    reports: &mut [u32; 2],
) -> u32
    ensures { ShowsSource width height picture.now colours.now state.old framebuffer.old
        history.old floats.old ints.old curve.now reports.old result state.new
        framebuffer.new history.new floats.new ints.new reports.new }
{
    if let Err(k) = source_stops(width, height, picture.len(), colours.len()) {
        return refusal(k);
    }
    let Ok(mut station) = decode(state) else {
        return refusal(Refusal::BadStation);
    };
    let applied = show(
        &mut station,
        picture,
        width,
        height,
        colours,
        framebuffer,
        history,
        floats,
        ints,
        curve,
    );
    keep_frame(applied, &station, state, reports)
}

// Plays a sheet, with the buffers of a frame lent for all its events. How many were accepted and how many refused goes to a place of its own.
#[unsafe(no_mangle)]
pub extern "C" fn hedgemallow_play(
    state: &mut [u8; 134],
    sheet: &[u8],
    framebuffer: &mut [u32],
    history: &mut [u32],
    floats: &mut [f32],
    ints: &mut [u32],
    curve: &[f32],
    reports: &mut [u32; 2],
) -> u32
    ensures { PlaysSheet sheet.now state.old framebuffer.old history.old floats.old
        ints.old curve.now reports.old result state.new framebuffer.new history.new
        floats.new ints.new reports.new }
{
    let Ok(mut station) = decode(state) else {
        return refusal(Refusal::BadStation);
    };
    match play(
        &mut station,
        sheet,
        framebuffer,
        history,
        floats,
        ints,
        curve,
    ) {
        Ok(played) => {
            *state = encode(&station);
            *reports = [played.accepted, played.refused];
            0
        }
        Err(k) => refusal(k),
    }
}

// Forgets what the histories hold.
#[unsafe(no_mangle)]
pub extern "C" fn hedgemallow_reset(state: &mut [u8; 134]) -> u32
    ensures { outcome result state.new ≡ on_state reset_reply state.old }
{
    let Ok(mut station) = decode(state) else {
        return refusal(Refusal::BadStation);
    };
    let called = pipeline::reset(&mut station);
    keep(called, &station, state)
}

// Switches the first pass of that kind: 0 is off, any other number on.
#[unsafe(no_mangle)]
pub extern "C" fn hedgemallow_set_enabled(state: &mut [u8; 134], kind: u8, on: u8) -> u32
    ensures { outcome result state.new ≡ on_state (switch_reply kind (not (eqb on 0))) state.old }
{
    let Ok(mut station) = decode(state) else {
        return refusal(Refusal::BadStation);
    };
    let called = pipeline::set_enabled(&mut station, kind, on != 0);
    keep(called, &station, state)
}

// Asks for a switch of the first pass of that kind: 0 is off, any other number on.
#[unsafe(no_mangle)]
pub extern "C" fn hedgemallow_ask(state: &mut [u8; 134], kind: u8, on: u8) -> u32
    ensures { outcome result state.new ≡ on_state (ask_reply kind (not (eqb on 0))) state.old }
{
    let Ok(mut station) = decode(state) else {
        return refusal(Refusal::BadStation);
    };
    let called = pipeline::ask(&mut station, kind, on != 0);
    keep(called, &station, state)
}

// Makes the switch that was asked for.
#[unsafe(no_mangle)]
pub extern "C" fn hedgemallow_commit(state: &mut [u8; 134]) -> u32
    ensures { outcome result state.new ≡ on_state commit_reply state.old }
{
    let Ok(mut station) = decode(state) else {
        return refusal(Refusal::BadStation);
    };
    let called = pipeline::commit(&mut station);
    keep(called, &station, state)
}

// Steps the LUT to its next preset, and reports it.
#[unsafe(no_mangle)]
pub extern "C" fn hedgemallow_cycle_lut(state: &mut [u8; 134]) -> u32
    ensures { outcome result state.new ≡ on_state step_reply state.old }
{
    let Ok(mut station) = decode(state) else {
        return refusal(Refusal::BadStation);
    };
    match pipeline::cycle_lut(&mut station) {
        Ok(preset) => {
            *state = encode(&station);
            preset as u32
        }
        Err(k) => refusal(k),
    }
}

// Gives the first persistence a new depth, and its history with it.
#[unsafe(no_mangle)]
pub extern "C" fn hedgemallow_set_depth(
    state: &mut [u8; 134],
    history: &mut [u32],
    depth: u8,
) -> u32
    ensures { (outcome result state.new, history.new) ≡ depth_set depth state.old history.old }
{
    let Ok(mut station) = decode(state) else {
        return refusal(Refusal::BadStation);
    };
    let called = pipeline::set_depth(&mut station, history, depth);
    keep(called, &station, state)
}

// Document 01's K, the sum of the depths in the chain, for sizing the history.
#[unsafe(no_mangle)]
pub extern "C" fn hedgemallow_depth(state: &[u8; 134]) -> u32
    ensures { result ≡ depth_told state.now }
{
    let Ok(station) = decode(state) else {
        return refusal(Refusal::BadStation);
    };
    pipeline::places(&station) as u32
}

// Whether the first pass of that kind is on: 1, or 0 where it is off.
#[unsafe(no_mangle)]
pub extern "C" fn hedgemallow_enabled(state: &[u8; 134], kind: u8) -> u32
    ensures { result ≡ enabled_told kind state.now }
{
    let Ok(station) = decode(state) else {
        return refusal(Refusal::BadStation);
    };
    match pipeline::enabled(&station, kind) {
        Ok(on) => on as u32,
        Err(k) => refusal(k),
    }
}

// The LUT's preset.
#[unsafe(no_mangle)]
pub extern "C" fn hedgemallow_preset(state: &[u8; 134]) -> u32
    ensures { result ≡ preset_told state.now }
{
    let Ok(station) = decode(state) else {
        return refusal(Refusal::BadStation);
    };
    match pipeline::preset(&station) {
        Ok(preset) => preset as u32,
        Err(k) => refusal(k),
    }
}

// The totals of rectangles of a picture, three for each, at the front of the result; and how many words were read. It asks for no station.
#[unsafe(no_mangle)]
pub extern "C" fn hedgemallow_areas(
    picture: &[u32],
    width: usize,
    height: usize,
    areas: &[u16],
    res: &mut [u64],
    read: &mut [u32; 1],
) -> u32
    ensures { (result, (read.new, res.new))
        ≡ judged_told read.old (judged picture.now width height areas.now res.old) }
{
    match areas::totals(picture, width, height, areas, res) {
        Ok(n) => {
            *read = [n];
            0
        }
        Err(k) => refusal(k),
    }
}
