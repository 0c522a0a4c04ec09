// The calls on a station: a frame, a reset, a switch, at once or asked for and committed, a preset step, a new depth, and two questions. None has a
// condition: what it cannot do it refuses, by a refusal of the papers' table, and a refusal changes nothing.
ghost use Rattle.std.specs.Prelude.{◌≡◌, ◌≤◌, [], ◌∷◌};
ghost use Rattle.cards.specs.Alike.{chain_of};
ghost use Rattle.cards.specs.Passes.{kind_of};
ghost use Rattle.chain.specs.Chain.{depth as depthIn};
ghost use Rattle.chain.specs.Calls.{forget, with_switch, next as next_of, stepped_pass, preset_of, deep_pass};
ghost use Rattle.chain.specs.Calls.{reset_reply, switch_reply, ask_reply, commit_reply, step_reply, depth_reply, enabled_report, preset_report};
ghost use Rattle.chain.specs.Answers.{called, called_with, cycled, reported_number, reported_switch, Applies};

use super::first::place;
use super::refusals::{depth, depth_of, stops};
use super::run::run_chain;
use cards::fields::one_at_least;
use cards::station::{Pass, Pending, Record, Station};
use num::refusal::Refusal;
use num::size::Size;
use passes::blur::Counts;
use passes::persistence::resize;

// Document 01's K: how many older frames the histories have places for together. Of a bad station, too: the depths that its first n records name,
// twelve at most, added up; who wants a refusal asks whether it is good first, as `bridge` does.
pub fn places(station: &Station) -> usize
    ensures { (result ≡ depthIn (chain_of station.now)) × (result ≤ 3060) }
{
    depth(station.chain())
}

// A frame: the passes that are on, in the card's order, over the first count words of the framebuffer. The first
// 3 * count + 3 * width words of `floats` and the first count words of `ints` are scratch. The curve is read where colour has a gamma other than 1.0.
// Answers how many channels the passes that are on clipped, and how many samples their blurs took.
pub fn apply(
    station: &mut Station,
    framebuffer: &mut [u32],
    width: usize,
    height: usize,
    history: &mut [u32],
    floats: &mut [f32],
    ints: &mut [u32],
    curve: &[f32],
) -> Result<Counts, Refusal>
    ensures { Applies width height station.old framebuffer.old history.old floats.old ints.old
        curve.now result station.new framebuffer.new history.new floats.new ints.new }
{
    stops(
        station,
        width,
        height,
        framebuffer.len(),
        history.len(),
        floats.len(),
        ints.len(),
        curve,
    )?;
    let count = height * width;
    let room = 3 * count + 3 * width;
    let size = Size {
        width: width as u16,
        height: height as u16,
    };
    let n = station.chain().len();
    Ok(run_chain(
        &mut station.records[..n],
        size,
        &mut framebuffer[..count],
        history,
        &mut floats[..room],
        &mut ints[..count],
        curve,
    ))
}

// The records hold nothing any more.
fn forget(records: &mut [Record])
    ensures { records.new ≡ forget records.old }
{
    for r in records.iter_mut() {
        r.held = Size::NOTHING;
    }
}

// Forgets what the histories hold; their words stay.
pub fn reset(station: &mut Station) -> Result<(), Refusal>
    ensures { called result station.new ≡ reset_reply station.old }
{
    place(station, 4)?;
    let n = station.n;
    forget(&mut station.records[..n]);
    Ok(())
}

// A record once it is switched: one that is off holds nothing.
fn switched(r: Record, on: bool) -> Record
    ensures { result ≡ with_switch on r }
{
    Record {
        on,
        pass: r.pass,
        held: if on { r.held } else { Size::NOTHING },
    }
}

// Switches the pass of that kind, the first one.
pub fn set_enabled(station: &mut Station, kind: u8, on: bool) -> Result<(), Refusal>
    ensures { called result station.new ≡ switch_reply kind on station.old }
{
    let at = place(station, kind)?;
    station.records[at] = switched(station.records[at], on);
    Ok(())
}

// Asks for a switch of the pass of that kind: it is recorded, and made by `commit`.
pub fn ask(station: &mut Station, kind: u8, on: bool) -> Result<(), Refusal>
    ensures { called result station.new ≡ ask_reply kind on station.old }
{
    place(station, kind)?;
    if let Pending::Switch { .. } = station.pending {
        return Err(Refusal::AlreadyAsked);
    }
    station.pending = Pending::Switch { kind, on };
    Ok(())
}

// Makes the switch that was asked for, as `set_enabled` does; then nothing is asked for.
pub fn commit(station: &mut Station) -> Result<(), Refusal>
    ensures { called result station.new ≡ commit_reply station.old }
{
    if !station.is_good() {
        return Err(Refusal::BadStation);
    }
    let Pending::Switch { kind, on } = station.pending else {
        return Err(Refusal::NotAsked);
    };
    set_enabled(station, kind, on)?;
    station.pending = Pending::Nothing;
    Ok(())
}

// The preset after that one.
fn next(preset: u8) -> u8
    ensures { result ≡ next_of preset }
{
    match preset {
        0 => 1,
        1 => 2,
        2 => 3,
        3 => 4,
        4 => 5,
        5 => 6,
        _ => 0,
    }
}

// A LUT with its next preset; any other pass stays.
fn stepped(pass: Pass) -> Pass
    ensures { result ≡ stepped_pass pass }
{
    match pass {
        Pass::Lut { preset, strength } => Pass::Lut {
            preset: next(preset),
            strength,
        },
        _ => pass,
    }
}

// The preset of a LUT.
fn preset_of(pass: Pass) -> u8
    requires { kind_of pass ≡ 5 }
    ensures { preset_of pass ≡ result ∷ [] }
{
    match pass {
        Pass::Lut { preset, .. } => preset,
        _ => unreachable!(),
    }
}

// Steps the LUT to its next preset, and reports it.
pub fn cycle_lut(station: &mut Station) -> Result<u8, Refusal>
    ensures { cycled result station.new ≡ step_reply station.old }
{
    let at = place(station, 5)?;
    let pass = stepped(station.records[at].pass);
    station.records[at].pass = pass;
    Ok(preset_of(pass))
}

// Persistence with that depth; any other pass stays.
fn deepened(pass: Pass, depth: u8) -> Pass
    ensures { result ≡ deep_pass depth pass }
{
    match pass {
        Pass::Persistence { amount, .. } => Pass::Persistence { amount, depth },
        _ => pass,
    }
}

// Gives the first persistence a new depth, by the card's rule. The newest frames of its history stay where they are; where there are more places
// than before, the oldest frame is repeated until they are full. A history that holds nothing is not touched. With another depth those
// behind it begin elsewhere, and are forgotten.
pub fn set_depth(station: &mut Station, history: &mut [u32], depth: u8) -> Result<(), Refusal>
    ensures { called_with result station.new history.new ≡ depth_reply depth station.old history.old }
{
    let at = place(station, 4)?;
    if 8 < depth {
        return Err(Refusal::BadSetting);
    }
    let r = station.records[at];
    let d = one_at_least(depth);
    let count = r.held.area();
    if history.len() < d as usize * count {
        return Err(Refusal::ShortHistory);
    }
    let before = depth_of(r.pass);
    resize(history, count, before, d as usize);
    station.records[at].pass = deepened(r.pass, d);
    if before != d as usize {
        let n = station.n;
        forget(&mut station.records[at + 1..n]);
    }
    Ok(())
}

// Whether the pass of that kind is on.
pub fn enabled(station: &Station, kind: u8) -> Result<bool, Refusal>
    ensures { reported_switch result ≡ enabled_report kind station.now }
{
    let at = place(station, kind)?;
    Ok(station.records[at].on)
}

// The LUT's preset.
pub fn preset(station: &Station) -> Result<u8, Refusal>
    ensures { reported_number result ≡ preset_report station.now }
{
    let at = place(station, 5)?;
    Ok(preset_of(station.records[at].pass))
}
