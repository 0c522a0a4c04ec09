// The settings of a pass in words: what each may be, and what a line says.
ghost use Rattle.std.specs.Prelude.{◌≡◌, ◌≤◌, Ok, slice_get};
ghost use Rattle.texts.specs.Settings.{slot_of, real_of, whole_of, preset_of, value_of, setting_in};
ghost use Rattle.texts.specs.Settings.{arity as arity_of, real_in, whole_in, pass_of, pass_in};

use super::mistake::Mistake;
use super::names::{find_preset, is_setting};
use super::numbers::{Decimal, number_of};
use super::words::word;
use cards::station::Pass;
use inspect::settings::Setting;
use num::steps::limit;

// What may stand at a place: a number within limits, a whole number within limits, or a preset.
#[derive(Clone, Copy)]
pub enum Slot {
    Real { low: f32, high: f32 },
    Whole { least: u8, most: u8 },
    Preset,
}

fn place(slots: &[Slot], j: usize) -> Option<Slot>
    ensures { result ≡ slice_get slots.now j }
{
    slots.get(j).copied()
}

// What may stand at place j of a pass of that kind, if it has so many settings.
fn slot_of(kind: u8, j: usize) -> Option<Slot>
    ensures { result ≡ slot_of kind j }
{
    let unit = Slot::Real {
        low: 0.0,
        high: 1.0,
    };
    let four = Slot::Real {
        low: 0.0,
        high: 4.0,
    };
    let radius = Slot::Whole { least: 1, most: 64 };
    match kind {
        1 => place(&[unit, radius], j),
        2 => place(
            &[
                Slot::Whole {
                    least: 0,
                    most: 255,
                },
                unit,
                radius,
            ],
            j,
        ),
        3 => place(&[unit, unit, unit], j),
        4 => place(
            &[
                Slot::Real {
                    low: 0.0,
                    high: 0.95,
                },
                Slot::Whole { least: 1, most: 8 },
            ],
            j,
        ),
        5 => place(&[Slot::Preset, unit], j),
        6 => place(
            &[Slot::Real {
                low: 0.0,
                high: 0.5,
            }],
            j,
        ),
        7 => place(
            &[
                Slot::Real {
                    low: -1.0,
                    high: 1.0,
                },
                four,
                four,
                Slot::Real {
                    low: 0.01,
                    high: 4.0,
                },
            ],
            j,
        ),
        8 => place(&[unit], j),
        9 => place(&[unit], j),
        10 => place(&[unit], j),
        _ => None,
    }
}

#[tactic(auto, unfolding(crate::specs::Settings::real_of))]
fn real_of(low: f32, high: f32, d: Option<Decimal>) -> Result<Setting, Mistake>
    ensures { result ≡ real_of low high d }
{
    let d = d.ok_or(Mistake::NoNumber)?;
    if d.nearest < low || high < d.nearest {
        return Err(Mistake::OutOfRange);
    }
    Ok(Setting::Real(limit(d.nearest, low, high)))
}

#[tactic(auto, unfolding(crate::specs::Settings::whole_of))]
fn whole_of(least: u8, most: u8, d: Option<Decimal>) -> Result<Setting, Mistake>
    ensures { result ≡ whole_of least most d }
{
    let d = d.ok_or(Mistake::NoNumber)?;
    if !d.plain {
        return Err(Mistake::NoNumber);
    }
    if d.whole < least as u32 {
        return Err(Mistake::OutOfRange);
    }
    if (most as u32) < d.whole {
        return Err(Mistake::OutOfRange);
    }
    Ok(Setting::Whole(d.whole as u8))
}

// A preset by its name or by its number.
fn preset_of(word: &[u8]) -> Result<Setting, Mistake>
    ensures { result ≡ preset_of word.now }
{
    match find_preset(word) {
        Some(preset) => Ok(Setting::Whole(preset)),
        None => whole_of(0, 6, number_of(word)),
    }
}

fn value_of(slot: Slot, word: &[u8]) -> Result<Setting, Mistake>
    ensures { result ≡ value_of slot word.now }
{
    match slot {
        Slot::Real { low, high } => real_of(low, high, number_of(word)),
        Slot::Whole { least, most } => whole_of(least, most, number_of(word)),
        Slot::Preset => preset_of(word),
    }
}

// The setting at place j of a pass of that kind, as a line has it; none where the pass has no more.
pub(crate) fn setting_in(line: &[u8], kind: u8, j: usize) -> Result<Option<Setting>, Mistake>
    requires { j ≤ 3 }
    ensures { result ≡ setting_in line.now kind j }
{
    let Some(slot) = slot_of(kind, j) else {
        return Ok(None);
    };
    if !is_setting(word(line, 2 + 2 * j), kind, j) {
        return Err(Mistake::OtherName);
    }
    let value = value_of(slot, word(line, 3 + 2 * j))?;
    Ok(Some(value))
}

// How many settings a pass of that kind has.
pub(crate) fn arity(kind: u8) -> usize
    ensures { (result ≡ arity_of kind) × (result ≤ 4) }
{
    match kind {
        1 => 2,
        2 => 3,
        3 => 3,
        4 => 2,
        5 => 2,
        6 => 1,
        7 => 4,
        8 => 1,
        9 => 1,
        10 => 1,
        _ => 0,
    }
}

fn real_in(s: Option<Setting>) -> f32
    ensures { result ≡ real_in s }
{
    match s {
        Some(Setting::Real(x)) => x,
        _ => 0.0,
    }
}

fn whole_in(s: Option<Setting>) -> u8
    ensures { result ≡ whole_in s }
{
    match s {
        Some(Setting::Whole(v)) => v,
        _ => 0,
    }
}

// The pass of a kind by its settings.
fn pass_of(
    kind: u8,
    a: Option<Setting>,
    b: Option<Setting>,
    c: Option<Setting>,
    d: Option<Setting>,
) -> Pass
    ensures { result ≡ pass_of kind a b c d }
{
    match kind {
        1 => Pass::Ntsc {
            strength: real_in(a),
            bleed: whole_in(b),
        },
        2 => Pass::Bloom {
            threshold: whole_in(a),
            strength: real_in(b),
            radius: whole_in(c),
        },
        3 => Pass::AutoGradient {
            strength: real_in(a),
            vertical: real_in(b),
            horizontal: real_in(c),
        },
        4 => Pass::Persistence {
            amount: real_in(a),
            depth: whole_in(b),
        },
        5 => Pass::Lut {
            preset: whole_in(a),
            strength: real_in(b),
        },
        6 => Pass::Curvature { amount: real_in(a) },
        7 => Pass::ColorCorrection {
            brightness: real_in(a),
            contrast: real_in(b),
            saturation: real_in(c),
            gamma: real_in(d),
        },
        8 => Pass::Crt {
            strength: real_in(a),
        },
        9 => Pass::Vignette {
            strength: real_in(a),
        },
        _ => Pass::Scanlines {
            strength: real_in(a),
        },
    }
}

// The pass that a line has whose settings are all right.
pub(crate) fn pass_in(line: &[u8], kind: u8) -> Pass
    ensures { result ≡ pass_in line.now kind }
{
    let a = setting_in(line, kind, 0).unwrap_or(None);
    let b = setting_in(line, kind, 1).unwrap_or(None);
    let c = setting_in(line, kind, 2).unwrap_or(None);
    let d = setting_in(line, kind, 3).unwrap_or(None);
    pass_of(kind, a, b, c, d)
}
