// The first difference of the chains of two stations.
ghost use Rattle.std.specs.Prelude.{◌≡◌};
ghost use Rattle.inspect.specs.Settings.{settings_of};
ghost use Rattle.inspect.specs.Difference.{settings_difference, record_difference, chain_difference, difference_of};
ghost use Rattle.inspect.specs.Private.{same_place};

use super::settings::{Setting, setting_at};
use cards::station::{Pass, Record, Station};
use cards::writer::real_bits;

// Where two chains differ first; places are counted from 0.
#[derive(Clone, Copy, Debug, PartialEq, Eq)]
pub enum Difference {
    // One chain ends before this place, and the other does not.
    Length(usize),
    // The passes at this place are of other kinds.
    Kind(usize),
    // They are of one kind, and one is on, the other off.
    Switch(usize),
    // They are of one kind and both on or both off, and of their settings the one at the second number is the first that differs.
    Setting(usize, usize),
}

// Whether two settings are the same, or neither is there. Real ones by their bits, as they stand on a card, and not as numbers: a NaN is the same as itself.
// So this is no derived `==`. Whole ones as numbers.
fn is_same(a: Option<Setting>, b: Option<Setting>) -> bool
    ensures { result ≡ same_place a b }
{
    match (a, b) {
        (Some(Setting::Real(x)), Some(Setting::Real(y))) => real_bits(x) == real_bits(y),
        (Some(Setting::Whole(m)), Some(Setting::Whole(n))) => m == n,
        (None, None) => true,
        _ => false,
    }
}

// The first setting, of four at most, in which the passes at place i differ.
fn settings_difference(i: usize, p: Pass, q: Pass) -> Option<Difference>
    ensures { result ≡ settings_difference i 0 (settings_of p) (settings_of q) }
{
    for j in 0..4 {
        if !is_same(setting_at(p, j), setting_at(q, j)) {
            return Some(Difference::Setting(i, j));
        }
    }
    None
}

// The first difference of the records at place i.
#[tactic(auto, unfolding(crate::specs::Difference::record_difference))]
fn record_difference(i: usize, a: &Record, b: &Record) -> Option<Difference>
    ensures { result ≡ record_difference i a.now b.now }
{
    let switched = a.on != b.on;
    if a.pass.kind() != b.pass.kind() {
        Some(Difference::Kind(i))
    } else if switched {
        Some(Difference::Switch(i))
    } else {
        settings_difference(i, a.pass, b.pass)
    }
}

// The first difference of two chains.
fn chain_difference(a: &[Record], b: &[Record]) -> Option<Difference>
    ensures { result ≡ chain_difference 0 a.now b.now }
{
    for (i, r) in a.iter().enumerate() {
        if b.len() <= i {
            return Some(Difference::Length(i));
        }
        if let Some(d) = record_difference(i, r, &b[i]) {
            return Some(d);
        }
    }
    if a.len() < b.len() {
        Some(Difference::Length(a.len()))
    } else {
        None
    }
}

// The first difference of the chains of two stations, if there is one.
#[tactic(auto, unfolding(crate::specs::Difference::difference_of))]
pub fn first_difference(a: &Station, b: &Station) -> Option<Difference>
    ensures { result ≡ difference_of a.now b.now }
{
    chain_difference(a.chain(), b.chain())
}
