// A line of a text: nothing, a pass, or that there is none; or what is wrong with it.
ghost use Rattle.std.specs.Prelude.{◌≡◌, ◌≤◌};
ghost use Rattle.texts.specs.Lines.{numbered as numbered_of, kind_in, switch_in, ended as ended_of, faulty as faulty_of};
ghost use Rattle.texts.specs.Lines.{fault_from, word_of_fault, pass_line, line_of};
ghost use Rattle.texts.specs.Settings.{pass_in};
ghost use Rattle.cards.specs.Records.{carded as carded_of};

use super::mistake::Mistake;
use super::names::find_kind;
use super::numbers::{Decimal, number_of};
use super::settings::{arity, pass_in, setting_in};
use super::words::{Span, is, nth, word};
use cards::station::Record;
use num::size::Size;

// What is wrong, with which word, and for which setting of which pass.
#[derive(Clone, Copy, Debug, PartialEq, Eq)]
pub struct Fault {
    pub mistake: Mistake,
    pub word: usize,
    pub kind: u8,
    pub place: usize,
}

#[derive(Clone, Copy)]
pub enum Line {
    Blank,
    Bare,
    Pass(Record),
}

pub(crate) fn faulty(mistake: Mistake, word: usize, kind: u8, place: usize) -> Fault
    ensures { result ≡ faulty_of mistake word kind place }
{
    Fault {
        mistake,
        word,
        kind,
        place,
    }
}

// The kind that a number is.
fn numbered(d: Option<Decimal>) -> Option<u8>
    ensures { result ≡ numbered_of d }
{
    match d {
        Some(d) if d.plain && 1 <= d.whole && d.whole <= 10 => Some(d.whole as u8),
        _ => None,
    }
}

// A pass by its name or its number: its kind, 0 for a chain without one.
#[tactic(auto, unfolding(crate::specs::Lines::kind_in))]
fn kind_in(word: &[u8]) -> Option<u8>
    ensures { result ≡ kind_in word.now }
{
    find_kind(word).or_else(|| numbered(number_of(word)))
}

// Whether a word is on or off, if it is either.
fn switch_in(word: &[u8]) -> Option<bool>
    ensures { result ≡ switch_in word.now }
{
    if is(word, b"on") {
        Some(true)
    } else if is(word, b"off") {
        Some(false)
    } else {
        None
    }
}

// Whether the line has no word i.
fn ended(line: &[u8], i: usize) -> bool
    ensures { result ≡ ended_of line.now i }
{
    let Span { from, to } = nth(line, i);
    from == to
}

// The first fault of the settings.
fn first_fault(line: &[u8], kind: u8) -> Option<Fault>
    ensures { result ≡ fault_from 4 line.now kind 0 }
{
    for j in 0..4 {
        if let Err(mistake) = setting_in(line, kind, j) {
            return Some(faulty(mistake, word_of(mistake, j), kind, j));
        }
    }
    None
}

// The word that is wrong with the setting at place j: its name, or its value.
fn word_of(mistake: Mistake, j: usize) -> usize
    requires { j ≤ 3 }
    ensures { result ≡ word_of_fault mistake j }
{
    match mistake {
        Mistake::OtherName => 2 + 2 * j,
        _ => 3 + 2 * j,
    }
}

// A record as a card has it: it holds nothing.
fn carded(on: bool, line: &[u8], kind: u8) -> Record
    ensures { result ≡ carded_of on (pass_in line.now kind) }
{
    Record {
        on,
        pass: pass_in(line, kind),
        held: Size::NOTHING,
    }
}

fn pass_line(line: &[u8], kind: u8) -> Result<Line, Fault>
    ensures { result ≡ pass_line line.now kind }
{
    let Some(on) = switch_in(word(line, 1)) else {
        return Err(faulty(Mistake::NoSwitch, 1, kind, 0));
    };
    if let Some(fault) = first_fault(line, kind) {
        return Err(fault);
    }
    let n = 2 + 2 * arity(kind);
    if !ended(line, n) {
        return Err(faulty(Mistake::SpareWord, n, kind, 0));
    }
    Ok(Line::Pass(carded(on, line, kind)))
}

// What a line says. No byte of it ends a line or begins a comment.
pub(crate) fn line_of(line: &[u8]) -> Result<Line, Fault>
    ensures { result ≡ line_of line.now }
{
    if ended(line, 0) {
        return Ok(Line::Blank);
    }
    let Some(kind) = kind_in(word(line, 0)) else {
        return Err(faulty(Mistake::UnknownPass, 0, 0, 0));
    };
    if kind != 0 {
        return pass_line(line, kind);
    }
    if !ended(line, 1) {
        return Err(faulty(Mistake::SpareWord, 1, 0, 0));
    }
    Ok(Line::Bare)
}
