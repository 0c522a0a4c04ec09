// A text: its lines one after another, each without its comment; the station that it makes, or its first fault.
ghost use Rattle.std.specs.Prelude.{◌≡◌, ◌+◌, ◌≤◌, Ok, not, eqb, length, drop};
ghost use Rattle.texts.specs.Read.{in_text, begun as begun_of, appended as appended_of, with_pass, with_none, with_line};
ghost use Rattle.texts.specs.Read.{finished as finished_at, uncommented, made_of};
ghost use Rattle.texts.specs.Words.{front};
ghost use Rattle.texts.specs.Lines.{line_of};

use super::lines::{Fault, Line, faulty, line_of};
use super::mistake::Mistake;
use cards::station::{Pending, Record, Station};

// What is read so far: the station with the passes, and whether it was said that there is none.
#[derive(Clone, Copy)]
pub struct Draft {
    pub station: Station,
    pub bare: bool,
}

// Why a text makes no station: the line, counted from 0, and what is wrong with it.
#[derive(Clone, Copy, Debug, PartialEq, Eq)]
pub struct Misread {
    pub line: usize,
    pub fault: Fault,
}

// Nothing is read yet.
fn begun() -> Draft
    ensures { result ≡ begun_of }
{
    Draft {
        station: Station {
            records: [Record::filler(); 12],
            n: 0,
            pending: Pending::Nothing,
        },
        bare: false,
    }
}

// The station with one record more.
fn appended(s: Station, r: Record) -> Station
    requires { s.n ≤ 11 }
    ensures { result ≡ appended_of s r }
{
    let mut records = s.records;
    records[s.n] = r;
    Station {
        records,
        n: s.n + 1,
        pending: Pending::Nothing,
    }
}

fn with_pass(d: Draft, r: Record) -> Result<Draft, Fault>
    ensures { result ≡ with_pass d r }
{
    let kind = r.pass.kind();
    if d.bare {
        return Err(faulty(Mistake::PassBesideNone, 0, kind, 0));
    }
    if 12 <= d.station.n {
        return Err(faulty(Mistake::TooManyPasses, 0, kind, 0));
    }
    let station = appended(d.station, r);
    if !station.is_good() {
        return Err(faulty(Mistake::PassOutOfPlace, 0, kind, 0));
    }
    Ok(Draft {
        station,
        bare: false,
    })
}

fn with_none(d: Draft) -> Result<Draft, Fault>
    ensures { result ≡ with_none d }
{
    if d.station.n != 0 {
        return Err(faulty(Mistake::PassBesideNone, 0, 0, 0));
    }
    Ok(Draft {
        station: d.station,
        bare: true,
    })
}

fn with_line(d: Draft, line: Line) -> Result<Draft, Fault>
    ensures { result ≡ with_line d (Ok line) }
{
    match line {
        Line::Blank => Ok(d),
        Line::Bare => with_none(d),
        Line::Pass(r) => with_pass(d, r),
    }
}

fn finished(line: usize, d: Draft) -> Result<Station, Misread>
    ensures { result ≡ finished_at line d }
{
    if d.station.n == 0 && !d.bare {
        return Err(Misread {
            line,
            fault: faulty(Mistake::NoPass, 0, 0, 0),
        });
    }
    Ok(d.station)
}

// The first place from `at` on where a line ends, or the text does.
fn line_end(text: &[u8], at: usize) -> usize
    requires { at ≤ length text.now }
    ensures { (result ≡ at + front (λ b. not (eqb b 10)) (drop at text.now)) × (result ≤ length text.now) }
{
    let rest = &text[at..];
    at + rest.iter().position(|b| *b == b'\n').unwrap_or(rest.len())
}

// How much of a line stands before its comment.
fn comment(line: &[u8]) -> usize
    ensures { (result ≡ front in_text line.now) × (result ≤ length line.now) }
{
    line.iter().position(|b| *b == b'#').unwrap_or(line.len())
}

// A line, with its comment, after those that are read.
fn with_text(d: Draft, line: &[u8]) -> Result<Draft, Fault>
    ensures { result ≡ with_line d (line_of (uncommented line.now)) }
{
    let said = line_of(&line[..comment(line)])?;
    with_line(d, said)
}

// The station that a text makes, or its first fault.
pub fn read(text: &[u8]) -> Result<Station, Misread>
    ensures { result ≡ made_of text.now }
{
    let mut d = begun();
    let mut at = 0;
    let mut line = 0;
    // No `for` over the pieces between line ends: behind the last line end stands no line.
    while at < text.len() {
        let end = line_end(text, at);
        match with_text(d, &text[at..end]) {
            Ok(next) => {
                d = next;
            }
            Err(fault) => {
                return Err(Misread { line, fault });
            }
        }
        at = end + 1;
        line += 1;
    }
    finished(line, d)
}
