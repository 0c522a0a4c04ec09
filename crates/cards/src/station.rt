// What a station is: the records in chain order, each a pass with its settings, its switch and, for persistence, the size that
// its history holds; the pending switch. And what is asked of kinds.
ghost use Rattle.std.specs.Prelude.{◌≡◌, ◌≤◌, [], length};
ghost use Rattle.cards.specs.Alike.{chain_of};
ghost use Rattle.cards.specs.Card.{unused, station_of};
ghost use Rattle.cards.specs.Passes.{kind_of};
ghost use Rattle.cards.specs.Records.{kinds, among, last_of, often as oftenOf, times as times_of, full};

use num::size::Size;

// A pass with its settings.
#[derive(Clone, Copy)]
pub enum Pass {
    Ntsc {
        strength: f32,
        bleed: u8,
    },
    Bloom {
        threshold: u8,
        strength: f32,
        radius: u8,
    },
    AutoGradient {
        strength: f32,
        vertical: f32,
        horizontal: f32,
    },
    Persistence {
        amount: f32,
        depth: u8,
    },
    Lut {
        preset: u8,
        strength: f32,
    },
    Curvature {
        amount: f32,
    },
    ColorCorrection {
        brightness: f32,
        contrast: f32,
        saturation: f32,
        gamma: f32,
    },
    Crt {
        strength: f32,
    },
    Vignette {
        strength: f32,
    },
    Scanlines {
        strength: f32,
    },
}

impl Pass {
    // The kind number of a pass.
    pub fn kind(self) -> u8
        ensures { result ≡ kind_of self }
    {
        match self {
            Pass::Ntsc { .. } => 1,
            Pass::Bloom { .. } => 2,
            Pass::AutoGradient { .. } => 3,
            Pass::Persistence { .. } => 4,
            Pass::Lut { .. } => 5,
            Pass::Curvature { .. } => 6,
            Pass::ColorCorrection { .. } => 7,
            Pass::Crt { .. } => 8,
            Pass::Vignette { .. } => 9,
            Pass::Scanlines { .. } => 10,
        }
    }
}

// A pass of the chain, with its switch and what its history holds: nothing, but for persistence that is on.
#[derive(Clone, Copy)]
pub struct Record {
    pub on: bool,
    pub pass: Pass,
    pub held: Size,
}

impl Record {
    // What stands in a place past n.
    pub fn filler() -> Record
        ensures { result ≡ unused }
    {
        Record {
            on: false,
            pass: Pass::Scanlines { strength: 0.0 },
            held: Size::NOTHING,
        }
    }
}

// A switch that was asked for and is not committed yet: a kind and a position. The kind is a number, since a damaged state may
// have any; refusal 13 tells of one that is not in the chain.
#[derive(Clone, Copy)]
pub enum Pending {
    Nothing,
    Switch { kind: u8, on: bool },
}

#[derive(Clone, Copy)]
pub struct Station {
    pub records: [Record; 12],
    pub n: usize,
    pub pending: Pending,
}

impl Station {
    // The empty chain: what stands where a card is refused.
    pub fn empty() -> Station
        ensures { result ≡ station_of [] }
    {
        Station {
            records: [Record::filler(); 12],
            n: 0,
            pending: Pending::Nothing,
        }
    }

    // The records of its chain: no more than twelve are there, whatever n says.
    pub fn chain(&self) -> &[Record]
        ensures chain { result.now ≡ chain_of self.now }
        ensures few { (length result.now ≤ 12) × (length self.now.records ≡ 12) }
    {
        &self.records[..self.n.min(12)]
    }

    // Whether a pass of that kind is in the chain.
    pub fn has_kind(&self, kind: u8) -> bool
        ensures { result ≡ among kind (kinds (chain_of self.now)) }
    {
        is_among(self.chain(), kind)
    }
}

// The kind of the last record, 0 where there is none.
pub(crate) fn last_kind(records: &[Record]) -> u8
    ensures { result ≡ last_of 0 (kinds records.now) }
{
    match records.last() {
        Some(r) => r.pass.kind(),
        None => 0,
    }
}

// Whether a pass of that kind is among the records.
pub(crate) fn is_among(records: &[Record], kind: u8) -> bool
    ensures { result ≡ among kind (kinds records.now) }
{
    records.iter().map(|r| r.pass.kind()).any(|k| k == kind)
}

// How often a pass of that kind may stand in a chain.
fn often(kind: u8) -> usize
    ensures { result ≡ oftenOf kind }
{
    if kind == 4 { 3 } else { 1 }
}

// How often it stands among the records.
#[tactic(auto, using(crate::proofs::Listed::times_count))]
fn times(records: &[Record], kind: u8) -> usize
    ensures { result ≡ times_of kind (kinds records.now) }
{
    records.iter().filter(|r| r.pass.kind() == kind).count()
}

// Whether it may not stand there once more.
pub(crate) fn is_full(records: &[Record], kind: u8) -> bool
    ensures { result ≡ full kind (kinds records.now) }
{
    often(kind) <= times(records, kind)
}
