// Opening a card: the header, the records with their passes, the end.
ghost use Rattle.std.specs.Prelude.{◌≡◌, ◌+◌, ◌^◌, ◌<◌, ◌≤◌};
ghost use Rattle.cards.specs.Step.{step};
ghost use Rattle.cards.specs.Passes.{ntsc_at, bloom_at, auto_gradient_at, persistence_at, lut_at};
ghost use Rattle.cards.specs.Passes.{curvature_at, color_correction_at, crt_at, vignette_at, scanlines_at, pass_at};
ghost use Rattle.cards.specs.Records.{kinds, record_at};
ghost use Rattle.cards.specs.Card.{header_at, station_at, opened, open_of, stopped_of};

use super::fields::{Cursor, Stop, refuse_if};
use super::station::{Pass, Pending, Record, Station, is_full, last_kind};
use num::refusal::Refusal;
use num::size::Size;

impl Cursor<'_> {
    #[tactic(auto, unfolding(crate::specs::Passes::ntsc_at))]
    fn ntsc(&mut self) -> Result<Pass, Stop>
        requires { self.old.at < 2 ^ 31 }
        ensures value { step result self.new.at ≡ ntsc_at self.old.bytes.now self.old.at }
        ensures place { (self.new.bytes ≡ self.old.bytes) × (self.new.at ≤ self.old.at + 128) }
    {
        let strength = self.limited(1.0)?;
        let bleed = self.count(64)?;
        Ok(Pass::Ntsc { strength, bleed })
    }

    #[tactic(auto, unfolding(crate::specs::Passes::bloom_at))]
    fn bloom(&mut self) -> Result<Pass, Stop>
        requires { self.old.at < 2 ^ 31 }
        ensures value { step result self.new.at ≡ bloom_at self.old.bytes.now self.old.at }
        ensures place { (self.new.bytes ≡ self.old.bytes) × (self.new.at ≤ self.old.at + 128) }
    {
        let threshold = self.byte(8)?;
        let strength = self.limited(1.0)?;
        let radius = self.count(64)?;
        Ok(Pass::Bloom {
            threshold,
            strength,
            radius,
        })
    }

    #[tactic(auto, unfolding(crate::specs::Passes::auto_gradient_at))]
    fn auto_gradient(&mut self) -> Result<Pass, Stop>
        requires { self.old.at < 2 ^ 31 }
        ensures value { step result self.new.at ≡ auto_gradient_at self.old.bytes.now self.old.at }
        ensures place { (self.new.bytes ≡ self.old.bytes) × (self.new.at ≤ self.old.at + 128) }
    {
        let strength = self.limited(1.0)?;
        let vertical = self.limited(1.0)?;
        let horizontal = self.limited(1.0)?;
        Ok(Pass::AutoGradient {
            strength,
            vertical,
            horizontal,
        })
    }

    #[tactic(auto, unfolding(crate::specs::Passes::persistence_at))]
    fn persistence(&mut self) -> Result<Pass, Stop>
        requires { self.old.at < 2 ^ 31 }
        ensures value { step result self.new.at ≡ persistence_at self.old.bytes.now self.old.at }
        ensures place { (self.new.bytes ≡ self.old.bytes) × (self.new.at ≤ self.old.at + 128) }
    {
        let amount = self.limited(0.95)?;
        let depth = self.count(8)?;
        Ok(Pass::Persistence { amount, depth })
    }

    #[tactic(auto, unfolding(crate::specs::Passes::lut_at))]
    fn lut(&mut self) -> Result<Pass, Stop>
        requires { self.old.at < 2 ^ 31 }
        ensures value { step result self.new.at ≡ lut_at self.old.bytes.now self.old.at }
        ensures place { (self.new.bytes ≡ self.old.bytes) × (self.new.at ≤ self.old.at + 128) }
    {
        let preset = self.preset()?;
        let strength = self.limited(1.0)?;
        Ok(Pass::Lut { preset, strength })
    }

    #[tactic(auto, unfolding(crate::specs::Passes::curvature_at))]
    fn curvature(&mut self) -> Result<Pass, Stop>
        requires { self.old.at < 2 ^ 31 }
        ensures value { step result self.new.at ≡ curvature_at self.old.bytes.now self.old.at }
        ensures place { (self.new.bytes ≡ self.old.bytes) × (self.new.at ≤ self.old.at + 128) }
    {
        let amount = self.limited(0.5)?;
        Ok(Pass::Curvature { amount })
    }

    #[tactic(auto, unfolding(crate::specs::Passes::color_correction_at))]
    fn color_correction(&mut self) -> Result<Pass, Stop>
        requires { self.old.at < 2 ^ 31 }
        ensures value { step result self.new.at ≡ color_correction_at self.old.bytes.now self.old.at }
        ensures place { (self.new.bytes ≡ self.old.bytes) × (self.new.at ≤ self.old.at + 128) }
    {
        let brightness = self.within(-1.0, 1.0)?;
        let contrast = self.raised(0.0)?;
        let saturation = self.raised(0.0)?;
        let gamma = self.raised(0.01)?;
        Ok(Pass::ColorCorrection {
            brightness,
            contrast,
            saturation,
            gamma,
        })
    }

    #[tactic(auto, unfolding(crate::specs::Passes::crt_at))]
    fn crt(&mut self) -> Result<Pass, Stop>
        requires { self.old.at < 2 ^ 31 }
        ensures value { step result self.new.at ≡ crt_at self.old.bytes.now self.old.at }
        ensures place { (self.new.bytes ≡ self.old.bytes) × (self.new.at ≤ self.old.at + 128) }
    {
        let strength = self.limited(1.0)?;
        Ok(Pass::Crt { strength })
    }

    #[tactic(auto, unfolding(crate::specs::Passes::vignette_at))]
    fn vignette(&mut self) -> Result<Pass, Stop>
        requires { self.old.at < 2 ^ 31 }
        ensures value { step result self.new.at ≡ vignette_at self.old.bytes.now self.old.at }
        ensures place { (self.new.bytes ≡ self.old.bytes) × (self.new.at ≤ self.old.at + 128) }
    {
        let strength = self.limited(1.0)?;
        Ok(Pass::Vignette { strength })
    }

    #[tactic(auto, unfolding(crate::specs::Passes::scanlines_at))]
    fn scanlines(&mut self) -> Result<Pass, Stop>
        requires { self.old.at < 2 ^ 31 }
        ensures value { step result self.new.at ≡ scanlines_at self.old.bytes.now self.old.at }
        ensures place { (self.new.bytes ≡ self.old.bytes) × (self.new.at ≤ self.old.at + 128) }
    {
        let strength = self.limited(1.0)?;
        Ok(Pass::Scanlines { strength })
    }

    // The settings of a pass of that kind.
    #[tactic(auto, unfolding(crate::specs::Passes::pass_at))]
    fn settings(&mut self, kind: u8) -> Result<Pass, Stop>
        requires { self.old.at < 2 ^ 31 }
        ensures value { step result self.new.at ≡ pass_at kind self.old.bytes.now self.old.at }
        ensures place { (self.new.bytes ≡ self.old.bytes) × (self.new.at ≤ self.old.at + 128) }
    {
        match kind {
            1 => self.ntsc(),
            2 => self.bloom(),
            3 => self.auto_gradient(),
            4 => self.persistence(),
            5 => self.lut(),
            6 => self.curvature(),
            7 => self.color_correction(),
            8 => self.crt(),
            9 => self.vignette(),
            10 => self.scanlines(),
            _ => Err(Stop {
                refusal: Refusal::UnknownPass,
                at: self.at,
            }),
        }
    }

    // A record, behind those that were read. As a card has it, it holds nothing.
    #[tactic(auto, unfolding(crate::specs::Records::record_at))]
    fn record(&mut self, seen: &[Record]) -> Result<Record, Stop>
        requires { self.old.at < 2 ^ 30 }
        ensures value { step result self.new.at ≡ record_at (kinds seen.now) self.old.bytes.now self.old.at }
        ensures place { (self.new.bytes ≡ self.old.bytes) × (self.new.at ≤ self.old.at + 133) }
    {
        let at = self.at;
        let kind = self.byte(4)?;
        refuse_if(kind == 0 || 10 < kind, Refusal::UnknownPass, at)?;
        refuse_if(is_full(seen, kind), Refusal::DoubledPass, at)?;
        refuse_if(kind < last_kind(seen), Refusal::PassOutOfOrder, at)?;
        let on = self.byte(1)? == 1;
        let pass = self.settings(kind)?;
        Ok(Record {
            on,
            pass,
            held: Size::NOTHING,
        })
    }

    // The header: the version, then the number of passes.
    #[tactic(auto, unfolding(crate::specs::Card::header_at))]
    fn header(&mut self) -> Result<usize, Stop>
        requires { self.old.at ≡ 0 }
        ensures value { step result self.new.at ≡ header_at self.old.bytes.now self.old.at }
        ensures place { (self.new.bytes ≡ self.old.bytes) × (self.new.at ≤ 8) }
    {
        let at = self.at;
        let version = self.byte(4)?;
        refuse_if(version != 1, Refusal::ForeignCard, at)?;
        let at = self.at;
        let n = self.byte(4)?;
        refuse_if(12 < n, Refusal::OverfullCard, at)?;
        Ok(n as usize)
    }

    // The way through a card: the header, the records one by one, the end.
    fn station(&mut self) -> Result<Station, Stop>
        requires { self.old.at ≡ 0 }
        ensures { step result self.new.at ≡ station_at self.old.bytes.now 0 }
    {
        let n = self.header()?;
        let mut records = [Record::filler(); 12];
        for i in 0..n {
            records[i] = self.record(&records[..i])?;
        }
        refuse_if(!self.is_at_end(), Refusal::LongCard, self.at)?;
        Ok(Station {
            records,
            n,
            pending: Pending::Nothing,
        })
    }
}

// The station of a card, or why the card is refused.
#[tactic(auto, unfolding(crate::specs::Card::open_of))]
pub fn open(card: &[u8]) -> Result<Station, Refusal>
    ensures { opened result ≡ open_of card.now }
{
    let mut cursor = Cursor { bytes: card, at: 0 };
    cursor.station().map_err(|stop| stop.refusal)
}

// The bit place where reading the card stops.
#[tactic(auto, unfolding(crate::specs::Card::stopped_of))]
pub fn stopped(card: &[u8]) -> usize
    ensures { result ≡ stopped_of card.now }
{
    let mut cursor = Cursor { bytes: card, at: 0 };
    match cursor.station() {
        Ok(_) => cursor.at,
        Err(stop) => stop.at,
    }
}
