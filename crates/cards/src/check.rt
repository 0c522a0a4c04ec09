// What refusal 13 tests: whether a station is good.
ghost use Rattle.std.specs.Prelude.{◌≡◌, []};
ghost use Rattle.num.specs.Held.{nothing, same_held};
ghost use Rattle.cards.specs.Normal.{settled, counted, normal_pass, normal_chain, glows as glowsIn, held_by, may_hold, holding, askable, good_station};

use super::station::{Pass, Pending, Record, Station, is_among, is_full, last_kind};
use num::size::Size;

// Whether x is finite, from low to high, and no negative zero.
fn is_settled(low: f32, high: f32, x: f32) -> bool
    ensures { result ≡ settled low high x }
{
    if x != x {
        return false;
    }
    let bits = f32::to_bits(x);
    if bits % 0x8000_0000 / 0x80_0000 == 255 {
        return false;
    }
    if x < low {
        return false;
    }
    if high < x {
        return false;
    }
    bits != 0x8000_0000
}

fn is_counted(most: u8, v: u8) -> bool
    ensures { result ≡ counted most v }
{
    0 < v && v <= most
}

impl Pass {
    #[tactic(auto, unfolding(crate::specs::Normal::normal_pass))]
    pub(crate) fn is_normal(self) -> bool
        ensures { result ≡ normal_pass self }
    {
        match self {
            Pass::Ntsc { strength, bleed } => {
                is_settled(0.0, 1.0, strength) && is_counted(64, bleed)
            }
            Pass::Bloom {
                strength,
                radius,
                ..
            } => is_settled(0.0, 1.0, strength) && is_counted(64, radius),
            Pass::AutoGradient {
                strength,
                vertical,
                horizontal,
            } => {
                is_settled(0.0, 1.0, strength)
                    && is_settled(0.0, 1.0, vertical)
                    && is_settled(0.0, 1.0, horizontal)
            }
            Pass::Persistence { amount, depth } => {
                is_settled(0.0, 0.95, amount) && is_counted(8, depth)
            }
            Pass::Lut { preset, strength } => preset < 7 && is_settled(0.0, 1.0, strength),
            Pass::Curvature { amount } => is_settled(0.0, 0.5, amount),
            Pass::ColorCorrection {
                brightness,
                contrast,
                saturation,
                gamma,
            } => {
                is_settled(-1.0, 1.0, brightness)
                    && is_settled(0.0, 4.0, contrast)
                    && is_settled(0.0, 4.0, saturation)
                    && is_settled(0.01, 4.0, gamma)
            }
            Pass::Crt { strength } => is_settled(0.0, 1.0, strength),
            Pass::Vignette { strength } => is_settled(0.0, 1.0, strength),
            Pass::Scanlines { strength } => is_settled(0.0, 1.0, strength),
        }
    }
}

impl Record {
    // Whether that is persistence, and on.
    pub fn glows(self) -> bool
        ensures { result ≡ glowsIn self }
    {
        self.on && self.pass.kind() == 4
    }

    // Whether it holds nothing.
    #[tactic(auto, unfolding(num::specs::Held::same_held))]
    fn is_idle(self) -> bool
        ensures { result ≡ same_held self.held nothing }
    {
        self.held == Size::NOTHING
    }

    // Whether it may hold what it does: nothing, or frames of that size, where it is persistence that is on.
    #[tactic(auto, unfolding(num::specs::Held::same_held))]
    fn may_hold(self, size: Size) -> bool
        ensures { result ≡ may_hold size self }
    {
        self.is_idle() || self.held == size && self.glows()
    }
}

// Whether the records are normalised, no kind stands among them more often than it may, and none below the one before it.
fn is_chain(records: &[Record]) -> bool
    ensures { result ≡ normal_chain [] records.now }
{
    for (i, r) in records.iter().enumerate() {
        let kind = r.pass.kind();
        if !r.pass.is_normal() || is_full(&records[..i], kind) || kind < last_kind(&records[..i]) {
            return false;
        }
    }
    true
}

// The size that the records remember: that of the first one that holds frames.
fn held_by(records: &[Record]) -> Size
    ensures { result ≡ held_by records.now }
{
    for r in records {
        if !r.is_idle() {
            return r.held;
        }
    }
    Size::NOTHING
}

// Whether each record may hold what it does.
#[tactic(auto, unfolding(crate::specs::Normal::holding))]
fn all_hold(records: &[Record], size: Size) -> bool
    ensures { result ≡ holding size records.now }
{
    records.iter().all(|r| r.may_hold(size))
}

impl Pending {
    // Whether that may be asked of the records: nothing, or a switch of one of them.
    fn may_be_asked(self, records: &[Record]) -> bool
        ensures { result ≡ askable self records.now }
    {
        match self {
            Pending::Nothing => true,
            Pending::Switch { kind, .. } => is_among(records, kind),
        }
    }
}

impl Station {
    // Whether it is good: what refusal 13 tests.
    #[tactic(auto, unfolding(crate::specs::Normal::good_station))]
    pub fn is_good(&self) -> bool
        ensures { result ≡ good_station self.now }
    {
        if 12 < self.n {
            return false;
        }
        let records = self.chain();
        let size = held_by(records);
        is_chain(records)
            && size.is_fine()
            && all_hold(records, size)
            && self.pending.may_be_asked(records)
    }
}
