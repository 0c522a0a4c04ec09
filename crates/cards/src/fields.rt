// Fields of a card, most significant bit first, and the settings that they hold.
ghost use Rattle.std.specs.Prelude.{◌≡◌, ℕ, List, ◌+◌, ◌*◌, ◌^◌, ◌<◌, ◌≤◌, length};
ghost use Rattle.num.specs.Refusals.{number_of};
ghost use Rattle.cards.specs.Step.{step, refuse_if};
ghost use Rattle.cards.specs.Bits.{bit_at, field_at};
ghost use Rattle.cards.specs.Settings.{finite_at, limited_at, within_at, raised_at, one_at_least, count_at, preset_at};
ghost use Rattle.cards.specs.Card.{ends_at};

use num::refusal::Refusal;

// Why a card is refused, and where: `at` is the first bit of the field that is refused, and of a long card the bit after the
// last field.
#[derive(Clone, Copy, Debug, PartialEq, Eq)]
pub struct Stop {
    pub refusal: Refusal,
    pub at: usize,
}

// Refuses what stands at that place where `bad` holds.
#[tactic(auto, unfolding(crate::specs::Step::refuse_if))]
pub(crate) fn refuse_if(bad: bool, refusal: Refusal, at: usize) -> Result<(), Stop>
    ensures { (card : List ℕ) (next : ℕ) → step result next ≡ refuse_if (number_of refusal) at bad card next }
{
    if bad {
        return Err(Stop { refusal, at });
    }
    Ok(())
}

// 0 becomes 1.
pub fn one_at_least(v: u8) -> u8
    ensures { result ≡ one_at_least v }
{
    if v == 0 { 1 } else { v }
}

// The bytes of a card, and the bit place up to which they are read.
#[derive(Clone, Copy)]
pub struct Cursor<'a> {
    pub bytes: &'a [u8],
    pub at: usize,
}

impl Cursor<'_> {
    // The bit at the place p.
    fn bit(&self, p: usize) -> u32
        requires { p < 8 * length self.now.bytes.now }
        ensures { result ≡ bit_at self.now.bytes.now p }
    {
        ((self.bytes[p / 8] >> (7 - p % 8)) % 2) as u32
    }

    // A field of `width` bits.
    #[tactic(auto, unfolding(crate::specs::Bits::field_at))]
    pub fn field(&mut self, width: usize) -> Result<u32, Stop>
        requires { (width ≤ 32) × (self.old.at < 2 ^ 44) }
        ensures value { step result self.new.at ≡ field_at width self.old.bytes.now self.old.at }
        ensures place { (self.new.bytes ≡ self.old.bytes) × (self.new.at ≤ self.old.at + width) }
    {
        let at = self.at;
        if self.bytes.len() < (at + width + 7) / 8 {
            return Err(Stop {
                refusal: Refusal::TornCard,
                at,
            });
        }
        let mut value = 0;
        for i in 0..width {
            value = value * 2 + self.bit(at + i);
        }
        self.at = at + width;
        Ok(value)
    }

    // A field of at most 8 bits.
    pub fn byte(&mut self, width: usize) -> Result<u8, Stop>
        requires { (width ≤ 8) × (self.old.at < 2 ^ 44) }
        ensures value { step result self.new.at ≡ field_at width self.old.bytes.now self.old.at }
        ensures place { (self.new.bytes ≡ self.old.bytes) × (self.new.at ≤ self.old.at + width) }
    {
        Ok(self.field(width)? as u8)
    }

    // A setting F: a finite number.
    #[tactic(auto, unfolding(crate::specs::Settings::finite_at))]
    pub(crate) fn finite(&mut self) -> Result<f32, Stop>
        requires { self.old.at < 2 ^ 32 }
        ensures value { step result self.new.at ≡ finite_at self.old.bytes.now self.old.at }
        ensures place { (self.new.bytes ≡ self.old.bytes) × (self.new.at ≤ self.old.at + 32) }
    {
        let at = self.at;
        let bits = self.field(32)?;
        if bits % 0x8000_0000 / 0x80_0000 == 255 {
            return Err(Stop {
                refusal: Refusal::BadSetting,
                at,
            });
        }
        Ok(f32::from_bits(bits))
    }

    // A setting F limited to 0..high.
    #[tactic(auto, unfolding(crate::specs::Settings::limited_at))]
    pub(crate) fn limited(&mut self, high: f32) -> Result<f32, Stop>
        requires { self.old.at < 2 ^ 32 }
        ensures value { step result self.new.at ≡ limited_at high self.old.bytes.now self.old.at }
        ensures place { (self.new.bytes ≡ self.old.bytes) × (self.new.at ≤ self.old.at + 32) }
    {
        let x = self.finite()?;
        Ok(num::steps::limit(x, 0.0, high))
    }

    // A setting F that is refused outside low..high.
    #[tactic(auto, unfolding(crate::specs::Settings::within_at))]
    pub(crate) fn within(&mut self, low: f32, high: f32) -> Result<f32, Stop>
        requires { self.old.at < 2 ^ 32 }
        ensures value { step result self.new.at ≡ within_at low high self.old.bytes.now self.old.at }
        ensures place { (self.new.bytes ≡ self.old.bytes) × (self.new.at ≤ self.old.at + 32) }
    {
        let at = self.at;
        let x = self.finite()?;
        refuse_if(x < low || high < x, Refusal::BadSetting, at)?;
        Ok(num::steps::limit(x, low, high))
    }

    // A contrast, a saturation or a gamma: refused above 4, and raised to `low` where it is below.
    #[tactic(auto, unfolding(crate::specs::Settings::raised_at))]
    pub(crate) fn raised(&mut self, low: f32) -> Result<f32, Stop>
        requires { self.old.at < 2 ^ 32 }
        ensures value { step result self.new.at ≡ raised_at low self.old.bytes.now self.old.at }
        ensures place { (self.new.bytes ≡ self.old.bytes) × (self.new.at ≤ self.old.at + 32) }
    {
        let at = self.at;
        let x = self.finite()?;
        refuse_if(4.0 < x, Refusal::BadSetting, at)?;
        Ok(num::steps::limit(x, low, 4.0))
    }

    // A bleed, a radius or a depth: refused above `most`, and 0 becomes 1.
    #[tactic(auto, unfolding(crate::specs::Settings::count_at))]
    pub(crate) fn count(&mut self, most: u8) -> Result<u8, Stop>
        requires { self.old.at < 2 ^ 32 }
        ensures value { step result self.new.at ≡ count_at most self.old.bytes.now self.old.at }
        ensures place { (self.new.bytes ≡ self.old.bytes) × (self.new.at ≤ self.old.at + 8) }
    {
        let at = self.at;
        let v = self.byte(8)?;
        refuse_if(most < v, Refusal::BadSetting, at)?;
        Ok(one_at_least(v))
    }

    // A preset: seven of them, 0 to 6.
    #[tactic(auto, unfolding(crate::specs::Settings::preset_at))]
    pub(crate) fn preset(&mut self) -> Result<u8, Stop>
        requires { self.old.at < 2 ^ 32 }
        ensures value { step result self.new.at ≡ preset_at self.old.bytes.now self.old.at }
        ensures place { (self.new.bytes ≡ self.old.bytes) × (self.new.at ≤ self.old.at + 3) }
    {
        let at = self.at;
        let v = self.byte(3)?;
        refuse_if(v == 7, Refusal::BadSetting, at)?;
        Ok(v)
    }

    // Whether the card ends here: zero bits to the byte's end, and no byte after it.
    #[tactic(auto, unfolding(crate::specs::Card::ends_at))]
    pub fn is_at_end(&self) -> bool
        requires { self.now.at < 2 ^ 44 }
        ensures { result ≡ ends_at self.now.bytes.now self.now.at }
    {
        let bytes = (self.at + 7) / 8;
        let mut rest = *self;
        self.bytes.len() == bytes && rest.field(bytes * 8 - self.at) == Ok(0)
    }
}
