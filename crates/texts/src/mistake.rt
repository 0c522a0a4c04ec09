// What can be wrong with a text, each with its number. Definition: specs/Mistakes.antt.
ghost use Rattle.std.specs.Prelude.{◌≡◌};
ghost use Rattle.texts.specs.Mistakes.{number_of};

#[derive(Clone, Copy, Debug, PartialEq, Eq)]
pub enum Mistake {
    // No pass that is known.
    UnknownPass = 1,
    // A pass that may not stand there.
    PassOutOfPlace,
    // More than twelve passes.
    TooManyPasses,
    // `none` beside a pass.
    PassBesideNone,
    // Neither on nor off.
    NoSwitch,
    // Another word than the setting's name.
    OtherName,
    NoNumber,
    // A number out of its range.
    OutOfRange,
    // A word too many.
    SpareWord,
    // No pass at all.
    NoPass,
}

impl Mistake {
    pub fn number(self) -> u8
        ensures { result ≡ number_of self }
    {
        self as u8
    }
}
