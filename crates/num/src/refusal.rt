// Why a call is refused: the papers' table, each refusal with its number. Definition: specs/Refusals.antt.
ghost use Rattle.std.specs.Prelude.{◌≡◌};
ghost use Rattle.num.specs.Refusals.{number_of};

#[derive(Clone, Copy, Debug, PartialEq, Eq)]
pub enum Refusal {
    TornCard = 1,
    ForeignCard,
    OverfullCard,
    UnknownPass,
    DoubledPass,
    BadSetting,
    LongCard,
    BadSize,
    ShortFrame,
    ShortHistory,
    ShortScratch,
    NotInChain,
    BadStation,
    ShortCardBuffer,
    PassOutOfOrder,
    BadCurve,
    AlreadyAsked,
    NotAsked,
    BadArea,
    BadSheet,
    BadSource,
}

impl Refusal {
    // Its number in the papers' table.
    pub fn number(self) -> u8
        ensures { result ≡ number_of self }
    {
        self as u8
    }
}
