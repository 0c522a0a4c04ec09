// The export of a card's way through opening and writing.
ghost use Rattle.std.specs.Prelude.{◌≡◌, [], ◌∷◌};
ghost use Rattle.cards.specs.Answers.{reported_by, told as told_of};
ghost use Rattle.num.specs.Held.{sized};
ghost use Rattle.probe.specs.Cards.{holding, answer_of, bytes_of};

use cards::station::Station;
use cards::{reader, writer};
use num::refusal::Refusal;
use num::size::Size;

// A length that was written, or 256 and a refusal's number.
pub(crate) fn told(answer: Result<usize, Refusal>) -> usize
    ensures { result ≡ told_of (reported_by (λ n. n ∷ []) answer) }
{
    match answer {
        Ok(n) => n,
        Err(refusal) => 256 + refusal.number() as usize,
    }
}

// The station whose record at that place, if there is one, remembers frames of that size.
fn remember(station: Station, at: usize, held: Size) -> Station
    ensures { result ≡ holding station at held }
{
    let mut station = station;
    if at < 12 {
        station.records[at].held = held;
    }
    station
}

// The card of the station that a card opens, whose record at that place remembers frames of that size.
fn rewritten(card: &[u8], at: usize, held: Size, out: &mut [u8]) -> Result<usize, Refusal>
    ensures { (told_of (reported_by (λ n. n ∷ []) result) ≡ answer_of card.now at held out.old)
        × (out.new ≡ bytes_of card.now at held out.old) }
{
    let station = remember(reader::open(card)?, at, held);
    writer::write(&station, out)
}

// Opens a card, lets the record at that place of its station, if there is one, remember frames of that width and height, and writes it into `out`.
// Answers the length that was written, or 256 and a refusal's number.
#[unsafe(no_mangle)]
pub extern "C" fn probe_card(
    card: &[u8],
    at: usize,
    width: u16,
    height: u16,
    out: &mut [u8],
) -> usize
    ensures { (result ≡ answer_of card.now at (sized width height) out.old)
        × (out.new ≡ bytes_of card.now at (sized width height) out.old) }
{
    told(rewritten(card, at, Size { width, height }, out))
}
