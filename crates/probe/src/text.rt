// The exports of a text's way to its card, and of a word as a number. Nothing here is assumed.
ghost use Rattle.std.specs.Prelude.{[], ◌∷◌, ◌≡◌, is_some};
ghost use Rattle.texts.specs.Numbers.{decimal_of};
ghost use Rattle.texts.specs.Read.{made_of};
ghost use Rattle.probe.specs.Texts.{answer_of, bytes_of, place_of, flag, nearest_of};

use super::card::told;
use cards::writer;
use texts::numbers::number_of;
use texts::read;
use texts::read::Misread;

// Makes a card of a text and writes it into `out`. Answers its length; or 256 and the number of the text's fault or, where the buffer is too short, of that
// refusal. No fault has its number. `place` is told the fault's line and word, and the kind and the place of the setting that it is about.
#[unsafe(no_mangle)]
pub extern "C" fn probe_text(text: &[u8], out: &mut [u8], place: &mut [usize; 4]) -> usize
    ensures { (result ≡ answer_of (made_of text.now) out.old)
        × (out.new ≡ bytes_of (made_of text.now) out.old) × (place.new ≡ place_of (made_of text.now)) }
{
    match read::read(text) {
        Err(Misread { line, fault }) => {
            *place = [line, fault.word, fault.kind as usize, fault.place];
            256 + fault.mistake.number() as usize
        }
        Ok(station) => {
            *place = [0; 4];
            told(writer::write(&station, out))
        }
    }
}

// Answers 1 for a word that is a number, else 0. `nearest` is told the binary32 nearest to it, or 0.
#[unsafe(no_mangle)]
pub extern "C" fn probe_decimal(word: &[u8], nearest: &mut [f32; 1]) -> u32
    ensures { (result ≡ flag (is_some (decimal_of word.now))) × (nearest.new ≡ nearest_of (decimal_of word.now) ∷ []) }
{
    match number_of(word) {
        Some(d) => {
            *nearest = [d.nearest];
            1
        }
        None => {
            *nearest = [0.0];
            0
        }
    }
}
