// A file that holds a curve: 256 numbers as binary32, the low byte first.
ghost use Rattle.std.specs.Prelude.{◌≡◌, ◌+◌, ◌*◌, ◌<◌, ◌≤◌, length};
ghost use Rattle.num.specs.Rewrite.{fill};
ghost use Rattle.frames.specs.Curve.{pattern_at, real_of, word_at, empty, number_of, loaded, loaded_of};

use passes::color_correction::is_good_curve;
use raster::pixels::at;

// Why a file holds no curve, each fault with its number (specs/Curve.antt).
#[derive(Clone, Copy, Debug, PartialEq, Eq)]
pub enum NoCurve {
    OtherLength = 1, // another length than 1,024 bytes
    Outside, // a word that is not in 0..1
}

impl NoCurve {
    pub fn number(self) -> u8
        ensures { result ≡ number_of self }
    {
        self as u8
    }
}

// The bit pattern of the four bytes from i on.
fn pattern(bytes: &[u8], i: usize) -> u32
    requires { i + 3 < length bytes.now }
    ensures { result ≡ pattern_at bytes.now i }
{
    let first = at(bytes, i);
    let second = at(bytes, i + 1);
    let third = at(bytes, i + 2);
    let fourth = at(bytes, i + 3);
    (first + second * 256 + third * 65536 + fourth * 16777216) as u32
}

// Its number. An infinity becomes a NaN: neither is in 0..1.
fn real(bits: u32) -> f32
    ensures { result ≡ real_of bits }
{
    if bits % 0x8000_0000 / 0x80_0000 == 255 {
        return 0.0 / 0.0;
    }
    f32::from_bits(bits)
}

// Words from four bytes each.
fn decode(words: &mut [f32], file: &[u8])
    requires { 4 * length words.old ≤ length file.now }
    ensures { words.new ≡ fill (word_at file.now) words.old }
{
    for (k, word) in words.iter_mut().enumerate() {
        *word = real(pattern(file, 4 * k));
    }
}

// Room for a curve.
fn room() -> [f32; 256]
    ensures { result ≡ empty }
{
    [0.0; 256]
}

// The curve that a file holds.
#[tactic(auto, unfolding(crate::specs::Curve::loaded_of, crate::specs::Curve::curve_fault, crate::specs::Curve::curve_in, num::specs::Refusals::unless))]
pub fn load(file: &[u8]) -> Result<[f32; 256], NoCurve>
    ensures { loaded result ≡ loaded_of file.now }
{
    if file.len() != 1024 {
        return Err(NoCurve::OtherLength);
    }
    let mut words = room();
    decode(&mut words, file);
    if !is_good_curve(&words) {
        return Err(NoCurve::Outside);
    }
    Ok(words)
}
