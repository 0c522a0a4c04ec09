// A word as a number: a sign or none, digits, a point or none, digits.
ghost use Rattle.std.specs.Prelude.{◌≡◌, ◌++◌, ◌+◌, ◌-◌, ◌*◌, ◌^◌, ◌<◌, ◌≤◌, length, get_or, drop};
ghost use Rattle.std.specs.Float.{binary32};
ghost use Rattle.std.specs.Float.Ieee.{round};
ghost use Rattle.inspect.specs.Decimal.{number, Digits};
ghost use Rattle.texts.specs.Numbers.{is_digit, digit as digit_of, worth, is_sign, is_minus, start_of, behind_of, shape_of, is_number};
ghost use Rattle.texts.specs.Numbers.{is_plain, Ordered, decimal_of};
ghost use Rattle.texts.specs.Words.{front};

use inspect::nearest::nearest;

fn is_digit(b: u8) -> bool
    ensures { result ≡ is_digit b }
{
    matches!(b, b'0'..=b'9')
}

// The value of a digit, 0 for any other byte.
fn digit(b: u8) -> u8
    ensures { (result ≡ digit_of b) × (result ≤ 9) }
{
    if is_digit(b) { b - b'0' } else { 0 }
}

// The byte at a place, 0 past the end.
fn byte_at(word: &[u8], i: usize) -> u8
    ensures { result ≡ get_or word.now i 0 }
{
    word.get(i).copied().unwrap_or(0)
}

// Where the digits from a place on end.
fn digits_end(word: &[u8], from: usize) -> usize
    requires { from ≤ length word.now }
    ensures { (result ≡ from + front is_digit (drop from word.now)) × (result ≤ length word.now) }
{
    let rest = &word[from..];
    from + rest
        .iter()
        .position(|b| !is_digit(*b))
        .unwrap_or(rest.len())
}

// The number of up to seven digits.
fn whole(digits: &[u8]) -> u32
    requires { length digits.now ≤ 7 }
    ensures { (result ≡ worth 0 digits.now) × (result < 2 ^ 24) }
{
    let mut v: u32 = 0;
    for b in digits {
        v = v * 10 + digit(*b) as u32;
    }
    v
}

// The digits behind the point, the last place first, with zeros to 150 places.
fn lay(fraction: &[u8], out: &mut [u8])
    requires { (length fraction.now ≤ 150) × (length out.old ≡ 150) }
    ensures { Digits out.new
        × (number out.new ≡ worth 0 fraction.now * 10 ^ (150 - length fraction.now)) }
{
    for i in 0..150 {
        out[149 - i] = digit(byte_at(fraction, i));
    }
}

// The binary32 nearest to digits before and behind the point.
fn valued(negative: bool, before: &[u8], after: &[u8]) -> f32
    requires { (length before.now ≤ 7) × (length after.now ≤ 150) }
    ensures { result ≡ round binary32 negative (worth 0 (before.now ++ after.now)) (10 ^ length after.now) }
{
    let mut digits = [0u8; 150];
    lay(after, &mut digits);
    nearest(negative, whole(before), &mut digits)
}

// The places of a word: where its digits begin, where they end, where those behind the point begin, and where these end.
#[derive(Clone, Copy)]
struct Shape {
    start: usize,
    point: usize,
    behind: usize,
    end: usize,
}

fn is_minus(word: &[u8]) -> bool
    ensures { result ≡ is_minus word.now }
{
    byte_at(word, 0) == b'-'
}

fn is_sign(b: u8) -> bool
    ensures { result ≡ is_sign b }
{
    b == b'+' || b == b'-'
}

// Where the digits begin: behind the sign, if there is one.
fn start_of(word: &[u8]) -> usize
    ensures { (result ≡ start_of word.now) × (result ≤ length word.now) }
{
    if is_sign(byte_at(word, 0)) { 1 } else { 0 }
}

// Where the digits behind the point begin; those before it end at `point`, and if no point is there no digit is.
fn behind_of(word: &[u8], point: usize) -> usize
    requires { point ≤ length word.now }
    ensures { (result ≡ behind_of word.now point) × (point ≤ result) × (result ≤ length word.now) }
{
    if byte_at(word, point) == b'.' {
        point + 1
    } else {
        point
    }
}

fn shape_of(word: &[u8]) -> Shape
    ensures { (result ≡ shape_of word.now) × Ordered result (length word.now) }
{
    let start = start_of(word);
    let point = digits_end(word, start);
    let behind = behind_of(word, point);
    let end = digits_end(word, behind);
    Shape {
        start,
        point,
        behind,
        end,
    }
}

// Whether that is all of a word of this length, and neither too little nor too much.
fn is_number(s: Shape, long: usize) -> bool
    requires { Ordered s long }
    ensures { result ≡ is_number s long }
{
    let before = s.point - s.start;
    let after = s.end - s.behind;
    if s.end != long || 7 < before || 150 < after {
        return false;
    }
    0 < before + after
}

// Whether it is digits alone, without sign and point.
fn is_plain(s: Shape, long: usize) -> bool
    ensures { result ≡ is_plain s long }
{
    s.start == 0 && s.point == long
}

// What a word is as a number.
#[derive(Clone, Copy)]
pub struct Decimal {
    // Whether it is digits alone, without sign and point.
    pub plain: bool,
    // The number before the point.
    pub whole: u32,
    // The binary32 nearest to it, a tie going to the even one.
    pub nearest: f32,
}

// None for a word that is no number.
pub fn number_of(word: &[u8]) -> Option<Decimal>
    ensures { result ≡ decimal_of word.now }
{
    let s = shape_of(word);
    if !is_number(s, word.len()) {
        return None;
    }
    let before = &word[s.start..s.point];
    let after = &word[s.behind..s.end];
    Some(Decimal {
        plain: is_plain(s, word.len()),
        whole: whole(before),
        nearest: valued(is_minus(word), before, after),
    })
}
