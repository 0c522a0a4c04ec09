// Numbers as text: whole ones, binary32 ones exactly, bytes in hexadecimal.
ghost use Rattle.std.specs.Prelude.{◌<◌, ◌≤◌, ◌≡◌, length};

use crate::names::text;
use cli::stream::STDOUT_FILENO;
use inspect::decimal;

pub fn whole(n: usize) {
    io::print_decimal(STDOUT_FILENO, n as u64);
}

pub fn byte(n: u8) {
    io::print_decimal(STDOUT_FILENO, n as u64);
}

// 150 zeros, made by a function, so that a proof sees the length alone.
fn zeros() -> [u8; 150]
    ensures { 150 ≡ length result }
{
    [0; 150]
}

// The digits from place i down to place `last`.
fn digits_down(digits: &[u8], i: usize, last: usize)
    requires { i < length digits.now }
{
    for at in (last..=i).rev() {
        byte(digits[at]);
    }
}

// The highest place that is not 0, or `least`.
fn highest(digits: &[u8], least: usize) -> usize
    requires { (length digits.now ≡ 150) × (least ≤ 149) }
    ensures { result ≤ 149 }
{
    for i in (least..150).rev() {
        if digits[i] != 0 {
            return i;
        }
    }
    least
}

// The digits, with the point before the last `places` of them.
fn pointed(digits: &[u8], places: usize)
    requires { (length digits.now ≡ 150) × (places ≤ 149) }
{
    digits_down(digits, highest(digits, places), places);
    if 0 < places {
        text(b".");
        digits_down(digits, places - 1, 0);
    }
}

// All digits of x.
pub fn exact(x: f32) {
    let mut digits = zeros();
    let point = decimal::exact(x, &mut digits);
    if point.negative {
        text(b"-");
    }
    pointed(&digits, point.places);
}

// A digit below sixteen, in capitals.
fn digit(d: u8) -> u8
    requires { d < 16 }
{
    if d < 10 { 48 + d } else { 55 + d }
}

// A space and two digits.
fn pair(b: u8) {
    text(&[b' ', digit(b / 16), digit(b % 16)]);
}

// A space and two digits for each byte.
pub fn bytes(bytes: &[u8]) {
    for &b in bytes {
        pair(b);
    }
}
