// The binary32 nearest to a decimal number. Bits are drawn from the digits behind the point by doubling them, until the significand is full; then it is rounded
// by how the rest compares with one half.
ghost use Rattle.std.specs.Prelude.{cond, ◌≡◌, ◌+◌, ◌*◌, ◌^◌, ◌<◌, eqb, length};
ghost use Prim.Native.Nat.{compare};
ghost use Rattle.std.specs.Float.Ieee as Ieee;
ghost use Rattle.std.specs.Float.{binary32};
ghost use Rattle.std.specs.Float.Ieee.{round};
ghost use Rattle.inspect.specs.Decimal.{number, Digits};
ghost use Rattle.inspect.specs.Private.{Drawn};

use super::decimal::times;

// Whether every digit is 0.
fn is_zero(digits: &[u8]) -> bool
    requires { length digits.now ≡ 150 }
    ensures { result ≡ eqb (number digits.now) 0 }
{
    digits.iter().all(|digit| *digit == 0)
}

// The leading bits of a number, k of them from behind the point.
#[derive(Clone, Copy)]
struct Leading {
    a: u32,
    k: u32,
}

// As many bits as a significand has, or as stand before the last place of the smallest positive value, 2^-149.
fn draw(digits: &mut [u8], whole: u32) -> Leading
    requires { Digits digits.old × (whole < 2 ^ 24) }
    ensures { Drawn whole digits.old result.a result.k digits.new × (result.a < 2 ^ 23 → result.k ≡ 149) }
{
    let mut a = whole;
    let mut k: u32 = 0;
    // No `for`: how many bits are drawn is told as k, and both ends stand in one test.
    while a < 0x80_0000 && k < 149 {
        let bit = times(digits, 2, 0);
        a = 2 * a + bit as u32;
        k += 1;
    }
    Leading { a, k }
}

// The whole number nearest to a and the digits behind the point, a tie going to the even one. A carry of the doubled digits says that they are a half or more.
fn rounded(digits: &mut [u8], a: u32) -> u32
    requires { Digits digits.old × (a < 2 ^ 24) }
    ensures { result ≡ Ieee.nearest a (compare (number digits.old * 2) (10 ^ 150)) }
{
    let carry = times(digits, 2, 0);
    if carry == 0 {
        return a;
    }
    if is_zero(digits) {
        return a + a % 2;
    }
    a + 1
}

fn sign(negative: bool) -> u32
    ensures { result ≡ cond negative (2 ^ 31) 0 }
{
    if negative { 0x8000_0000 } else { 0 }
}

// The binary32 nearest to `whole` and the digits behind the point, the last place first; a tie goes to the even one. The exponent's field counts the bits
// that were not drawn; the leading bit of the significand adds one to it, and so does a significand that was rounded up to one bit more.
pub fn nearest(negative: bool, whole: u32, digits: &mut [u8; 150]) -> f32
    requires { Digits digits.old × (whole < 2 ^ 24) }
    ensures { result ≡ round binary32 negative (whole * 10 ^ 150 + number digits.old) (10 ^ 150) }
{
    let leading = draw(digits, whole);
    let q = rounded(digits, leading.a);
    f32::from_bits(sign(negative) + (149 - leading.k) * 0x80_0000 + q)
}
