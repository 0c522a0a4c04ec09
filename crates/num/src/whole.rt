// Whole numbers of an `f32`: cut, also of a clamped value, round, nearest. Definitions: specs/Steps.antt; those that only the
// private functions here cite are in specs/Private.antt. None of them branches around another step or returns early, so that a
// loop over any of the five becomes vector code.
ghost use Rattle.std.specs.Prelude.{◌≡◌, not, cond, ◌≤◌, T};
ghost use Rattle.std.specs.Float.Ieee.{is_nan, lt, neg};
ghost use Rattle.num.specs.Const.{c0_0, c1_0, c255_0, c8388608_0};
ghost use Rattle.num.specs.F32.{◌⊗◌, whole};
ghost use Rattle.num.specs.Steps.{abs_of, clamp_of, cut_of, round_of};
ghost use Rattle.num.specs.Private.{under, floor_of, half_up_of, Near, negative};

use super::steps::{abs, max, min};

// The whole number nearest to v, a half to the even one, for v from 0 to below 2^23: from 2^23 on a float has no digit below
// one, so the last digits of the sum v + 2^23 are that number.
fn near(v: f32) -> u32
    requires { T (under 8388608 v) }
    ensures { Near v result }
{
    f32::to_bits(v + 8388608.0) - 0x4b00_0000
}

// x where it is above 0 and at most 1023, and 0 elsewhere, at a NaN too.
fn to_1023(x: f32) -> f32
    ensures { T (under 1024 result) × (floor_of result ≡ cut_of x) }
{
    if x > 0.0 {
        if x <= 1023.0 { x } else { 0.0 }
    } else {
        0.0
    }
}

// The whole part of v, for v from +0 to below 1024. From 2^22 to 2^23 a float has one digit below one, so the sum is 2^22 and
// halves, as many as are nearest to 2 v - 1/2: not more than 2 v, and a whole v, which lies between two, goes to the even one. Below
// 1/4 the sum would have two digits; the whole part is 0 there, as it is at 1/4.
fn floor(v: f32) -> u32
    requires { T (under 1024 v) }
    ensures { result ≡ floor_of v }
{
    (f32::to_bits(max(v, 0.25) + 4194303.75) - 0x4a80_0000) / 2
}

// The whole part of x, for x from 0 to 1023, and 0 for any other x.
pub fn cut(x: f32) -> u32
    ensures value { result ≡ cut_of x }
    ensures upper_bound { result ≤ 1023 }
{
    floor(to_1023(x))
}

// x brought to 0..255, with 0 for a NaN.
fn to_255(x: f32) -> f32
    ensures { T (under 1024 result) × (floor_of result ≡ cut_of (clamp_of x c0_0 c255_0)) }
{
    min(255.0, max(x, 0.0))
}

// `clamp` to 0..255 and then `cut`, in one step: neither has to look for a NaN.
pub fn cut_clamped(x: f32) -> u32
    ensures value { result ≡ cut_of (clamp_of x c0_0 c255_0) }
    ensures upper_bound { result ≤ 255 }
{
    floor(to_255(x))
}

// x brought to 0..1, with 0 for a NaN, times 255.
fn unit_to_255(x: f32) -> f32
    ensures { T (under 1024 result) × (floor_of result ≡ cut_of (clamp_of x c0_0 c1_0 ⊗ c255_0)) }
{
    min(1.0, max(x, 0.0)) * 255.0
}

// `clamp` to 0..1, times 255, and then `cut`, in one step.
pub fn cut_unit(x: f32) -> u32
    ensures value { result ≡ cut_of (clamp_of x c0_0 c1_0 ⊗ c255_0) }
    ensures upper_bound { result ≤ 255 }
{
    floor(unit_to_255(x))
}

// n as a float. Through `i32`, since the processor's vector conversion is the signed one.
fn float(n: u32) -> f32
    requires { n ≤ 8388608 }
    ensures { result ≡ whole n }
{
    n as i32 as f32
}

// The whole part of v + 1/2. The sum n + 1/2 is exact, unlike v + 1/2.
fn half_up(v: f32) -> u32
    requires { T (under 8388608 v) }
    ensures { result ≡ half_up_of v }
{
    let n = near(v);
    if float(n) + 0.5 <= v { n + 1 } else { n }
}

// x where it is above 0 and below 1023.5, and 0 elsewhere, at a NaN too.
fn below_1023_5(x: f32) -> f32
    ensures { T (under 1024 result) × (half_up_of result ≡ cut_of (round_of x)) }
{
    if x > 0.0 {
        if x < 1023.5 { x } else { 0.0 }
    } else {
        0.0
    }
}

// `round` and then `cut`, in one step: the whole number nearest to x, a half up, for x from 0 to below 1023.5, and 0 for any
// other x.
pub fn nearest(x: f32) -> u32
    ensures value { result ≡ cut_of (round_of x) }
    ensures upper_bound { result ≤ 1023 }
{
    half_up(below_1023_5(x))
}

// x where its size is below 2^23, and 0 elsewhere, at a NaN too.
fn small(x: f32) -> f32
    ensures { result ≡ cond (lt (abs_of x) c8388608_0) x c0_0 }
{
    if abs(x) < 8388608.0 { x } else { 0.0 }
}

// w with the sign of x.
fn signed(w: f32, x: f32) -> f32
    requires { T (not (is_nan x)) }
    ensures { result ≡ cond (negative x) (neg w) w }
{
    if f32::to_bits(x) < 0x8000_0000 { w } else { -w }
}

// The whole number nearest to x, a half away from zero, with x's sign; x itself where it is not finite. From 2^23 on in size
// every value is whole.
pub fn round(x: f32) -> f32
    ensures { result ≡ round_of x }
{
    let y = small(x);
    let rounded = signed(float(half_up(abs(y))), y);
    if abs(x) < 8388608.0 { rounded } else { x }
}
