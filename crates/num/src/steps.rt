// Steps that choose among their operands: clamp, min, max, limit, abs. Definitions: specs/Steps.antt.
ghost use Rattle.std.specs.Prelude.{◌≡◌};
ghost use Rattle.num.specs.Steps.{clamp_of, min_of, max_of, plus_zero_of, limit_of, abs_of};

// The low end where x is below it, the high end where x is above that, else x. A NaN stays a NaN.
pub fn clamp(x: f32, lo: f32, hi: f32) -> f32
    ensures { result ≡ clamp_of x lo hi }
{
    if x < lo {
        lo
    } else if x > hi {
        hi
    } else {
        x
    }
}

// The lesser of the two, and b where they are equal or one is a NaN.
pub fn min(a: f32, b: f32) -> f32
    ensures { result ≡ min_of a b }
{
    if a < b { a } else { b }
}

// The greater of the two, and b where they are equal or one is a NaN.
pub fn max(a: f32, b: f32) -> f32
    ensures { result ≡ max_of a b }
{
    if a > b { a } else { b }
}

// x, with -0.0 as 0.0.
fn plus_zero(x: f32) -> f32
    ensures { result ≡ plus_zero_of x }
{
    if x == 0.0 { 0.0 } else { x }
}

// A card's setting brought to lo..hi, with -0.0 as 0.0.
pub fn limit(x: f32, lo: f32, hi: f32) -> f32
    ensures { result ≡ limit_of x lo hi }
{
    clamp(plus_zero(x), lo, hi)
}

// x without its sign: -0.0 gives 0.0.
pub fn abs(x: f32) -> f32
    ensures { result ≡ abs_of x }
{
    if x < 0.0 { -x } else { plus_zero(x) }
}
