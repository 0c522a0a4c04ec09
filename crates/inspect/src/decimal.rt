// A binary32 number exactly, in decimal digits. A finite one is n / 2^p for whole numbers n and p, and so n * 5^p / 10^p: the digits of n * 5^p, with the
// point before the last p of them. What the digits say: specs/Decimal.antt.
ghost use Rattle.std.specs.Prelude.{◌≡◌, ◌*◌, ◌%◌, ◌^◌, ◌<◌, ◌≤◌, length};
ghost use Rattle.inspect.specs.Decimal.{number, Digits, Exactly, point_of, digits_of};
ghost use Rattle.inspect.specs.Private.{Times, Units, Written};

use cards::writer::real_bits;

// The digits are now those of the number times `by`, and `more`; what has no place among them is returned.
pub(crate) fn times(digits: &mut [u8], by: u8, more: u8) -> u8
    requires { Digits digits.old × (by ≤ 5) × (more < by) }
    ensures { Times by more digits.old result digits.new }
{
    let mut carry = more;
    for digit in digits.iter_mut() {
        let v = *digit * by + carry;
        *digit = v % 10;
        carry = v / 10;
    }
    carry
}

// Times `by`, again and again.
fn scale(digits: &mut [u8], by: u8, again: usize)
    requires { Digits digits.old × (2 ≤ by) × (by ≤ 5) × (number digits.old * by ^ again < 10 ^ 150) }
    ensures { Digits digits.new × (number digits.new ≡ number digits.old * by ^ again) }
{
    for _ in 0..again {
        times(digits, by, 0);
    }
}

// The digits of m.
fn spell(digits: &mut [u8], m: u32)
    requires { length digits.old ≡ 150 }
    ensures { Digits digits.new × (number digits.new ≡ m) }
{
    let mut rest = m;
    for digit in digits.iter_mut() {
        *digit = (rest % 10) as u8;
        rest /= 10;
    }
}

// n / 2^p.
#[derive(Clone, Copy)]
struct Fraction {
    n: u32,
    p: usize,
}

// The same value, with an odd n or with p = 0: so no digit behind the point is spare.
fn reduced(n: u32, p: usize) -> Fraction
    ensures { (result.p ≤ p) × (result.n ≤ n) × (result.n * 2 ^ p ≡ n * 2 ^ result.p) × (0 < result.p → result.n % 2 ≡ 1) }
{
    let mut n = n;
    let mut p = p;
    // No `for`: n and p are halved together, and both ends stand in one test.
    while 0 < p && n % 2 == 0 {
        n /= 2;
        p -= 1;
    }
    Fraction { n, p }
}

// A finite pattern without its sign: m * 2^e units, a unit being the smallest positive value, 2^-149.
#[derive(Clone, Copy)]
struct Parts {
    m: u32,
    e: usize,
}

fn decode(b: u32) -> Parts
    requires { b < 0x7f80_0000 }
    ensures { (result.m < 2 ^ 24) × (result.e ≤ 253) × Units b (result.m * 2 ^ result.e) }
{
    if b < 0x80_0000 {
        return Parts { m: b, e: 0 };
    }
    Parts {
        m: b % 0x80_0000 + 0x80_0000,
        e: (b / 0x80_0000 - 1) as usize,
    }
}

// The digits of m * 2^e units, and how many of them stand behind the point.
fn units(digits: &mut [u8], m: u32, e: usize) -> usize
    requires { (length digits.old ≡ 150) × (m < 2 ^ 24) × (e ≤ 253) }
    ensures { Written (m * 2 ^ e) result digits.new }
{
    if 149 < e {
        spell(digits, m);
        scale(digits, 2, e - 149);
        return 0;
    }
    let Fraction { n, p } = reduced(m, 149 - e);
    spell(digits, n);
    scale(digits, 5, p);
    p
}

// Where the point stands among the digits, and the sign.
#[derive(Clone, Copy)]
pub struct Point {
    pub negative: bool,
    // How many digits stand behind the point.
    pub places: usize,
}

// The digits of x, the last one first, and its point; of what is not finite, 0.
pub fn exact(x: f32, digits: &mut [u8; 150]) -> Point
    ensures value { Exactly x result digits.new }
    ensures point { result ≡ point_of x }
    ensures digits { digits.new ≡ digits_of x }
{
    let bits = real_bits(x);
    let b = bits % 0x8000_0000;
    if 0x7f80_0000 <= b {
        spell(digits, 0);
        return Point {
            negative: false,
            places: 0,
        };
    }
    let Parts { m, e } = decode(b);
    let places = units(digits, m, e);
    Point {
        negative: 0x8000_0000 <= bits,
        places,
    }
}
