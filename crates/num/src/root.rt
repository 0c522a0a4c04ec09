// The square root, correctly rounded: the binary32 nearest the true root. A value is taken apart into whole digits and a power
// of two, the digits are scaled by their leading zeros, their whole root is found digit by digit, and the two are put together
// again. The roots of many values are found side by side, two digits of each in a pass over all: a digit waits for the one
// before it, and the values do not wait for one another. There is no table, and no product, quotient or remainder of two
// variables: `oracle/products` searches for them. It lets no function of std by but `len`, so the loops go by a number and not by
// `iter_mut`, and zeros are not written by `fill`. Definition: specs/Root.antt; that it is the nearest value: specs/NearestRoot.antt.
ghost use Rattle.std.specs.Prelude.{◌≡◌, false, ◌+◌, ◌-◌, ◌*◌, ◌/◌, ◌^◌, ◌≤◌, ◌<◌, length};
ghost use Rattle.std.specs.Float.{binary32};
ghost use Rattle.std.specs.Float.Ieee.{of_bits};
ghost use Rattle.std.specs.Float.Ieee.Exact.{HasValue};
ghost use Rattle.num.specs.Rewrite.{every, fill};
ghost use Rattle.num.specs.Root.{whole_root, nearest_root, root_of};
ghost use Rattle.num.specs.Private.{operand, Makes, Answers, Readied, HasDigits, Further};
ghost use Rattle.num.specs.Private.{AllReadied, AllDigits, MoreDigits, Wholes, WholeRoots, AllAnswer};

// A positive finite value: m * 2^(e - 150).
#[derive(Clone, Copy)]
struct Parts {
    m: u32,
    e: u32,
}

fn decode(b: u32) -> Parts
    requires { (0 < b) × (b < 0x7f80_0000) }
    ensures { (0 < result.m) × (result.m < 2 ^ 24) × (0 < result.e) × (result.e < 255)
        × HasValue (of_bits binary32 b) false (result.m * 2 ^ (result.e - 1)) (2 ^ 149) }
{
    if b < 0x80_0000 {
        Parts { m: b, e: 1 }
    } else {
        Parts {
            m: b % 0x80_0000 + 0x80_0000,
            e: b / 0x80_0000,
        }
    }
}

// x where it is above 0, and 1 elsewhere, at a NaN too.
fn above_zero(x: f32) -> f32
    ensures { result ≡ operand x }
{
    if 0.0 < x { x } else { 1.0 }
}

// The pattern b where it is finite, and that of 1 elsewhere.
fn finite(b: u32) -> u32
    requires { 0 < b }
    ensures { (0 < result) × (result < 0x7f80_0000) × (b < 0x7f80_0000 → result ≡ b) }
{
    if b < 0x7f80_0000 { b } else { 0x3f80_0000 }
}

// The digits of an operand, scaled, and the pattern of the power of two that goes with their root.
#[derive(Clone, Copy)]
struct Scaled {
    digits: u32,
    power: u32,
}

// m * 2^(e - 150), scaled: m by its leading zeros to 24 digits, or to 25 where that leaves an odd power of two.
fn scale(m: u32, e: u32) -> Scaled
    requires { (0 < m) × (m < 2 ^ 24) × (0 < e) × (e < 255) }
    ensures { (result.digits < 2 ^ 25) × Makes (whole_root (result.digits * 2 ^ 25)) result.power (nearest_root (m * 2 ^ (e + 148))) }
{
    let zeros = u32::leading_zeros(m);
    let p = e + 33 - zeros;
    Scaled {
        digits: m << (zeros - 8 + p % 2),
        power: (p / 2 + 50) * 0x80_0000,
    }
}

// The same of x, and of 1 where no root of x is asked for: where it is not above 0 or not finite.
fn ready(x: f32) -> Scaled
    ensures { Readied x result.digits result.power }
{
    let v = decode(finite(f32::to_bits(above_zero(x))));
    scale(v.m, v.e)
}

// The same of each value.
fn begin(rest: &mut [u32], power: &mut [u32], xs: &[f32])
    requires { (length rest.old ≡ length xs.now) × (length power.old ≡ length xs.now) }
    ensures { AllReadied xs.now rest.new power.new }
{
    for i in 0..xs.len() {
        let v = ready(xs[i]);
        rest[i] = v.digits;
        power[i] = v.power;
    }
}

fn clear(line: &mut [u32])
    ensures { line.new ≡ fill (λ i. 0) line.old }
{
    for i in 0..line.len() {
        line[i] = 0;
    }
}

// Twice what is found of a root, its digits from the first down to some place, and what their square leaves of the operand, in
// units of half that place.
#[derive(Clone, Copy)]
struct Found {
    rest: u32,
    twice: u32,
}

// One digit more: that of `place`. Compared as `i32`, since the processor's vector comparison is the signed one.
fn turn(f: Found, place: u32) -> Found
    requires { HasDigits f.rest f.twice (2 * place) }
    ensures { Further f.rest f.twice (2 * place) result.rest result.twice place }
{
    let trial = f.twice + place;
    let mut taken = 0;
    let mut digit = 0;
    if trial as i32 <= f.rest as i32 {
        taken = trial;
        digit = place + place;
    }
    let rest = f.rest - taken;
    Found {
        rest: rest + rest,
        twice: f.twice + digit,
    }
}

// Two digits more of each root: those of twice the place, and of the place.
fn digits(rest: &mut [u32], twice: &mut [u32], place: u32)
    requires { AllDigits (4 * place) rest.old twice.old }
    ensures { MoreDigits place rest.old twice.old rest.new twice.new }
{
    for i in 0..rest.len() {
        let found = Found {
            rest: rest[i],
            twice: twice[i],
        };
        let found = turn(turn(found, place + place), place);
        rest[i] = found.rest;
        twice[i] = found.twice;
    }
}

// Twice the whole root of m * 2^25, for each m in `rest`: 26 digits, from place 2^25 down, two in a pass. (The first is 0: the
// passes are whole.)
fn whole_roots(rest: &mut [u32], twice: &mut [u32])
    requires { Wholes rest.old twice.old }
    ensures { WholeRoots rest.old twice.new }
{
    clear(twice);
    let mut place = 0x400_0000u32;
    for _pass in 0..13u32 {
        place /= 4;
        digits(rest, twice, place);
    }
}

// The root of x from the digits found and the power, where it is asked for, and 0 elsewhere.
fn put(x: f32, twice: u32, power: u32) -> f32
    requires { Answers x (twice / 2) power }
    ensures { result ≡ root_of x }
{
    let b = f32::to_bits(above_zero(x));
    let r = f32::from_bits((twice / 2 + 1) / 2 + power);
    if 0.0 < x && b < 0x7f80_0000 { r } else { 0.0 }
}

fn finish(xs: &mut [f32], twice: &[u32], power: &[u32])
    requires { AllAnswer xs.old twice.now power.now }
    ensures { xs.new ≡ every (λ i. root_of) xs.old }
{
    for i in 0..xs.len() {
        xs[i] = put(xs[i], twice[i], power[i]);
    }
}

// The root of each value, by way of three lines as long.
fn find(xs: &mut [f32], rest: &mut [u32], twice: &mut [u32], power: &mut [u32])
    requires { (length rest.old ≡ length xs.old) × (length twice.old ≡ length xs.old) × (length power.old ≡ length xs.old) }
    ensures { xs.new ≡ every (λ i. root_of) xs.old }
{
    begin(rest, power, xs);
    whole_roots(rest, twice);
    finish(xs, twice, power);
}

// Room for a line: the vignette's of a frame that is 256 wide is 129 long.
fn line() -> [u32; 132]
    ensures { length result ≡ 132 }
{
    [0; 132]
}

// As many values as a line has room for.
fn part(xs: &mut [f32])
    requires { length xs.old ≤ 132 }
    ensures { xs.new ≡ every (λ i. root_of) xs.old }
{
    let n = xs.len();
    let mut rest = line();
    let mut twice = line();
    let mut power = line();
    find(xs, &mut rest[..n], &mut twice[..n], &mut power[..n]);
}

// Where the part from `at` on ends.
fn part_end(at: usize, n: usize) -> usize
    requires { at < n }
    ensures { (at < result) × (result ≤ n) × (result ≤ at + 132) }
{
    if n - at < 132 { n } else { at + 132 }
}

// The root of each value: 0 for a zero, for one below 0 and for one that is not finite.
pub fn roots(xs: &mut [f32])
    ensures { xs.new ≡ every (λ i. root_of) xs.old }
{
    let mut at = 0;
    while at < xs.len() {
        let end = part_end(at, xs.len());
        part(&mut xs[at..end]);
        at = end;
    }
}

// The binary32 nearest to the square root of x; 0 for a zero, for an x below 0 and for one that is not finite.
pub fn root(x: f32) -> f32
    ensures { result ≡ root_of x }
{
    let mut one = [x];
    roots(&mut one);
    one[0]
}
