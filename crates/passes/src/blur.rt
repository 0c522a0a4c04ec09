// The centre-weighted blur of NTSC and bloom. A line of accumulators takes the offsets one after the other, so that each place
// sums its own samples in ascending order. Where it can it takes four offsets at a time: the sums are then read and written once. What
// is taken is counted where it is taken: an offset of a place, where it is inside.
ghost use Rattle.std.specs.Prelude.{◌≡◌, ◌+◌, ◌-◌, ◌*◌, ◌<◌, ◌≤◌, length, take, drop};
ghost use Rattle.num.specs.F32.{◌⊕◌, ◌⊗◌};
ghost use Rattle.num.specs.Rewrite.{rewrite, every, fill};
ghost use Rattle.num.specs.Sums.{sum as sum_of};
ghost use Rattle.passes.specs.Plain.Blur as Blur;
ghost use Rattle.passes.specs.Samples.{samples as samples_of, once};
ghost use Rattle.passes.specs.Private.{at, cell, Begins, four_weights, four_added, line_onward, rows_onward, insides, blur_by};

// What a pass counts: the channels that it clipped, and the samples that its blur took.
#[derive(Clone, Copy, Debug, PartialEq)]
pub struct Counts {
    pub clipped: u32,
    pub samples: u32,
}

// 1 - distance / (radius + 1)
fn weight(radius: usize, distance: usize) -> f32
    requires { (radius ≤ 64) × (distance ≤ 64) }
    ensures { result ≡ Blur.weight radius distance }
{
    1.0 - distance as f32 / (radius as f32 + 1.0)
}

// Adds src[i] * w at each i. Returns how many samples it added.
fn add_scaled(acc: &mut [f32], src: &[f32], w: f32) -> usize
    requires { length acc.old ≡ length src.now }
    ensures { (acc.new ≡ every (λ i v. v ⊕ at src.now i ⊗ w) acc.old) × (result ≡ length acc.old) }
{
    for (i, sum) in acc.iter_mut().enumerate() {
        *sum = *sum + src[i] * w;
    }
    acc.len()
}

// The weight of offset k.
fn offset_weight(radius: usize, k: usize) -> f32
    requires { (radius ≤ 64) × (k ≤ 2 * radius) }
    ensures { result ≡ Blur.weight radius (Blur.distance radius k) }
{
    weight(radius, radius.abs_diff(k))
}

// The weights of four offsets, one after another. Named, and no array, since the definitions of specs/Private.antt name them.
#[derive(Clone, Copy, Debug, PartialEq)]
struct Four {
    a: f32,
    b: f32,
    c: f32,
    d: f32,
}

// Those of the offsets k to k + 3.
fn four_weights(radius: usize, k: usize) -> Four
    requires { (radius ≤ 64) × (k + 3 ≤ 2 * radius) }
    ensures { result ≡ four_weights radius k }
{
    Four {
        a: offset_weight(radius, k),
        b: offset_weight(radius, k + 1),
        c: offset_weight(radius, k + 2),
        d: offset_weight(radius, k + 3),
    }
}

// Adds a[i] * w.a, then b[i] * w.b, then c[i] * w.c, then d[i] * w.d at each i. Returns how many samples it added.
fn add_four(acc: &mut [f32], a: &[f32], b: &[f32], c: &[f32], d: &[f32], w: Four) -> usize
    requires { (length acc.old ≡ length a.now) × (length acc.old ≡ length b.now)
        × (length acc.old ≡ length c.now) × (length acc.old ≡ length d.now) }
    ensures { (acc.new
        ≡ every (four_added a.now b.now c.now d.now w) acc.old)
        × (result ≡ 4 * length acc.old) }
{
    for (i, sum) in acc.iter_mut().enumerate() {
        *sum = *sum + a[i] * w.a + b[i] * w.b + c[i] * w.c + d[i] * w.d;
    }
    4 * acc.len()
}

// Adds the samples at offset k of every place, those outside skipped. Returns how many it added.
fn add_offset(acc: &mut [f32], src: &[f32], radius: usize, k: usize) -> usize
    requires { (length acc.old ≡ length src.now) × (radius ≤ 64) × (k ≤ 2 * radius) }
    ensures { (acc.new ≡ every (λ x. Blur.step (λ i w. at src.now i ⊗ w) (length src.now) radius x k) acc.old)
        × (result ≡ length src.now - Blur.distance radius k) }
{
    let n = src.len();
    let to = radius.saturating_sub(k);
    let from = k.saturating_sub(radius);
    let d = to + from;
    if d < n {
        let w = weight(radius, d);
        let count = n - d;
        let to_end = to + count;
        let from_end = from + count;
        return add_scaled(&mut acc[to..to_end], &src[from..from_end], w);
    }
    0
}

// A place's sum, and how many samples were added to it.
#[derive(Clone, Copy, Debug, PartialEq)]
struct Sum {
    value: f32,
    samples: usize,
}

// The sample at offset k of place x, added where it is inside; w is the offset's weight. Left of the line x + k - radius wraps, past every index.
fn add_sample(sum: Sum, src: &[f32], radius: usize, x: usize, k: usize, w: f32) -> Sum
    requires { (radius ≤ 64) × (k ≤ 2 * radius) × (x < length src.now) × (w ≡ Blur.weight radius (Blur.distance radius k)) × (sum.samples < 4) }
    ensures { (result.value ≡ Blur.step (λ i w. at src.now i ⊗ w) (length src.now) radius x k sum.value)
        × (result.samples ≡ sum.samples + once (length src.now) radius x k) }
{
    let i = std::num::wrapping_sub_usize(x + k, radius);
    if i < src.len() {
        return Sum {
            value: sum.value + src[i] * w,
            samples: sum.samples + 1,
        };
    }
    sum
}

// The samples at the offsets k to k + 3 of place x, added where they are inside; w has their weights.
fn add_samples(sum: f32, src: &[f32], radius: usize, x: usize, k: usize, w: Four) -> Sum
    requires { (radius ≤ 64) × (k + 3 ≤ 2 * radius) × (x < length src.now) × (w ≡ four_weights radius k) }
    ensures { (result.value ≡ line_onward src.now radius k 4 x sum) × (result.samples ≡ insides (length src.now) radius k 4 x) }
{
    let one = add_sample(
        Sum {
            value: sum,
            samples: 0,
        },
        src,
        radius,
        x,
        k,
        w.a,
    );
    let two = add_sample(one, src, radius, x, k + 1, w.b);
    let three = add_sample(two, src, radius, x, k + 2, w.c);
    add_sample(three, src, radius, x, k + 3, w.d)
}

// The same at each place of a part of the line, which begins at place `start`. Returns how many samples it added.
fn add_edge(part: &mut [f32], src: &[f32], radius: usize, start: usize, k: usize, w: Four) -> usize
    requires { (radius ≤ 64) × (k + 3 ≤ 2 * radius) × (start + length part.old ≤ length src.now) × (w ≡ four_weights radius k) }
    ensures { (part.new ≡ every (λ i. line_onward src.now radius k 4 (start + i)) part.old)
        × (result ≡ sum_of (length part.old) (λ i. insides (length src.now) radius k 4 (start + i))) }
{
    let mut samples = 0;
    for (i, place) in part.iter_mut().enumerate() {
        let sum = add_samples(*place, src, radius, start + i, k, w);
        *place = sum.value;
        samples += sum.samples;
    }
    samples
}

// The same where all four are inside at each place.
fn add_middle(
    part: &mut [f32],
    src: &[f32],
    radius: usize,
    start: usize,
    k: usize,
    w: Four,
) -> usize
    requires { (radius ≤ 64) × (k + 3 ≤ 2 * radius) × (radius ≤ start + k)
        × (start + length part.old + k + 3 ≤ length src.now + radius) × (w ≡ four_weights radius k) }
    ensures { (part.new ≡ every (λ i. line_onward src.now radius k 4 (start + i)) part.old)
        × (result ≡ sum_of (length part.old) (λ i. insides (length src.now) radius k 4 (start + i))) }
{
    let from = start + k - radius;
    let end = from + part.len();
    add_four(
        part,
        &src[from..end],
        &src[from + 1..end + 1],
        &src[from + 2..end + 2],
        &src[from + 3..end + 3],
        w,
    )
}

// The same at the places of a line before the right edge. At most three places have some of the four inside and some outside to
// their left, and those before them have none inside.
fn add_to_edge(acc: &mut [f32], src: &[f32], radius: usize, k: usize, w: Four) -> usize
    requires { (length acc.old ≡ length src.now) × (radius ≤ 64) × (k + 3 ≤ 2 * radius)
        × ((radius - k) + (k + 3 - radius) < length src.now) × (w ≡ four_weights radius k) }
    ensures { (acc.new ≡ rewrite (length src.now - (k + 3 - radius)) (line_onward src.now radius k 4) acc.old)
        × (result ≡ sum_of (length src.now - (k + 3 - radius)) (insides (length src.now) radius k 4)) }
{
    let first = radius.saturating_sub(k + 3);
    let to = radius.saturating_sub(k);
    let end = src.len() - (k + 3).saturating_sub(radius);
    let edge = add_edge(&mut acc[first..to], src, radius, first, k, w);
    edge + add_middle(&mut acc[to..end], src, radius, to, k, w)
}

// The same at each place, where there are places at which all four are inside. The right edge is like the left one.
fn add_four_offsets(acc: &mut [f32], src: &[f32], radius: usize, k: usize) -> usize
    requires { (length acc.old ≡ length src.now) × (radius ≤ 64) × (k + 3 ≤ 2 * radius) × ((radius - k) + (k + 3 - radius) < length src.now) }
    ensures { (acc.new ≡ every (line_onward src.now radius k 4) acc.old)
        × (result ≡ sum_of (length src.now) (insides (length src.now) radius k 4)) }
{
    let w = four_weights(radius, k);
    let before = add_to_edge(acc, src, radius, k, w);
    let end = src.len() - (k + 3).saturating_sub(radius);
    let last = src.len() - k.saturating_sub(radius);
    before + add_edge(&mut acc[end..last], src, radius, end, k, w)
}

// What a step of a loop over the offsets took: so many offsets, and so many samples at them.
#[derive(Clone, Copy, Debug, PartialEq)]
struct Taken {
    offsets: usize,
    samples: usize,
}

// Adds samples from offset k on: at four offsets if there are places at which all are inside, else at one.
fn add_offsets(acc: &mut [f32], src: &[f32], radius: usize, k: usize) -> Taken
    requires { (length acc.old ≡ length src.now) × (radius ≤ 64) × (k ≤ 2 * radius) }
    ensures { (0 < result.offsets) × (k + result.offsets ≤ 2 * radius + 1)
        × (acc.new ≡ every (line_onward src.now radius k result.offsets) acc.old)
        × (result.samples ≡ sum_of (length src.now) (insides (length src.now) radius k result.offsets)) }
{
    let outside = radius.saturating_sub(k) + (k + 3).saturating_sub(radius);
    if k + 3 <= 2 * radius {
        if outside < src.len() {
            let samples = add_four_offsets(acc, src, radius, k);
            return Taken {
                offsets: 4,
                samples,
            };
        }
    }
    let samples = add_offset(acc, src, radius, k);
    Taken {
        offsets: 1,
        samples,
    }
}

// The sums of the weighted samples of each place of a line. Returns how many samples were taken.
fn accumulate(acc: &mut [f32], src: &[f32], radius: usize) -> usize
    requires { (length acc.old ≡ length src.now) × (radius ≤ 64) × (length src.now ≤ 1024) }
    ensures { (acc.new ≡ fill (Blur.weighted (at src.now) (length src.now) radius) acc.old)
        × (result ≡ samples_of (length src.now) radius) }
{
    acc.fill(0.0);
    let mut samples = 0usize;
    let mut k = 0usize;
    // No `for`: a step takes four offsets or one.
    while k < 2 * radius + 1 {
        let taken = add_offsets(acc, src, radius, k);
        k += taken.offsets;
        samples += taken.samples;
    }
    samples
}

// The weight of offset k, added where it is inside.
fn add_weight(sum: f32, n: usize, radius: usize, x: usize, k: usize) -> f32
    requires { (radius ≤ 64) × (k ≤ 2 * radius) × (x < 1024) }
    ensures { result ≡ Blur.step (λ i w. w) n radius x k sum }
{
    if radius <= x + k {
        if x + k - radius < n {
            return sum + offset_weight(radius, k);
        }
    }
    sum
}

// The sum of the weights at one place of a line of n samples.
pub fn weight_sum(n: usize, radius: usize, x: usize) -> f32
    requires { (radius ≤ 64) × (x < n) × (n ≤ 1024) }
    ensures { result ≡ Blur.weight_sum n radius x }
{
    let mut sum = 0.0;
    for k in 0..2 * radius + 1 {
        sum = add_weight(sum, n, radius, x, k);
    }
    sum
}

// sum / w where w is above 0, else 0
pub fn quotient(sum: f32, w: f32) -> f32
    ensures { result ≡ Blur.quotient sum w }
{
    if w > 0.0 { sum / w } else { 0.0 }
}

// Each sum divided by its weight.
fn divide(sums: &mut [f32], w: &[f32])
    requires { length sums.old ≡ length w.now }
    ensures { sums.new ≡ every (λ i v. Blur.quotient v (at w.now i)) sums.old }
{
    for (i, sum) in sums.iter_mut().enumerate() {
        *sum = quotient(*sum, w[i]);
    }
}

// Blurs a line. `w` gives each place's sum of weights. Returns how many samples were taken.
pub fn blur_line(out: &mut [f32], src: &[f32], w: &[f32], radius: usize) -> usize
    requires { (radius ≤ 64) × (length out.old ≡ length src.now) × (length w.now ≡ length src.now) × (length src.now ≤ 1024) }
    ensures { (out.new ≡ fill (blur_by (at w.now) (at src.now) (length src.now) radius) out.old)
        × (result ≡ samples_of (length src.now) radius) }
{
    let samples = accumulate(out, src, radius);
    divide(out, w);
    samples
}

// The row i of a plane.
fn row_of(plane: &[f32], width: usize, height: usize, i: usize) -> &[f32]
    requires { (i < height) × (length plane.now ≡ height * width) }
    ensures { result.now ≡ take width (drop (i * width) plane.now) }
{
    let a = i * width;
    let e = a + width;
    &plane[a..e]
}

// Adds the row at offset k of row y, unless it is outside. Returns how many rows it added: each is a sample of every column.
fn add_row(
    acc: &mut [f32],
    plane: &[f32],
    height: usize,
    radius: usize,
    y: usize,
    k: usize,
) -> usize
    requires { (radius ≤ 64) × (k ≤ 2 * radius) × (y < height) × (height ≤ 1024) × (length plane.now ≡ height * length acc.old) }
    ensures { (acc.new
        ≡ every (λ x. Blur.step (λ i w. cell plane.now (length acc.old) x i ⊗ w) height radius y k) acc.old)
        × (result ≡ once height radius y k) }
{
    if radius <= y + k {
        let i = y + k - radius;
        if i < height {
            let w = offset_weight(radius, k);
            let n = acc.len();
            add_scaled(acc, row_of(plane, n, height, i), w);
            return 1;
        }
    }
    0
}

// Adds the rows at the offsets k to k + 3 of row y, which are inside.
fn add_four_rows(acc: &mut [f32], plane: &[f32], height: usize, radius: usize, y: usize, k: usize)
    requires { (radius ≤ 64) × (k + 3 ≤ 2 * radius) × (radius ≤ y + k) × (y + k + 3 < height + radius)
        × (height ≤ 1024) × (length plane.now ≡ height * length acc.old) }
    ensures { acc.new ≡ every (rows_onward plane.now (length acc.old) height radius y k 4) acc.old }
{
    let i = y + k - radius;
    let n = acc.len();
    add_four(
        acc,
        row_of(plane, n, height, i),
        row_of(plane, n, height, i + 1),
        row_of(plane, n, height, i + 2),
        row_of(plane, n, height, i + 3),
        four_weights(radius, k),
    );
}

// Adds rows around row y, from offset k on: four if all are inside, else that at offset k. The samples are those of one column.
fn add_rows(
    acc: &mut [f32],
    plane: &[f32],
    height: usize,
    radius: usize,
    y: usize,
    k: usize,
) -> Taken
    requires { (radius ≤ 64) × (k ≤ 2 * radius) × (y < height) × (height ≤ 1024) × (length plane.now ≡ height * length acc.old) }
    ensures { (0 < result.offsets) × (k + result.offsets ≤ 2 * radius + 1)
        × (acc.new ≡ every (rows_onward plane.now (length acc.old) height radius y k result.offsets) acc.old)
        × (result.samples ≡ insides height radius k result.offsets y) }
{
    if k + 3 <= 2 * radius && radius <= y + k && y + k + 3 < height + radius {
        add_four_rows(acc, plane, height, radius, y, k);
        return Taken {
            offsets: 4,
            samples: 4,
        };
    }
    let samples = add_row(acc, plane, height, radius, y, k);
    Taken {
        offsets: 1,
        samples,
    }
}

// The sums of the weighted samples of each column around the row y. Returns how many samples were taken of one column.
pub fn accumulate_rows(
    acc: &mut [f32],
    plane: &[f32],
    height: usize,
    radius: usize,
    y: usize,
) -> usize
    requires { (radius ≤ 64) × (y < height) × (height ≤ 1024) × (length plane.now ≡ height * length acc.old) }
    ensures { (acc.new
        ≡ fill (λ x. Blur.weighted (λ i. cell plane.now (length acc.old) x i) height radius y) acc.old)
        × (result ≡ sum_of (2 * radius + 1) (once height radius y)) }
{
    acc.fill(0.0);
    let mut samples = 0usize;
    let mut k = 0usize;
    // No `for`: a step takes four offsets or one.
    while k < 2 * radius + 1 {
        let taken = add_rows(acc, plane, height, radius, y, k);
        k += taken.offsets;
        samples += taken.samples;
    }
    samples
}

// Room for a line of N samples.
pub fn line<const N: usize>() -> [f32; N]
    ensures { length result ≡ N }
{
    [0.0; N]
}

// The sums of the weights of each place of a line of n samples.
pub fn weight_line(n: usize, radius: usize) -> [f32; 1024]
    requires { (radius ≤ 64) × (n ≤ 1024) }
    ensures { Begins 1024 n (Blur.weight_sum n radius) result }
{
    let mut out = line::<1024>();
    for (x, sum) in out[..n].iter_mut().enumerate() {
        *sum = weight_sum(n, radius, x);
    }
    out
}
