// Persistence: each frame is mixed with the frames before it. The history is lent, frame j at word j * count, newest first. The frame
// is mixed part by part, of up to 64 words, with the same part of each place of the history; then the places shift by one, each as a whole.
ghost use Rattle.std.specs.Prelude.{◌≡◌, ◌+◌, ◌-◌, ◌*◌, ◌<◌, ◌≤◌, length, drop, slice_index, slice_index_or};
ghost use Rattle.std.proofs.Math.Seq.{paste};
ghost use Rattle.std.specs.Float.{nan};
ghost use Rattle.num.specs.F32.{◌⊕◌, ◌⊗◌};
ghost use Rattle.num.specs.Rewrite.{every, fill};
ghost use Rattle.passes.specs.Flow.{flow};
ghost use Rattle.passes.specs.Plain.Persistence as Persistence;
ghost use Rattle.passes.specs.Plain.Pixel.{channel, rgb, unpack};
ghost use Rattle.passes.specs.Painted.{painted};
ghost use Rattle.passes.specs.Private.{at, mark_clamped, blended_word, mixed_channel};

use crate::pixel::Rgb;
use crate::{blur, marks, pixel, rows};
use num::size::{Size, same};

// 1 + amount + amount * 0.55 + ..
fn total(amount: f32, depth: usize) -> f32
    ensures { result ≡ Persistence.total amount depth }
{
    let mut sum = 1.0;
    let mut weight = amount;
    for _ in 0..depth {
        sum = sum + weight;
        weight = weight * 0.55;
    }
    sum
}

// The weights of the older frames, each divided by the sum.
fn weights(out: &mut [f32], amount: f32, sum: f32)
    ensures { out.new ≡ fill (Persistence.weight amount sum) out.old }
{
    let mut weight = amount;
    for share in out.iter_mut() {
        *share = weight / sum;
        weight = weight * 0.55;
    }
}

// One channel of each word of a part, times w.
fn begin_line(acc: &mut [f32], part: &[u32], w: f32, which: usize)
    requires { length acc.old ≡ length part.now }
    ensures { acc.new ≡ fill (λ x. channel which (unpack (slice_index part.now x)) ⊗ w) acc.old }
{
    for (i, sum) in acc.iter_mut().enumerate() {
        *sum = pixel::channel(which, pixel::unpack(part[i])) * w;
    }
}

// The same, added.
fn add_line(acc: &mut [f32], part: &[u32], w: f32, which: usize)
    requires { length acc.old ≡ length part.now }
    ensures { acc.new ≡ every (λ x v. v ⊕ channel which (unpack (slice_index part.now x)) ⊗ w) acc.old }
{
    for (i, sum) in acc.iter_mut().enumerate() {
        *sum = *sum + pixel::channel(which, pixel::unpack(part[i])) * w;
    }
}

// One channel of the mix of a part, which begins at word `at` of a frame of n: the same part of each older frame is added, one after another.
fn mix_line(
    acc: &mut [f32],
    part: &[u32],
    at: usize,
    n: usize,
    w: f32,
    ws: &[f32],
    history: &[u32],
    which: usize,
)
    requires { (length acc.old ≡ length part.now) × (at + length part.now ≤ n) × (length ws.now * n ≤ length history.now) }
    ensures { acc.new ≡ fill (mixed_channel w ws.now history.now part.now n at which) acc.old }
{
    let count = part.len();
    begin_line(acc, part, w, which);
    for (j, older) in ws.iter().enumerate() {
        let start = j * n + at;
        add_line(acc, &history[start..start + count], *older, which);
    }
}

// The words of three lines of channels.
fn finish_part(part: &mut [u32], r: &[f32], g: &[f32], b: &[f32])
    requires { (length part.old ≤ length r.now) × (length part.old ≤ length g.now) × (length part.old ≤ length b.now) }
    ensures { part.new
        ≡ fill (λ x. mark_clamped (rgb (at r.now x) (at g.now x) (at b.now x))) part.old }
{
    for (i, word) in part.iter_mut().enumerate() {
        *word = marks::clamped(Rgb {
            r: r[i],
            g: g[i],
            b: b[i],
        });
    }
}

// A part that begins at word `at` of a frame of n, by way of a line for each channel: so few words of the frame and of each place of
// the history stay near from one channel to the next. The lines are made here: a line that this function returned would be copied.
fn blend_part(part: &mut [u32], at: usize, n: usize, w: f32, ws: &[f32], history: &[u32])
    requires { (length part.old ≤ 64) × (at + length part.old ≤ n) × (length ws.now * n ≤ length history.now) }
    ensures { part.new ≡ every (λ x. blended_word w (λ j. slice_index_or ws.now j nan) (length ws.now)
        history.now n (at + x)) part.old }
{
    let count = part.len();
    let mut r = blur::line::<64>();
    mix_line(&mut r[..count], part, at, n, w, ws, history, 0);
    let mut g = blur::line::<64>();
    mix_line(&mut g[..count], part, at, n, w, ws, history, 1);
    let mut b = blur::line::<64>();
    mix_line(&mut b[..count], part, at, n, w, ws, history, 2);
    finish_part(part, &r, &g, &b);
}

// Each place of the history gets the frame.
fn refill(history: &mut [u32], frame: &[u32], depth: usize)
    requires { depth * length frame.now ≤ length history.old }
    ensures { history.new ≡ Persistence.refilled depth frame.now history.old }
{
    let count = frame.len();
    for j in 0..depth {
        let at = j * count;
        rows::copy(&mut history[at..at + count], frame);
    }
}

// The places of the history shift by one: what is carried, the newest at first, is exchanged with each place in turn, and the
// oldest is left in it.
fn shift(history: &mut [u32], carried: &mut [u32], depth: usize)
    requires { depth * length carried.old ≤ length history.old }
    ensures { history.new ≡ Persistence.shifted depth carried.old history.old }
{
    let count = carried.len();
    for j in 0..depth {
        let at = j * count;
        history[at..at + count].swap_with_slice(carried);
    }
}

// The count words from `at` on become those before them.
fn repeat(history: &mut [u32], at: usize, count: usize)
    requires { (count ≤ at) × (at + count ≤ length history.old) }
    ensures { history.new ≡ paste history.old at (drop (at - count) history.old) count }
{
    let from = at - count;
    history.copy_within(from..from + count, at);
}

// The places of the history, of count words each, become `to`: the newest stay where they are, and the oldest is repeated until there
// are enough. Words past them stay.
pub fn resize(history: &mut [u32], count: usize, from: usize, to: usize)
    requires { (1 ≤ from) × (to * count ≤ length history.old) }
    ensures { history.new ≡ Persistence.resized from to count history.old }
{
    if to <= from {
        return;
    }
    for j in from..to {
        repeat(history, j * count, count);
    }
}

// The frame by parts that the lines have room for, whatever its width.
fn blend_parts(frame: &mut [u32], w: f32, ws: &[f32], history: &[u32])
    requires { length ws.now * length frame.old ≤ length history.now }
    ensures { frame.new ≡ every (blended_word w (λ j. slice_index_or ws.now j nan) (length ws.now)
        history.now (length frame.old)) frame.old }
{
    let n = frame.len();
    for at in (0..n).step_by(64) {
        let count = (n - at).min(64);
        blend_part(&mut frame[at..at + count], at, n, w, ws, history);
    }
}

// A frame of the held size: it becomes the picture, and the history gets it as it came, by way of a copy. Returns how many channels
// were clipped.
fn follow(
    frame: &mut [u32],
    history: &mut [u32],
    carried: &mut [u32],
    amount: f32,
    depth: usize,
) -> u32
    requires { (depth ≤ 8) × (depth * length frame.old ≤ length history.old) × (length carried.old ≡ length frame.old)
        × (length frame.old ≤ 1048576) }
    ensures { (painted frame.new result ≡ Persistence.blend amount depth history.old frame.old)
        × (history.new ≡ Persistence.shifted depth frame.old history.old) }
{
    rows::copy(carried, frame);
    let sum = total(amount, depth);
    let mut ws = blur::line::<8>();
    weights(&mut ws[..depth], amount, sum);
    blend_parts(frame, 1.0 / sum, &ws[..depth], history);
    let clipped = marks::collect(frame);
    shift(history, carried, depth);
    clipped
}

// What the history then holds, and how many channels were clipped.
#[derive(Clone, Copy)]
pub struct Kept {
    pub held: Size,
    pub clipped: u32,
}

// A refill clips nothing. Words of the history past depth * count stay.
pub fn apply(
    frame: &mut [u32],
    history: &mut [u32],
    scratch: &mut [u32],
    amount: f32,
    depth: u8,
    held: Size,
    size: Size,
) -> Kept
    requires { (depth ≤ 8) × (depth * length frame.old ≤ length history.old) × (length frame.old ≤ length scratch.old)
        × (length frame.old ≤ 1048576) }
    ensures { (flow (painted frame.new result.clipped) result.held history.new
        ≡ Persistence.persistence amount depth size (flow (painted frame.old 0) held history.old))
        × (drop (length frame.old) scratch.new ≡ drop (length frame.old) scratch.old) }
{
    let count = frame.len();
    if same(held, size) {
        let clipped = follow(
            frame,
            history,
            &mut scratch[..count],
            amount,
            depth as usize,
        );
        return Kept {
            held: size,
            clipped,
        };
    }
    refill(history, frame, depth as usize);
    Kept {
        held: size,
        clipped: 0,
    }
}
