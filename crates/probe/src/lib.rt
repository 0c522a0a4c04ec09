// Exports for the comparison with Rust in oracle/. Here the number steps: those of one operand over slices, those of several
// on numbers. Each is the step of crate num and nothing more. Nothing here is assumed.
#![tactic(auto)]

mod card;
mod pass;
mod sheet;
mod source;
mod text;

ghost use Rattle.std.specs.Prelude.{◌≡◌, min};
ghost use Rattle.num.specs.Const.{c0_0, c1_0, c255_0};
ghost use Rattle.num.specs.F32.{◌⊗◌};
ghost use Rattle.num.specs.Steps.{clamp_of, min_of, max_of, limit_of, abs_of, cut_of, round_of};
ghost use Rattle.num.specs.Root.{root_of};
ghost use Rattle.num.specs.Rewrite.{every};
ghost use Rattle.probe.specs.Over.{over};

// The lesser of two lengths.
fn shorter(a: usize, b: usize) -> usize
    ensures { result ≡ min a b }
{
    if a < b { a } else { b }
}

// Each `out` word is the cut of the `xs` word at its place, as far as both go.
#[unsafe(no_mangle)]
pub extern "C" fn probe_cut(xs: &[f32], out: &mut [u32])
    ensures { out.new ≡ over cut_of xs.now out.old }
{
    let n = shorter(xs.len(), out.len());
    let mut i = 0;
    while i < n {
        out[i] = num::whole::cut(xs[i]);
        i += 1;
    }
}

#[unsafe(no_mangle)]
pub extern "C" fn probe_cut_clamped(xs: &[f32], out: &mut [u32])
    ensures { out.new ≡ over (λ x. cut_of (clamp_of x c0_0 c255_0)) xs.now out.old }
{
    let n = shorter(xs.len(), out.len());
    let mut i = 0;
    while i < n {
        out[i] = num::whole::cut_clamped(xs[i]);
        i += 1;
    }
}

#[unsafe(no_mangle)]
pub extern "C" fn probe_cut_unit(xs: &[f32], out: &mut [u32])
    ensures { out.new ≡ over (λ x. cut_of (clamp_of x c0_0 c1_0 ⊗ c255_0)) xs.now out.old }
{
    let n = shorter(xs.len(), out.len());
    let mut i = 0;
    while i < n {
        out[i] = num::whole::cut_unit(xs[i]);
        i += 1;
    }
}

#[unsafe(no_mangle)]
pub extern "C" fn probe_nearest(xs: &[f32], out: &mut [u32])
    ensures { out.new ≡ over (λ x. cut_of (round_of x)) xs.now out.old }
{
    let n = shorter(xs.len(), out.len());
    let mut i = 0;
    while i < n {
        out[i] = num::whole::nearest(xs[i]);
        i += 1;
    }
}

#[unsafe(no_mangle)]
pub extern "C" fn probe_round(xs: &[f32], out: &mut [f32])
    ensures { out.new ≡ over round_of xs.now out.old }
{
    let n = shorter(xs.len(), out.len());
    let mut i = 0;
    while i < n {
        out[i] = num::whole::round(xs[i]);
        i += 1;
    }
}

// In place, since that is how num has its loop.
#[unsafe(no_mangle)]
pub extern "C" fn probe_root(xs: &mut [f32])
    ensures { xs.new ≡ every (λ i. root_of) xs.old }
{
    num::root::roots(xs);
}

#[unsafe(no_mangle)]
pub extern "C" fn probe_clamp(x: f32, lo: f32, hi: f32) -> f32
    ensures { result ≡ clamp_of x lo hi }
{
    num::steps::clamp(x, lo, hi)
}

#[unsafe(no_mangle)]
pub extern "C" fn probe_min(a: f32, b: f32) -> f32
    ensures { result ≡ min_of a b }
{
    num::steps::min(a, b)
}

#[unsafe(no_mangle)]
pub extern "C" fn probe_max(a: f32, b: f32) -> f32
    ensures { result ≡ max_of a b }
{
    num::steps::max(a, b)
}

#[unsafe(no_mangle)]
pub extern "C" fn probe_limit(x: f32, lo: f32, hi: f32) -> f32
    ensures { result ≡ limit_of x lo hi }
{
    num::steps::limit(x, lo, hi)
}

#[unsafe(no_mangle)]
pub extern "C" fn probe_abs(x: f32) -> f32
    ensures { result ≡ abs_of x }
{
    num::steps::abs(x)
}
