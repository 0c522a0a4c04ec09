// Exports of the passes, each with the contract of the pass itself. Those that clip channels answer how many; those that blur put the number of samples
// into `samples`.
ghost use Rattle.std.specs.Prelude.{◌≡◌, ◌*◌, ◌≤◌, ◌<◌, length, get_or, drop};
ghost use Rattle.passes.specs.Plain.Bloom as Bloom;
ghost use Rattle.passes.specs.Plain.Crt as Crt;
ghost use Rattle.passes.specs.Plain.Curvature as Curvature;
ghost use Rattle.passes.specs.ColorCorrection.{Enough};
ghost use Rattle.passes.specs.Flow.{flow};
ghost use Rattle.passes.specs.Painted.{painted};
ghost use Rattle.passes.specs.Plain.Ntsc as Ntsc;
ghost use Rattle.passes.specs.Plain.Persistence as Persistence;
ghost use Rattle.passes.specs.Rows.{Frame};
ghost use Rattle.passes.specs.Samples.{ntsc_samples, bloom_samples};
ghost use Rattle.passes.specs.Plain.AutoGradient as AutoGradient;
ghost use Rattle.passes.specs.Plain.ColorCorrection as ColorCorrection;
ghost use Rattle.passes.specs.Plain.Lut as Lut;
ghost use Rattle.passes.specs.Plain.Scanlines as Scanlines;
ghost use Rattle.passes.specs.Plain.Vignette as Vignette;
ghost use Rattle.probe.specs.Sizes.{size_in};

use num::size::Size;

#[unsafe(no_mangle)]
pub extern "C" fn probe_auto_gradient(
    frame: &mut [u32],
    width: usize,
    height: usize,
    strength: f32,
    vertical: f32,
    horizontal: f32,
) -> u32
    requires { Frame width height frame.old }
    ensures { painted frame.new result ≡ AutoGradient.auto_gradient width height strength vertical horizontal frame.old }
{
    passes::auto_gradient::apply(frame, width, height, strength, vertical, horizontal)
}

#[unsafe(no_mangle)]
pub extern "C" fn probe_bloom(
    frame: &mut [u32],
    scratch: &mut [f32],
    width: usize,
    height: usize,
    threshold: u8,
    strength: f32,
    radius: usize,
    samples: &mut [u32; 1],
) -> u32
    requires { (Frame width height frame.old) × ((radius ≤ 64) × (3 * length frame.old ≤ length scratch.old)) }
    ensures { (painted frame.new result ≡ Bloom.bloom width height threshold strength radius frame.old)
        × (get_or samples.new 0 0 ≡ bloom_samples width height radius)
        × (drop (3 * length frame.old) scratch.new ≡ drop (3 * length frame.old) scratch.old) }
{
    let counts = passes::bloom::apply(frame, scratch, width, height, threshold, strength, radius);
    *samples = [counts.samples];
    counts.clipped
}

#[unsafe(no_mangle)]
pub extern "C" fn probe_color_correction(
    frame: &mut [u32],
    curve: &[f32],
    brightness: f32,
    contrast: f32,
    saturation: f32,
    gamma: f32,
) -> u32
    requires { (length frame.old ≤ 1048576) × (Enough gamma curve.now) }
    ensures { painted frame.new result
        ≡ ColorCorrection.color_correction curve.now brightness contrast saturation gamma frame.old }
{
    passes::color_correction::apply(frame, curve, brightness, contrast, saturation, gamma)
}

#[unsafe(no_mangle)]
pub extern "C" fn probe_crt(frame: &mut [u32], width: usize, height: usize, strength: f32)
    requires { Frame width height frame.old }
    ensures { frame.new ≡ Crt.crt width height strength frame.old }
{
    passes::crt::apply(frame, width, height, strength);
}

#[unsafe(no_mangle)]
pub extern "C" fn probe_curvature(
    frame: &mut [u32],
    scratch: &mut [u32],
    width: usize,
    height: usize,
    amount: f32,
)
    requires { (Frame width height frame.old) × (length frame.old ≤ length scratch.old) }
    ensures { (frame.new ≡ Curvature.curvature width height amount frame.old)
        × (drop (length frame.old) scratch.new ≡ drop (length frame.old) scratch.old) }
{
    passes::curvature::apply(frame, scratch, width, height, amount);
}

#[unsafe(no_mangle)]
pub extern "C" fn probe_lut(frame: &mut [u32], preset: u8, strength: f32) -> u32
    requires { length frame.old ≤ 1048576 }
    ensures { painted frame.new result ≡ Lut.lut preset strength frame.old }
{
    passes::lut::apply(frame, preset, strength)
}

#[unsafe(no_mangle)]
pub extern "C" fn probe_ntsc(
    frame: &mut [u32],
    width: usize,
    height: usize,
    strength: f32,
    bleed: usize,
    samples: &mut [u32; 1],
) -> u32
    requires { (Frame width height frame.old) × (bleed ≤ 64) }
    ensures { (painted frame.new result ≡ Ntsc.ntsc width strength bleed frame.old)
        × (get_or samples.new 0 0 ≡ ntsc_samples width height bleed) }
{
    let counts = passes::ntsc::apply(frame, width, height, strength, bleed);
    *samples = [counts.samples];
    counts.clipped
}

fn size_in(sides: &[u16; 2]) -> Size
    ensures { result ≡ size_in sides.now }
{
    Size {
        width: sides[0],
        height: sides[1],
    }
}

// `held` is the width and the height that the history holds, `size` those of the frame, which it holds afterwards. Puts the number of
// clipped channels into `clipped`.
#[unsafe(no_mangle)]
pub extern "C" fn probe_persistence(
    frame: &mut [u32],
    history: &mut [u32],
    scratch: &mut [u32],
    amount: f32,
    depth: u8,
    held: &[u16; 2],
    size: &[u16; 2],
    clipped: &mut [u32; 1],
)
    requires { (depth ≤ 8) × (depth * length frame.old ≤ length history.old) × (length frame.old ≤ length scratch.old)
        × (length frame.old ≤ 1048576) }
    ensures { (flow (painted frame.new (get_or clipped.new 0 0)) (size_in size.now) history.new
        ≡ Persistence.persistence amount depth (size_in size.now)
        (flow (painted frame.old 0) (size_in held.now) history.old))
        × (drop (length frame.old) scratch.new ≡ drop (length frame.old) scratch.old) }
{
    let before = size_in(held);
    let now = size_in(size);
    let kept = passes::persistence::apply(frame, history, scratch, amount, depth, before, now);
    *clipped = [kept.clipped];
}

#[unsafe(no_mangle)]
pub extern "C" fn probe_scanlines(frame: &mut [u32], width: usize, height: usize, strength: f32)
    requires { Frame width height frame.old }
    ensures { frame.new ≡ Scanlines.scanlines width strength frame.old }
{
    passes::scanlines::apply(frame, width, height, strength);
}

#[unsafe(no_mangle)]
pub extern "C" fn probe_vignette(
    frame: &mut [u32],
    scratch: &mut [f32],
    width: usize,
    height: usize,
    strength: f32,
)
    requires { Frame width height frame.old × (0 < width) × (0 < height) × (length frame.old ≤ length scratch.old) }
    ensures { (frame.new ≡ Vignette.vignette width height strength frame.old)
        × (drop (length frame.old) scratch.new ≡ drop (length frame.old) scratch.old) }
{
    passes::vignette::apply(frame, scratch, width, height, strength);
}
