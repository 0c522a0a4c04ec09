// The enlarged frame of a source, as crate cabinet makes it. Nothing here is assumed but what `enlarge` asks for.
ghost use Rattle.std.specs.Prelude.{◌≡◌, ◌*◌};
ghost use Rattle.passes.specs.Rows.{sampled};
ghost use Rattle.cabinet.specs.Promises.{Sourced};
ghost use Rattle.cabinet.specs.Source.{enlarged_at};

#[unsafe(no_mangle)]
pub extern "C" fn probe_enlarge(
    out: &mut [u32],
    picture: &[u8],
    width: usize,
    height: usize,
    colours: &[u32],
)
    requires { Sourced width height picture.now colours.now out.old }
    ensures { out.new ≡ sampled (3 * width) (enlarged_at width picture.now colours.now) out.old }
{
    cabinet::enlarge::enlarge(out, picture, width, height, colours)
}
