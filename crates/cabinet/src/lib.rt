// The cabinet: a picture of numbers with its colours, each pixel enlarged to three by three, under a station's chain. It knows the station by what
// chain's calls promise.
#![tactic(auto)]

ghost use Rattle.cabinet.specs.Promises.{Shows};
ghost use Rattle.cabinet.specs.Source.{source_stops};
ghost use Rattle.num.specs.Refusals.{code};
ghost use Rattle.std.specs.Prelude.{◌≡◌};

pub mod enlarge; // three by three words for each pixel

use cards::station::Station;
use chain::pipeline;
use chain::refusals::stops;
use num::refusal::Refusal;
use passes::blur::Counts;

#[tactic(auto, unfolding(crate::specs::Source::source_stops), using(crate::proofs::Sources::small))]
// What is wrong with a source, by its sides and how many numbers and colours are lent.
pub fn source_stops(
    width: usize,
    height: usize,
    numbers: usize,
    colours: usize,
) -> Result<(), Refusal>
    ensures { code result ≡ source_stops width height numbers colours }
{
    if enlarge::bad_side(width) || enlarge::bad_side(height) {
        return Err(Refusal::BadSource);
    }
    if numbers < height * width || colours < 64 {
        return Err(Refusal::BadSource);
    }
    Ok(())
}

// A frame of the source: the source is looked at first, then the station is asked, and only then a word is written.
pub fn show(
    station: &mut Station,
    picture: &[u8],
    width: usize,
    height: usize,
    colours: &[u32],
    framebuffer: &mut [u32],
    history: &mut [u32],
    floats: &mut [f32],
    ints: &mut [u32],
    curve: &[f32],
) -> Result<Counts, Refusal>
    ensures { Shows width height picture.now colours.now station.old framebuffer.old
        history.old floats.old ints.old curve.now result station.new framebuffer.new
        history.new floats.new ints.new }
{
    source_stops(width, height, picture.len(), colours.len())?;
    let wide = 3 * width;
    let high = 3 * height;
    stops(
        station,
        wide,
        high,
        framebuffer.len(),
        history.len(),
        floats.len(),
        ints.len(),
        curve,
    )?;
    let count = high * wide;
    enlarge::enlarge(&mut framebuffer[..count], picture, width, height, colours);
    pipeline::apply(
        station,
        framebuffer,
        wide,
        high,
        history,
        floats,
        ints,
        curve,
    )
}
