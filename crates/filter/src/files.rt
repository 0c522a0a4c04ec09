// Frames: read, looked at, and shown.
ghost use Rattle.std.specs.Prelude.{IfSome};
ghost use Rattle.io.specs.Counts.{IsPrefixLen};

use crate::says;
use cards::station::Station;
use cli::{input, output};
use frames::NotTaken;
use passes::blur::Counts;

// How many bytes the frame that argument i names has, at the start of the buffer. Where it cannot be taken it is said why.
pub fn taken(rt: HostRuntime, i: usize, file: &mut [u8]) -> Option<usize>
    ensures { IfSome result (λ n. IsPrefixLen n file.new) }
{
    let loaded = input::named(rt, i, file);
    if !loaded.ok {
        return None;
    }
    let n = loaded.length;
    if let Some(why) = frames::fault(&file[..n], loaded.more, 61440) {
        says::no_frame(rt, i, why);
        return None;
    }
    Some(n)
}

// Writes the picture, whose frame reported the counts.
fn picture(rt: HostRuntime, i: usize, counts: Counts, tell: bool, file: &[u8]) -> bool {
    let written = output::end(rt, file);
    if written.is_err() {
        output::told(written);
        return false;
    }
    if tell {
        says::counts(rt, i, counts);
    }
    true
}

// Writes the picture, or says why there is none. Whether it was written.
fn write(
    rt: HostRuntime,
    i: usize,
    outcome: Result<Counts, NotTaken>,
    tell: bool,
    file: &[u8],
) -> bool {
    match outcome {
        Ok(counts) => picture(rt, i, counts, tell, file),
        Err(NotTaken::NoFrame(why)) => {
            says::no_frame(rt, i, why);
            false
        }
        Err(NotTaken::Refused(why)) => {
            says::no_picture(rt, i, why);
            false
        }
    }
}

// Filters the frame in these bytes, which argument i named, and writes the picture. With `tell` it is said what the frame reported. Whether the picture
// was written.
pub fn show(
    rt: HostRuntime,
    station: &mut Station,
    i: usize,
    tell: bool,
    file: &mut [u8],
    words: &mut [u32; 61440],
    history: &mut [u32; 1474560],
    floats: &mut [f32; 187392],
    ints: &mut [u32; 61440],
    curve: &[f32],
) -> bool {
    let outcome = frames::filter(station, file, words, history, floats, ints, curve);
    write(rt, i, outcome, tell, file)
}

// The frame that argument i names.
pub fn play(
    rt: HostRuntime,
    station: &mut Station,
    i: usize,
    tell: bool,
    file: &mut [u8],
    words: &mut [u32; 61440],
    history: &mut [u32; 1474560],
    floats: &mut [f32; 187392],
    ints: &mut [u32; 61440],
    curve: &[f32],
) -> bool {
    let loaded = input::named(rt, i, file);
    if !loaded.ok {
        return false;
    }
    let n = loaded.length;
    show(
        rt,
        station,
        i,
        tell,
        &mut file[..n],
        words,
        history,
        floats,
        ints,
        curve,
    )
}
