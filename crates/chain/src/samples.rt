// How many samples the blurs of a frame take, of a station and a size: no frame is asked for. Here by the formula, where a frame
// counts them as it goes; both are proved to be the one definition, `samples_in`.
ghost use Rattle.std.specs.Prelude.{◌≡◌, true, ◌≤◌};
ghost use Rattle.passes.specs.Samples.{samples as samplesOn};
ghost use Rattle.cards.specs.Alike.{chain_of};
ghost use Rattle.cards.specs.Normal.{normal_pass, good_station};
ghost use Rattle.chain.specs.Answers.{reported_number};
ghost use Rattle.chain.specs.Calls.{samples_report};
ghost use Rattle.chain.specs.Chain.{samples_of, record_samples, samples_in};

use cards::station::{Pass, Record, Station};
use num::refusal::Refusal;
use num::size::bad_side;

// S(n, r): of a line of n places, at radius r.
fn line(n: usize, r: usize) -> usize
    requires { (n ≤ 1024) × (r ≤ 64) }
    ensures { result ≡ samplesOn n r }
{
    if r < n {
        return n * (2 * r + 1) - r * (r + 1);
    }
    n * n
}

// Of a pass: NTSC blurs each row, bloom each row and then each column.
fn of_pass(pass: Pass, width: usize, height: usize) -> usize
    requires { (normal_pass pass ≡ true) × (width ≤ 1024) × (height ≤ 1024) }
    ensures { result ≡ samples_of width height pass }
{
    match pass {
        Pass::Ntsc { bleed, .. } => height * line(width, bleed as usize),
        Pass::Bloom { radius, .. } => {
            let r = radius as usize;
            height * line(width, r) + width * line(height, r)
        }
        _ => 0,
    }
}

// Of a record: its pass's, where it is on.
#[tactic(auto, unfolding(crate::specs::Chain::record_samples))]
fn of_record(rec: &Record, width: usize, height: usize) -> usize
    requires { (normal_pass rec.now.pass ≡ true) × (width ≤ 1024) × (height ≤ 1024) }
    ensures { result ≡ record_samples width height rec.now }
{
    if rec.on {
        of_pass(rec.pass, width, height)
    } else {
        0
    }
}

// Of a station's chain.
fn of_chain(station: &Station, width: usize, height: usize) -> usize
    requires { (good_station station.now ≡ true) × (width ≤ 1024) × (height ≤ 1024) }
    ensures { (result ≡ samples_in width height (chain_of station.now)) × (result ≤ 3246391296) }
{
    let records = station.chain();
    let mut sum = 0;
    for rec in records {
        sum += of_record(rec, width, height);
    }
    sum
}

// How many samples a frame of that size takes; refused as a frame is, but for what a frame is lent.
#[tactic(auto, unfolding(crate::specs::Calls::samples_stops, num::specs::Refusals::unless))]
pub fn samples(station: &Station, width: usize, height: usize) -> Result<u32, Refusal>
    ensures { reported_number result ≡ samples_report width height station.now }
{
    if !station.is_good() {
        return Err(Refusal::BadStation);
    }
    if bad_side(width) || bad_side(height) {
        return Err(Refusal::BadSize);
    }
    Ok(of_chain(station, width, height) as u32)
}
