// What a band gives to each rectangle: the difference of two running sums.
ghost use Rattle.std.specs.Prelude.{◌≡◌};
ghost use Rattle.areas.specs.Private.{Growing, colour_between, shared_out, Shareable};

use super::area::{Part, area_at, part_of};

// A number for each channel.
#[derive(Clone, Copy)]
struct Colour {
    red: u64,
    green: u64,
    blue: u64,
}

// What the sums grow by over these columns.
#[tactic(auto, unfolding(crate::specs::Private::colour_between))]
fn between(sums: &[u64], p: Part) -> Colour
    requires { Growing sums.now p }
    ensures { result ≡ colour_between sums.now p }
{
    let s = 3 * p.from;
    let e = 3 * p.to;
    Colour {
        red: sums[e] - sums[s],
        green: sums[e + 1] - sums[s + 1],
        blue: sums[e + 2] - sums[s + 2],
    }
}

// To all rectangles, channel by channel.
pub(crate) fn share(areas: &[u16], y: usize, sums: &[u64], res: &mut [u64])
    requires { Shareable areas.now y sums.now res.old }
    ensures { res.new ≡ shared_out areas.now y sums.now res.old }
{
    for k in 0..areas.len() / 4 {
        let t = between(sums, part_of(area_at(areas, k), y));
        let i = 3 * k;
        res[i] += t.red;
        res[i + 1] += t.green;
        res[i + 2] += t.blue;
    }
}
