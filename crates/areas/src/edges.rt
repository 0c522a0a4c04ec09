// Where a band of rows ends, and from where to where it is held.
ghost use Rattle.std.specs.Prelude.{◌≡◌, cond, ◌+◌, ◌<◌, ◌≤◌, ltb};
ghost use Rattle.areas.specs.Areas.{count, held};
ghost use Rattle.areas.specs.Private.{Placed, Edge, Edges, Spans};

use super::area::{Area, Part, area_at, part_of};

// The first row after y where the rectangle begins or ends; `last` where there is none.
fn edge(a: Area, y: usize, last: usize) -> usize
    requires { (a.top + a.high ≤ 1024) × (y < last) }
    ensures { Edge a y result }
{
    if y < a.top {
        a.top
    } else if y < a.top + a.high {
        a.top + a.high
    } else {
        last
    }
}

// The first row after y where one of the rectangles does; else the height.
#[tactic(auto, using(crate::proofs::Search::no_edges, crate::proofs::Search::next_edge, crate::proofs::Search::placed_at))]
pub(crate) fn band_end(areas: &[u16], y: usize, height: usize) -> usize
    requires { (Placed 1024 1024 areas.now) × (y < height) }
    ensures { Edges areas.now (count areas.now) y height result }
{
    let mut end = height;
    for k in 0..areas.len() / 4 {
        end = end.min(edge(area_at(areas, k), y, height));
    }
    end
}

// Where the part begins if it has a place; else `last`.
fn begin(p: Part, last: usize) -> usize
    ensures { result ≡ cond (ltb p.from p.to) p.from last }
{
    if p.from < p.to { p.from } else { last }
}

// From the first place of row y that a rectangle holds to where the last of its rectangles ends. Empty where none is held.
#[tactic(auto, using(crate::proofs::Search::no_span, crate::proofs::Search::placed_at, crate::proofs::Search::placed_in))]
pub(crate) fn span(areas: &[u16], y: usize, width: usize) -> Part
    requires { (Placed width 1024 areas.now) × (width ≤ 1024) }
    ensures { Spans (λ z. held areas.now z y) width result }
{
    let mut from = width;
    let mut to: usize = 0;
    for k in 0..areas.len() / 4 {
        let p = part_of(area_at(areas, k), y);
        from = from.min(begin(p, width));
        to = to.max(p.to);
    }
    Part {
        from: from.min(to),
        to,
    }
}
