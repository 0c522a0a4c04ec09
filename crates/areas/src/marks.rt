// A line of marks, for the places of a row: at each the farthest end of the rectangles that begin there or before it. So a
// place is held if its mark is past it, and then all is held up to its mark.
ghost use Rattle.std.specs.Prelude.{◌≡◌, ◌≤◌, length};
ghost use Rattle.areas.specs.Areas.{count, held};
ghost use Rattle.areas.specs.Private.{Placed, Spans, Changed, most_from, Marked, Marks, Reaches, marked, First};

use super::area::{Part, area_at, part_of};
use super::lines::clear;

// A mark is a place.
pub(crate) fn place(mark: u64) -> usize
    ensures { result ≡ mark }
{
    mark as usize
}

// Where the part begins, its end, unless a farther one stands there. Nothing for a part without a place.
fn mark(p: Part, ends: &mut [u64])
    requires { p.to ≤ length ends.old }
    ensures { Marked p ends.old ends.new }
{
    let from = p.from;
    if from < p.to {
        ends[from] = place(ends[from]).max(p.to) as u64;
    }
}

// So for each rectangle that has row y.
fn mark_each(areas: &[u16], y: usize, ends: &mut [u64])
    requires { (Placed 1024 1024 areas.now) × (length ends.old ≡ 1024) }
    ensures { Marks areas.now (count areas.now) y ends.old ends.new }
{
    for k in 0..areas.len() / 4 {
        mark(part_of(area_at(areas, k), y), ends);
    }
}

// Each place from `from` to `to` gets the farthest of the marks up to it.
fn reach(ends: &mut [u64], from: usize, to: usize)
    requires { (from ≤ to) × (to ≤ length ends.old) }
    ensures { Changed from to (λ x v. most_from from ends.old x) ends.old ends.new }
{
    let mut far: usize = 0;
    for x in from..to {
        far = far.max(place(ends[x]));
        ends[x] = far as u64;
    }
}

// The marks of row y, in a part that has all its held places.
pub(crate) fn marks(areas: &[u16], y: usize, s: Part, ends: &mut [u64])
    requires { (Placed 1024 1024 areas.now) × (Spans (λ z. held areas.now z y) 1024 s) × (length ends.old ≡ 1024) }
    ensures { Reaches (λ z. held areas.now z y) s ends.new }
{
    clear(ends, s.from, s.to);
    mark_each(areas, y, ends);
    reach(ends, s.from, s.to);
}

// The first place from x on whose mark is past it; `to` where there is none.
pub(crate) fn run_start(ends: &[u64], x: usize, to: usize) -> usize
    requires { (x ≤ to) × (to ≤ length ends.now) }
    ensures { First (marked ends.now) x to result }
{
    for s in x..to {
        if s < place(ends[s]) {
            return s;
        }
    }
    to
}
