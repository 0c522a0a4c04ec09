// A rectangle of the list, and the places of a row that it has.
ghost use Rattle.std.specs.Prelude.{◌≡◌, ◌+◌, ◌*◌, ◌<◌, ◌≤◌, length, get_or};
ghost use Rattle.areas.specs.Areas.{area_at};
ghost use Rattle.areas.specs.Private.{Listed, in_row, Inside, part_of};

#[derive(Clone, Copy)]
pub(crate) struct Area {
    pub(crate) left: usize,
    pub(crate) top: usize,
    pub(crate) wide: usize,
    pub(crate) high: usize,
}

fn field(areas: &[u16], i: usize) -> usize
    requires { i < length areas.now }
    ensures { (result ≡ get_or areas.now i 0) × (result ≤ 65535) }
{
    usize::from(areas[i])
}

// Rectangle k.
pub(crate) fn area_at(areas: &[u16], k: usize) -> Area
    requires { 4 * k + 3 < length areas.now }
    ensures { Listed (area_at areas.now k) result }
{
    let i = 4 * k;
    Area {
        left: field(areas, i),
        top: field(areas, i + 1),
        wide: field(areas, i + 2),
        high: field(areas, i + 3),
    }
}

// Whether the rectangle has row y.
#[tactic(auto, unfolding(crate::specs::Private::in_row))]
pub(crate) fn in_row(a: Area, y: usize) -> bool
    requires { a.top + a.high ≤ 1024 }
    ensures { result ≡ in_row a y }
{
    a.top <= y && y < a.top + a.high
}

// Places of a row, from one up to another. Not a `Range<usize>`: several calls take one part, and a range is no `Copy`.
#[derive(Clone, Copy)]
pub(crate) struct Part {
    pub(crate) from: usize,
    pub(crate) to: usize,
}

// Those that the rectangle has of row y: from 0 to 0 if it has not the row.
#[tactic(auto, unfolding(crate::specs::Private::part_of))]
pub(crate) fn part_of(a: Area, y: usize) -> Part
    requires { Inside 1024 1024 a }
    ensures { result ≡ part_of a y }
{
    if in_row(a, y) {
        Part {
            from: a.left,
            to: a.left + a.wide,
        }
    } else {
        Part { from: 0, to: 0 }
    }
}
