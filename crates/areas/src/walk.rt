// Band after band.
ghost use Rattle.areas.specs.Private.{Ready, Lent, Banded, Framed, Walked};

use super::block::{Band, add_runs, running};
use super::edges::{band_end, span};
use super::lines::{clear, line};
use super::marks::marks;
use super::share::share;

// A band whose rows have the same rectangles.
fn band(
    picture: &[u32],
    b: Band,
    areas: &[u16],
    ends: &mut [u64],
    columns: &mut [u64],
    sums: &mut [u64],
    res: &mut [u64],
) -> u32
    requires { (Ready picture.now b areas.now res.old) × Lent ends.old columns.old sums.old }
    ensures { Banded picture.now b areas.now res.old res.new result }
{
    let y = b.y;
    let s = span(areas, y, b.width);
    marks(areas, y, s, ends);
    let words = add_runs(picture, b, s, ends, columns);
    running(columns, s.from, s.to, sums);
    share(areas, y, sums, res);
    words
}

pub(crate) fn walk(
    picture: &[u32],
    width: usize,
    height: usize,
    areas: &[u16],
    res: &mut [u64],
) -> u32
    requires { Framed picture.now width height areas.now res.old }
    ensures { Walked picture.now width height areas.now res.old result res.new }
{
    clear(res, 0, areas.len() / 4 * 3);
    let mut ends = line::<1024>();
    let mut columns = line::<1024>();
    let mut sums = line::<3075>();
    let mut words: u32 = 0;
    let mut y = 0;
    while y < height {
        let end = band_end(areas, y, height);
        let b = Band {
            y,
            rows: end - y,
            width,
        };
        words += band(picture, b, areas, &mut ends, &mut columns, &mut sums, res);
        y = end;
    }
    words
}
