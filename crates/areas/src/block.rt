// The words of a band that a rectangle holds, added up by their columns. Each is read once, at one place, and counted there.
ghost use Rattle.std.specs.Prelude.{◌≡◌, ◌+◌, ◌*◌, ◌≤◌, length};
ghost use Rattle.areas.specs.Private.{spread_of, Readable, WithRow, InPicture, running_at, Line, Columns, Closed, SummedTo};

use super::area::Part;
use super::lines::clear;
use super::marks::{place, run_start};

// Rows of a picture of that width, from row y on.
#[derive(Clone, Copy)]
pub(crate) struct Band {
    pub(crate) y: usize,
    pub(crate) rows: usize,
    pub(crate) width: usize,
}

// A word's channels, 21 bits apart: the sums of a column's words do not meet.
fn spread(word: u32) -> u64
    ensures { (result ≡ spread_of word) × (result ≤ 1121502395105535) }
{
    let w = word as u64;
    w / 65536 % 256 * 4398046511104 + w / 256 % 256 * 2097152 + w % 256
}

// Adds the words from `from` to `to` of the row that begins at `row` to the columns' sums, and counts them. The picture is
// read here and nowhere else.
fn read(picture: &[u32], row: usize, from: usize, to: usize, columns: &mut [u64]) -> u32
    requires { Readable picture.now row from to columns.old }
    ensures { WithRow picture.now row from to columns.old columns.new result }
{
    for x in from..to {
        columns[x] += spread(picture[row + x]);
    }
    (to - from) as u32
}

// The sums of the columns from `from` to `to` over the band's rows, and how many words that were.
fn add_up(picture: &[u32], b: Band, from: usize, to: usize, columns: &mut [u64]) -> u32
    requires { (InPicture picture.now b from to) × (length columns.old ≡ 1024) }
    ensures { Columns picture.now b from to columns.old columns.new result }
{
    clear(columns, from, to);
    let mut words: u32 = 0;
    for j in 0..b.rows {
        words += read(picture, (b.y + j) * b.width, from, to, columns);
    }
    words
}

// The sums of the columns whose marks are past them, run after run. The other columns are left.
pub(crate) fn add_runs(picture: &[u32], b: Band, s: Part, ends: &[u64], columns: &mut [u64]) -> u32
    requires { (InPicture picture.now b s.from s.to) × (Closed s ends.now) × (length columns.old ≡ 1024) }
    ensures { SummedTo picture.now b s ends.now s.to columns.new result }
{
    let mut words: u32 = 0;
    let mut x = run_start(ends, s.from, s.to);
    while x < s.to {
        let end = place(ends[x]);
        words += add_up(picture, b, x, end, columns);
        x = run_start(ends, end, s.to);
    }
    words
}

// The running sums of the columns from `from` to `to`, three for each: at 3 * t + c channel c of those before t. Columns that
// were left are among them: no rectangle has one, so they are in no difference that is taken.
pub(crate) fn running(columns: &[u64], from: usize, to: usize, sums: &mut [u64])
    requires { (from ≤ to) × (to ≤ 1024) × (length columns.now ≡ 1024) × (length sums.old ≡ 3075) }
    ensures { Line 3075 (3 * from) (3 * to + 3) (running_at columns.now from) sums.new }
{
    let i = 3 * from;
    sums[i] = 0;
    sums[i + 1] = 0;
    sums[i + 2] = 0;
    let mut red: u64 = 0;
    let mut green: u64 = 0;
    let mut blue: u64 = 0;
    for t in from..to {
        let column = columns[t];
        red += column / 4398046511104;
        green += column / 2097152 % 2097152;
        blue += column % 2097152;
        let i = 3 * t + 3;
        sums[i] = red;
        sums[i + 1] = green;
        sums[i + 2] = blue;
    }
}
