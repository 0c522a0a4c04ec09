// What is written: a line for each area, behind the argument that gave it, and a last line of all. A function that writes lines answers the error
// of the one that it could not write; after a line that was not written no other is.
ghost use Rattle.std.specs.Prelude.{◌<◌, ◌≤◌};

use cli::output::end;
use cli::says;
use cli::stream::STDOUT_FILENO;
use std::io::Error;

fn text(words: &[u8]) {
    io::write_all(STDOUT_FILENO, words);
}

fn number(n: u64) {
    io::print_decimal(STDOUT_FILENO, n);
}

// By how much the second is above the first, with its sign.
fn difference(a: u64, b: u64) {
    if a < b {
        text(b"+");
        number(b - a);
        return;
    }
    if b < a {
        text(b"-");
        number(a - b);
        return;
    }
    text(b"0");
}

// The totals of area k, behind argument i.
fn line(rt: HostRuntime, i: usize, k: usize, totals: &[u64; 192]) -> Result<(), Error>
    requires { k < 64 }
{
    says::name(rt, STDOUT_FILENO, i);
    text(b"red ");
    number(totals[3 * k]);
    text(b", green ");
    number(totals[3 * k + 1]);
    text(b", blue ");
    number(totals[3 * k + 2]);
    end(rt, b"\n")
}

// The totals of one picture.
pub fn all(
    rt: HostRuntime,
    first: usize,
    areas: &[u16],
    totals: &[u64; 192],
    words: u32,
) -> Result<(), Error>
    requires { first ≤ 3 }
{
    let n = areas.len() / 4;
    for k in 0..n.min(64) {
        line(rt, first + k, k, totals)?;
    }
    text(b"words read: ");
    number(words as u64);
    end(rt, b"\n")
}

fn same(k: usize, a: &[u64; 192], b: &[u64; 192]) -> bool
    requires { k < 64 }
{
    a[3 * k] == b[3 * k] && a[3 * k + 1] == b[3 * k + 1] && a[3 * k + 2] == b[3 * k + 2]
}

// 1 where area k differs, else 0.
fn differs(k: usize, a: &[u64; 192], b: &[u64; 192]) -> u64
    requires { k < 64 }
    ensures { result ≤ 1 }
{
    if same(k, a, b) { 0 } else { 1 }
}

// How area k differs, behind argument i.
fn compared(
    rt: HostRuntime,
    i: usize,
    k: usize,
    totals: &[u64; 192],
    others: &[u64; 192],
) -> Result<(), Error>
    requires { k < 64 }
{
    says::name(rt, STDOUT_FILENO, i);
    if same(k, totals, others) {
        return end(rt, b"the same\n");
    }
    text(b"differs: red ");
    difference(totals[3 * k], others[3 * k]);
    text(b", green ");
    difference(totals[3 * k + 1], others[3 * k + 1]);
    text(b", blue ");
    difference(totals[3 * k + 2], others[3 * k + 2]);
    end(rt, b"\n")
}

// Of two pictures: which area differs, and by how much the second is above the first.
pub fn differences(
    rt: HostRuntime,
    first: usize,
    areas: &[u16],
    totals: &[u64; 192],
    others: &[u64; 192],
) -> Result<(), Error>
    requires { first ≤ 3 }
{
    let n = areas.len() / 4;
    let mut different: u64 = 0;
    for k in 0..n.min(64) {
        compared(rt, first + k, k, totals, others)?;
        different += differs(k, totals, others);
    }
    number(different);
    text(b" of ");
    number(n as u64);
    end(rt, b" areas differ\n")
}
