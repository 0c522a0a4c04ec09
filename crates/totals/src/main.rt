// Program `totals`: the exact red, green and blue totals of areas of a picture, and of two pictures which area differs and by how much. The areas are given
// behind the pictures, which are files of binary PPM. All is looked at before anything is written. Which area an argument names, and what a file has in the
// areas, is decided by crate `frames`.
#![tactic(auto)]

ghost use Rattle.std.specs.Prelude.{◌≤◌};

mod given; // the areas that the arguments give
mod measured; // the totals of a picture
mod shown; // what is written

use cli::{input, memory, output, says};

fn usage() {
    says::text(
        b"usage: totals PICTURE [PICTURE] LEFT,TOP,WIDTH,HEIGHT ..   (pictures as binary PPM, up to 61440 pixels, no side above 1024; up to 64 areas)\n",
    );
}

// One picture: `first` is the place of the first area among the arguments.
fn one(rt: HostRuntime, first: usize, areas: &[u16])
    requires { first ≤ 3 }
{
    let mut file = memory::file();
    let mut words = memory::words();
    let mut totals = measured::room();
    if let Some(read) = measured::totals(rt, 1, first, &mut file, &mut words, areas, &mut totals) {
        output::told(shown::all(rt, first, areas, &totals, read));
    }
}

fn two(rt: HostRuntime, first: usize, areas: &[u16])
    requires { first ≤ 3 }
{
    let mut file = memory::file();
    let mut words = memory::words();
    let mut totals = measured::room();
    if measured::totals(rt, 1, first, &mut file, &mut words, areas, &mut totals).is_none() {
        return;
    }
    let mut others = measured::room();
    if measured::totals(rt, 2, first, &mut file, &mut words, areas, &mut others).is_some() {
        output::told(shown::differences(rt, first, areas, &totals, &others));
    }
}

// `first` is 2 behind one picture, 3 behind two.
fn run(rt: HostRuntime, first: usize, count: usize)
    requires { first ≤ 3 }
{
    if count <= first {
        usage();
        return;
    }
    let mut areas = given::room();
    let Some(n) = given::areas(rt, first, count, &mut areas) else {
        return;
    };
    if first == 2 {
        one(rt, first, &areas[..n]);
    } else {
        two(rt, first, &areas[..n]);
    }
}

fn main(rt: HostRuntime) {
    let count = input::count(rt);
    if count < 3 || input::is_option(rt, 1) {
        usage();
        return;
    }
    if given::is_area(rt, 2) {
        run(rt, 2, count);
    } else {
        run(rt, 3, count);
    }
}
