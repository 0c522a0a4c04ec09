// Program `card`: prints one card or two in words. What it prints of a card is decided by proved functions: whether it is opened and where reading stopped
// (cards::reader), its normalised bytes (cards::writer), how many samples its blurs take at a size (chain::samples), its settings one by one, their exact
// decimal digits, the size that the option --size names, and the first difference of two cards (inspect).
// A function that writes lines answers the error of the one that it could not write; after a line that was not written no other is.
#![tactic(auto)]

ghost use Rattle.std.specs.Prelude.{◌≤◌};

mod names; // passes, settings and presets by name
mod numbers; // numbers in decimal and hexadecimal
mod show; // a card in words
mod compare; // two cards

use cli::stream::STDERR_FILENO;
use cli::{input, output, says};
use inspect::extent;
use inspect::extent::Extent;
use std::io::Error;

fn usage() {
    says::text(
        b"usage: card [--size WIDTHxHEIGHT] CARD [CARD]   (a card is a file, or its bytes in hexadecimal, as \"11 A9 FC 00 00 00\")\n",
    );
}

// The card at place `at` among the arguments.
fn one(rt: HostRuntime, at: usize, extent: Option<Extent>) {
    let mut card = io::buffer();
    let loaded = input::card(rt, at, &mut card);
    if !loaded.ok {
        return;
    }
    let n = loaded.length;
    output::told(show::titled(rt, at, &card[..n], extent));
}

// Both cards, and how they compare.
fn both(
    rt: HostRuntime,
    at: usize,
    card: &[u8],
    other: &[u8],
    extent: Option<Extent>,
) -> Result<(), Error>
    requires { at ≤ 3 }
{
    show::titled(rt, at, card, extent)?;
    show::titled(rt, at + 1, other, extent)?;
    compare::compared(rt, card, other)
}

fn two(rt: HostRuntime, at: usize, extent: Option<Extent>)
    requires { at ≤ 3 }
{
    let mut card = io::buffer();
    let loaded = input::card(rt, at, &mut card);
    if !loaded.ok {
        return;
    }
    let n = loaded.length;
    let mut other = io::buffer();
    let loaded = input::card(rt, at + 1, &mut other);
    if !loaded.ok {
        return;
    }
    let m = loaded.length;
    output::told(both(rt, at, &card[..n], &other[..m], extent));
}

// Whether one card or two are all that stands from place `at` on.
fn are_cards(rt: HostRuntime, at: usize, count: usize) -> bool
    requires { at ≤ 3 }
{
    if input::is_option(rt, at) {
        return false;
    }
    count == at + 1 || count == at + 2
}

// The cards from place `at` on.
fn shown(rt: HostRuntime, at: usize, count: usize, extent: Option<Extent>)
    requires { at ≤ 3 }
{
    if count == at + 1 {
        one(rt, at, extent);
    } else {
        two(rt, at, extent);
    }
}

// Whether argument i is --size.
fn is_size(rt: HostRuntime, i: usize) -> bool {
    let mut name = io::buffer();
    let n = input::given(rt, i, &mut name);
    check::same(&name[..n], b"--size")
}

// The size that argument i names; where it names none it is said why.
fn size(rt: HostRuntime, i: usize) -> Option<Extent> {
    let mut text = io::buffer();
    let given = input::argument(rt, i, &mut text);
    if !given.ok {
        return None;
    }
    let n = given.length;
    let extent = extent::parse(&text[..n]);
    if extent.is_none() {
        says::name(rt, STDERR_FILENO, i);
        says::text(b"no size: it is WIDTHxHEIGHT, each from 1 to 1024\n");
    }
    extent
}

// The cards behind the size.
fn sized(rt: HostRuntime, count: usize) {
    let extent = size(rt, 2);
    if extent.is_some() {
        shown(rt, 3, count, extent);
    }
}

fn main(rt: HostRuntime) {
    let count = input::count(rt);
    if is_size(rt, 1) && are_cards(rt, 3, count) {
        sized(rt, count);
    } else if are_cards(rt, 1, count) {
        shown(rt, 1, count, None);
    } else {
        usage();
    }
}
