// A sheet in words, on standard output: how many events it has, and a line for each; or that it is refused. A function that writes lines answers
// the error of the one that it could not write; after a line that was not written no other is.
ghost use Rattle.std.specs.Prelude.{◌<◌};

use crate::{files, says};
use cards::fields::Cursor;
use cli::names;
use cli::output::end;
use cli::says::argument;
use cli::stream::STDOUT_FILENO;
use sheets::event::{Event, is_whole, read};
use std::io::Error;

pub fn text(words: &[u8]) {
    io::write_all(STDOUT_FILENO, words);
}

pub fn number(n: usize) {
    io::print_decimal(STDOUT_FILENO, n as u64);
}

// The pass of that kind by its name; a kind that no pass has, by its number.
fn pass(kind: u8) {
    if kind == 0 || 10 < kind {
        text(b"kind ");
        number(kind as usize);
        return;
    }
    names::kind(STDOUT_FILENO, kind);
}

// A switch that is made, or asked for.
fn switch(kind: u8, on: bool) {
    pass(kind);
    if on {
        text(b" on");
    } else {
        text(b" off");
    }
}

fn event(e: Event) {
    match e {
        Event::Frame { width, height, .. } => {
            text(b"frame, ");
            number(width);
            text(b" by ");
            number(height);
        }
        Event::Reset => text(b"reset"),
        Event::Switch { kind, on } => {
            text(b"switch: ");
            switch(kind, on);
        }
        Event::Step => text(b"preset step"),
        Event::Ask { kind, on } => {
            text(b"ask: ");
            switch(kind, on);
        }
        Event::Commit => text(b"commit"),
    }
}

// A line for event i, counted from 1.
fn line(rt: HostRuntime, i: u32, e: Event) -> Result<(), Error> {
    text(b"  ");
    number(i as usize);
    text(b"  ");
    event(e);
    end(rt, b"\n")
}

// A line for each of the n events of a sheet that is whole.
fn lines(rt: HostRuntime, sheet: &[u8], n: u32) -> Result<(), Error>
    requires { n < 65536 }
{
    let mut cursor = Cursor {
        bytes: sheet,
        at: 16,
    };
    for i in 0..n {
        let Some(e) = read(&mut cursor) else {
            return Ok(());
        };
        line(rt, i + 1, e)?;
    }
    Ok(())
}

// How many events there are, at the end of the first line.
fn counted(rt: HostRuntime, n: u32) -> Result<(), Error> {
    text(b": ");
    number(n as usize);
    if n == 1 {
        end(rt, b" event\n")
    } else {
        end(rt, b" events\n")
    }
}

// The sheet in the file that argument i named.
pub fn titled(rt: HostRuntime, i: usize, sheet: &[u8]) -> Result<(), Error> {
    argument(rt, STDOUT_FILENO, i);
    if !is_whole(sheet) {
        text(b"\n  ");
        return says::bad_sheet(rt, STDOUT_FILENO);
    }
    let n = files::count(sheet);
    counted(rt, n)?;
    lines(rt, sheet, n)
}
