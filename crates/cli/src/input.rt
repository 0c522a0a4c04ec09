// Arguments, files, and cards and curves that an argument gives. What cannot be read is said in one line on standard error.
// Arguments are read as bytes, into fixed buffers: they need not be text. A file's name is text for std, so one that is not UTF-8 cannot be opened.
ghost use Rattle.std.specs.Prelude.{◌≡◌, IfOk};
ghost use Rattle.io.specs.Counts.{IsPrefixLen};

use super::stream::STDERR_FILENO;
use super::{reason, says, words};
use inspect::hexadecimal;
use inspect::hexadecimal::DecodeError;
use std::env::FillError;
use std::fs::File;
use std::io::{Error, ErrorKind, Read};
use std::rt::Env;
use std::str;

// What was read into a buffer.
#[derive(Clone, Copy)]
pub struct Loaded {
    // Whether it could be read.
    pub ok: bool,
    // How many bytes there are, at the start of the buffer.
    pub length: usize,
    // Whether there are more than the buffer holds.
    pub more: bool,
}

fn failed() -> Loaded
    ensures { result.length ≡ 0 }
{
    Loaded {
        ok: false,
        length: 0,
        more: false,
    }
}

// Whether there is an argument i. No room is lent for its bytes.
fn is_given(rt: HostRuntime, i: usize) -> bool {
    match rt.arg(i, &mut []) {
        Err(FillError::NotPresent) => false,
        _ => true,
    }
}

// How many arguments there are, the program's own name among them.
pub fn count(rt: HostRuntime) -> usize {
    for i in 0..usize::MAX {
        if !is_given(rt, i) {
            return i;
        }
    }
    usize::MAX
}

// How many bytes argument i has, at the start of the buffer: 0 where it is missing, or longer than the buffer. Nothing is said of that.
pub fn given(rt: HostRuntime, i: usize, out: &mut [u8; 4096]) -> usize
    ensures { IsPrefixLen result out.new }
{
    match rt.arg(i, out) {
        Ok(length) => length,
        Err(_) => 0,
    }
}

// Argument i.
pub fn argument(rt: HostRuntime, i: usize, out: &mut [u8; 4096]) -> Loaded
    ensures { IsPrefixLen result.length out.new }
{
    match rt.arg(i, out) {
        Ok(length) => Loaded {
            ok: true,
            length,
            more: false,
        },
        Err(FillError::NotPresent) => {
            io::write_all(STDERR_FILENO, b"argument: Invalid argument\n");
            failed()
        }
        Err(FillError::TooLong) => {
            io::write_all(STDERR_FILENO, b"argument: File name too long\n");
            failed()
        }
    }
}

// Whether argument i begins with `-`. No option is known: it asks for help. A file with such a name is written `./-NAME`.
pub fn is_option(rt: HostRuntime, i: usize) -> bool {
    let mut name = io::buffer();
    if given(rt, i, &mut name) == 0 {
        return false;
    }
    name[0] == b'-'
}

// Says behind its path why a file cannot be read. The words between say what else the path is not.
fn unread(path: &[u8], words: &[u8], error: Error) {
    io::write_all(STDERR_FILENO, path);
    reason::say(words, error);
}

// Opens the file of that name for reading.
fn open(rt: HostRuntime, path: &[u8]) -> Result<File, Error> {
    match str::from_utf8(path) {
        Ok(path) => File::open(&rt, path),
        Err(_) => Err(Error::new(ErrorKind::InvalidFilename, "not UTF-8")),
    }
}

// Whether there is a next byte. It is read.
fn next(file: &mut File) -> Result<bool, Error> {
    let mut one = [0u8; 1];
    Ok(file.read(&mut one)? == 1)
}

// Reads until the buffer is full or the file ends. How many bytes there are.
fn fill(file: &mut File, out: &mut [u8]) -> Result<usize, Error>
    ensures { IfOk result (λ n. IsPrefixLen n out.new) }
{
    let mut done = 0;
    // No `for`: a read takes as many bytes as it finds, and the file's end ends it.
    while done < out.len() {
        let n = file.read(&mut out[done..])?;
        if n == 0 {
            break;
        }
        done += n;
    }
    Ok(done)
}

// The file of that name, as far as the buffer holds it.
fn read(rt: HostRuntime, path: &[u8], out: &mut [u8]) -> Result<Loaded, Error>
    ensures { IfOk result (λ loaded. IsPrefixLen loaded.length out.new) }
{
    let mut file = open(rt, path)?;
    let length = fill(&mut file, out)?;
    let more = next(&mut file)?;
    Ok(Loaded {
        ok: true,
        length,
        more,
    })
}

// The same. Where it cannot be read the words are said, and why.
fn file(rt: HostRuntime, path: &[u8], words: &[u8], out: &mut [u8]) -> Loaded
    ensures { IsPrefixLen result.length out.new }
{
    match read(rt, path, out) {
        Ok(loaded) => loaded,
        Err(error) => {
            unread(path, words, error);
            failed()
        }
    }
}

// The file that argument i names.
pub fn named(rt: HostRuntime, i: usize, out: &mut [u8]) -> Loaded
    ensures { IsPrefixLen result.length out.new }
{
    let mut name = io::buffer();
    let given = argument(rt, i, &mut name);
    if !given.ok {
        return failed();
    }
    let n = given.length;
    file(rt, &name[..n], b"", out)
}

// The curve in the file that argument i names. Where it holds none, it is said why.
pub fn curve(rt: HostRuntime, i: usize) -> Option<[f32; 256]> {
    let mut file = io::buffer();
    let loaded = named(rt, i, &mut file);
    let n = loaded.length;
    match frames::curve::load(&file[..n]) {
        Ok(words) => Some(words),
        Err(why) => {
            if loaded.ok {
                says::name(rt, STDERR_FILENO, i);
                words::no_curve(STDERR_FILENO, why.number());
            }
            None
        }
    }
}

// A card: the bytes of an argument that is hexadecimal, else those of the file that it names. No card has as many bytes as the buffer: one that has more is
// refused by its first ones already.
fn card_of(rt: HostRuntime, name: &[u8], out: &mut [u8; 4096]) -> Loaded
    ensures { IsPrefixLen result.length out.new }
{
    match hexadecimal::decode(name, out) {
        Ok(length) => Loaded {
            ok: true,
            length,
            more: false,
        },
        Err(DecodeError::NotHexadecimal) => file(
            rt,
            name,
            b": neither hexadecimal (two digits for each byte) nor a file that can be read",
            out,
        ),
        Err(DecodeError::NoRoom) => {
            io::write_all(STDERR_FILENO, name);
            io::write_all(STDERR_FILENO, b": too long for a card\n");
            failed()
        }
    }
}

// The card that argument i gives.
pub fn card(rt: HostRuntime, i: usize, out: &mut [u8; 4096]) -> Loaded
    ensures { IsPrefixLen result.length out.new }
{
    let mut name = io::buffer();
    let given = argument(rt, i, &mut name);
    if !given.ok {
        return failed();
    }
    let n = given.length;
    card_of(rt, &name[..n], out)
}
