// Why a call of the system failed: one line on standard error, in the system's words.
ghost use Rattle.std.specs.Prelude.{◌≤◌};

use super::stream::STDERR_FILENO;
use std::io::{Cursor, Error, Write};
use std::str;

// The error as `Error` prints it, at the start of the buffer, which has more room than any error takes. How many bytes these are.
fn print(error: Error, out: &mut [u8; 256]) -> usize
    ensures { result ≤ 256 }
{
    let mut text = Cursor::new([0u8; 256]);
    let _ = write!(text, "{error}");
    let n = text.position();
    *out = text.into_inner();
    if n < 256 { n as usize } else { 256 }
}

// The words alone, without the number that `Error` prints behind the system's, as in `No such file or directory (os error 2)`.
fn words(text: &[u8]) -> &[u8] {
    let printed = str::from_utf8(text).unwrap_or("");
    match printed.split_once(" (os error ") {
        Some((words, _)) => words.as_bytes(),
        None => printed.as_bytes(),
    }
}

// What failed, a colon, and why.
pub fn say(what: &[u8], error: Error) {
    let mut text = [0u8; 256];
    let n = print(error, &mut text);
    io::write_all(STDERR_FILENO, what);
    io::write_all(STDERR_FILENO, b": ");
    io::write_all(STDERR_FILENO, words(&text[..n]));
    io::write_all(STDERR_FILENO, b"\n");
}
