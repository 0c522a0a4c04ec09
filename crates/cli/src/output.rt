// Standard output. The end of each line is checked, and after one that was not written no other is: a disk that fills up within a line has no room for its end
// either.
use super::reason;
use super::stream::STDERR_FILENO;
use std::io::Error;

// The last words of a line. Whether they were written, or why not.
pub fn end(rt: HostRuntime, words: &[u8]) -> Result<(), Error> {
    rt.write_all(words)
}

// The same on standard output or standard error, by its number.
pub fn end_at(rt: HostRuntime, fd: i32, words: &[u8]) -> Result<(), Error> {
    if fd == STDERR_FILENO {
        rt.stderr().write_all(words)
    } else {
        rt.write_all(words)
    }
}

// Where a line was not written it is said why.
pub fn told(written: Result<(), Error>) {
    if let Err(error) = written {
        reason::say(b"standard output", error);
    }
}
