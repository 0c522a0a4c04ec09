// Lines behind the argument that gave them, and words on standard error.
use super::input;
use super::stream::STDERR_FILENO;

pub fn text(words: &[u8]) {
    io::write_all(STDERR_FILENO, words);
}

// The argument at place i.
pub fn argument(rt: HostRuntime, fd: i32, i: usize) {
    let mut name = io::buffer();
    let given = input::argument(rt, i, &mut name);
    let n = given.length;
    io::write_all(fd, &name[..n]);
}

// The same, and a colon.
pub fn name(rt: HostRuntime, fd: i32, i: usize) {
    argument(rt, fd, i);
    io::write_all(fd, b": ");
}
