// The standard streams by their numbers, which the functions of `io` take.

pub const STDOUT_FILENO: i32 = 1;

pub const STDERR_FILENO: i32 = 2;
