// Frames as bytes.
#![tactic(auto)]

pub mod pixels; // three bytes a pixel: words from bytes, and bytes from words
pub mod ppm; // a file of binary PPM, read
