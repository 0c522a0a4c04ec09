// A picture as binary PPM, on standard output.
ghost use Rattle.std.specs.Prelude.{◌≤◌, length};

use crate::show::{number, text};
use cli::memory;
use cli::output::end;
use num::size::Size;
use raster::pixels::pack;
use std::io::Error;

fn header(size: Size) {
    text(b"P6\n");
    number(size.width as usize);
    text(b" ");
    number(size.height as usize);
    text(b"\n255\n");
}

// Three bytes for each word. Whether they were written, or why not.
fn pixels(rt: HostRuntime, words: &[u32]) -> Result<(), Error>
    requires { length words.now ≤ 61440 }
{
    let mut file = memory::file();
    pack(&mut file, words);
    let bytes = 3 * words.len();
    end(rt, &file[..bytes])
}

// The picture at the start of the framebuffer; none where a side is 0. Whether its end was written, or why not: a disk that fills up within the header has
// no room for the pixels either.
fn shown(rt: HostRuntime, size: Size, words: &[u32]) -> Result<(), Error> {
    let count = size.area();
    if count == 0 {
        return Ok(());
    }
    if words.len() < count {
        return Ok(());
    }
    if 61440 < count {
        return Ok(());
    }
    header(size);
    pixels(rt, &words[..count])
}

// The same of the whole framebuffer, whose type says how long it is.
pub fn write(rt: HostRuntime, size: Size, words: &[u32; 61440]) -> Result<(), Error> {
    shown(rt, size, words)
}
