// The lines that are printed, put at the start of a buffer.
ghost use Rattle.std.specs.Prelude.{◌≡◌, [], ◌+◌, ◌*◌, ◌<◌, ◌≤◌, length};
ghost use Rattle.events.specs.Text.{F, digit_of, number_of, pixel_of, pixels_of};
ghost use Rattle.events.specs.Text.{line as line_of};
ghost use Rattle.events.specs.Buffers.{Printed};

// A digit below sixteen, in capitals.
fn digit(d: u32) -> u8
    requires { d < 16 }
    ensures { result ≡ digit_of d }
{
    if d < 10 { 48 + d as u8 } else { 55 + d as u8 }
}

// A letter alone.
pub(crate) fn letter_line(out: &mut [u8], letter: u8) -> usize
    requires { 2 ≤ length out.old }
    ensures { Printed (line_of letter []) result out.old out.new }
{
    out[0] = letter;
    out[1] = b'\n';
    2
}

// A letter and a number.
#[tactic(auto, unfolding(crate::specs::Text::decimal))]
pub(crate) fn number_line(out: &mut [u8], letter: u8, n: u8) -> usize
    requires { 6 ≤ length out.old }
    ensures { Printed (line_of letter (number_of n)) result out.old out.new }
{
    let n = n as u32;
    out[0] = letter;
    out[1] = b' ';
    if n < 10 {
        out[2] = digit(n);
        out[3] = b'\n';
        return 4;
    }
    if n < 100 {
        out[2] = digit(n / 10);
        out[3] = digit(n % 10);
        out[4] = b'\n';
        return 5;
    }
    out[2] = digit(n / 100);
    out[3] = digit(n / 10 % 10);
    out[4] = digit(n % 10);
    out[5] = b'\n';
    6
}

// A space and the six digits of a pixel.
fn put_pixel(out: &mut [u8], p: u32)
    requires { length out.old ≡ 7 }
    ensures { out.new ≡ pixel_of p }
{
    out[0] = b' ';
    out[1] = digit(p / 1048576 % 16);
    out[2] = digit(p / 65536 % 16);
    out[3] = digit(p / 4096 % 16);
    out[4] = digit(p / 256 % 16);
    out[5] = digit(p / 16 % 16);
    out[6] = digit(p % 16);
}

// The letter F and each word of the frame.
pub(crate) fn frame_line(out: &mut [u8], frame: &[u32]) -> usize
    requires { (length frame.now ≤ 1024) × (2 + 7 * length frame.now ≤ length out.old) }
    ensures { Printed (line_of F (pixels_of frame.now)) result out.old out.new }
{
    out[0] = b'F';
    for (i, pixel) in frame.iter().enumerate() {
        let at = 1 + 7 * i;
        put_pixel(&mut out[at..at + 7], *pixel);
    }
    let at = 1 + 7 * frame.len();
    out[at] = b'\n';
    at + 1
}
