// A sheet as it is written: fields of bits behind one another, as on a card, and the events that they make. Who writes keeps the next bit place. What is
// past a field in its byte is made 0, so that the last byte is padded at any time. The event count stands first, and is written last.
ghost use Rattle.std.specs.Prelude.{◌≡◌, ◌+◌, ◌*◌, ◌^◌, ◌<◌, ◌≤◌, length, eqb};
ghost use Rattle.cards.specs.Bits.{field_at};
ghost use Rattle.raster.specs.Pixels.{pixel_at, unpacked};
ghost use Rattle.sheets.specs.Events.{words_at, event_at};
ghost use Rattle.sheets.specs.Events.{frame as framed, reset as forget, switch as switched, step as stepped};
ghost use Rattle.sheets.specs.Written.{Writes, Closes};

use raster::pixels::at;

// Bit p becomes b. The bits before it stay, and those behind it in its byte become 0.
fn put_bit(sheet: &mut [u8], p: usize, b: usize)
    requires { (p < 8 * length sheet.old) × (b < 2) }
    ensures { Writes (field_at 1) b p (p + 1) sheet.old sheet.new }
{
    let i = p / 8;
    let behind = 7 - p % 8;
    let head = (at(sheet, i) >> behind) / 2 * 2 + b;
    sheet[i] = ((head << behind) % 256) as u8;
}

// A field of `width` bits from the bit p on; and the next place.
fn put(sheet: &mut [u8], p: usize, width: usize, v: usize) -> usize
    requires { (width ≤ 24) × (v < 2 ^ width) × (p + width ≤ 8 * length sheet.old) × (p < 2 ^ 44) }
    ensures { Writes (field_at width) v p result sheet.old sheet.new × (result ≡ p + width) }
{
    let mut i: usize = 0;
    while i < width {
        let b = (v >> (width - 1 - i)) % 2;
        put_bit(sheet, p + i, b);
        i += 1;
    }
    p + width
}

// The word of the three bytes from i on, red first.
fn word(pixels: &[u8], i: usize) -> usize
    requires { i + 2 < length pixels.now }
    ensures { (result ≡ pixel_at pixels.now i) × (result < 2 ^ 24) }
{
    at(pixels, i) * 65536 + at(pixels, i + 1) * 256 + at(pixels, i + 2)
}

// The words of n pixels.
fn put_words(sheet: &mut [u8], p: usize, n: usize, pixels: &[u8]) -> usize
    requires { (3 * n ≡ length pixels.now) × (p + 24 * n ≤ 8 * length sheet.old) × (p + 24 * n < 2 ^ 44) }
    ensures { Writes (words_at n) (unpacked n pixels.now) p result sheet.old sheet.new × (result ≡ p + 24 * n) }
{
    let mut i: usize = 0;
    while i < n {
        let pixel = word(pixels, 3 * i);
        put(sheet, p + 24 * i, 24, pixel);
        i += 1;
    }
    p + 24 * n
}

// A frame, with three bytes for each pixel.
pub fn frame(sheet: &mut [u8], p: usize, width: usize, height: usize, pixels: &[u8]) -> usize
    requires { (width < 2048) × (height < 2048) × (3 * (height * width) ≡ length pixels.now)
        × (p + 25 + 24 * (height * width) ≤ 8 * length sheet.old) × (p < 2 ^ 43) }
    ensures { Writes event_at (framed width height (unpacked (height * width) pixels.now)) p result sheet.old sheet.new
        × (result ≡ p + 25 + 24 * (height * width)) }
{
    let p1 = put(sheet, p, 3, 0);
    let p2 = put(sheet, p1, 11, width);
    let p3 = put(sheet, p2, 11, height);
    put_words(sheet, p3, height * width, pixels)
}

pub fn reset(sheet: &mut [u8], p: usize) -> usize
    requires { (p + 3 ≤ 8 * length sheet.old) × (p < 2 ^ 44) }
    ensures { Writes event_at forget p result sheet.old sheet.new × (result ≡ p + 3) }
{
    put(sheet, p, 3, 1)
}

// The bit of a position.
fn bit(on: bool) -> usize
    ensures { (result < 2) × (eqb result 1 ≡ on) }
{
    if on { 1 } else { 0 }
}

pub fn switch(sheet: &mut [u8], p: usize, kind: u8, on: bool) -> usize
    requires { (kind < 16) × (p + 8 ≤ 8 * length sheet.old) × (p < 2 ^ 43) }
    ensures { Writes event_at (switched kind on) p result sheet.old sheet.new × (result ≡ p + 8) }
{
    let p1 = put(sheet, p, 3, 2);
    let p2 = put(sheet, p1, 4, kind as usize);
    put(sheet, p2, 1, bit(on))
}

// A preset step.
pub fn step(sheet: &mut [u8], p: usize) -> usize
    requires { (p + 3 ≤ 8 * length sheet.old) × (p < 2 ^ 44) }
    ensures { Writes event_at stepped p result sheet.old sheet.new × (result ≡ p + 3) }
{
    put(sheet, p, 3, 3)
}

// The event count, where the last of n events ends at the bit p. How many bytes the sheet has.
pub fn close(sheet: &mut [u8], p: usize, n: usize) -> usize
    requires { (n < 65536) × (16 ≤ p) × (p ≤ 8 * length sheet.old) × (p < 2 ^ 44) }
    ensures { Closes n p result sheet.old sheet.new }
{
    put(sheet, 0, 16, n);
    (p + 7) / 8
}
