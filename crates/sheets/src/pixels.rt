// The words of a frame on a sheet, 24 bits each, from any bit on.
ghost use Rattle.std.specs.Prelude.{◌≡◌, ◌+◌, ◌-◌, ◌*◌, ◌%◌, ◌^◌, ◌<◌, ◌≤◌, length, set};
ghost use Rattle.num.specs.Rewrite.{fill};
ghost use Rattle.cards.specs.Bits.{value_at};
ghost use Rattle.sheets.specs.Promises.{word_at, Standing};

use raster::pixels::at;

// The 24 bits of the four bytes from i on that come before the last `below` bits.
fn word(sheet: &[u8], i: usize, below: usize) -> u32
    requires { (i + 3 < length sheet.now) × (below < 8) }
    ensures { result ≡ value_at sheet.now (8 * i + 8 - below) 24 }
{
    let four = at(sheet, i) * 16777216
        + at(sheet, i + 1) * 65536
        + at(sheet, i + 2) * 256
        + at(sheet, i + 3);
    ((four >> below) % 16777216) as u32
}

// The word i, at its place.
fn put(words: &mut [u32], sheet: &[u8], first: usize, below: usize, i: usize)
    requires { (i < length words.old) × Standing (length words.old) sheet.now first below }
    ensures { words.new ≡ set words.old i (word_at sheet.now first below i) }
{
    words[i] = word(sheet, first + 3 * i, below);
}

// Words four at a time: what a turn of the loop costs is then paid once for four. Each is put before the next one is read, so that each is read as four bytes
// side by side, which is one load.
fn by_four(words: &mut [u32], sheet: &[u8], first: usize, below: usize)
    requires { (length words.old % 4 ≡ 0) × Standing (length words.old) sheet.now first below }
    ensures { words.new ≡ fill (word_at sheet.now first below) words.old }
{
    let mut i = 0;
    while i < words.len() {
        put(words, sheet, first, below, i);
        put(words, sheet, first, below, i + 1);
        put(words, sheet, first, below, i + 2);
        put(words, sheet, first, below, i + 3);
        i += 4;
    }
}

// Words one at a time.
fn one_by_one(words: &mut [u32], sheet: &[u8], first: usize, below: usize)
    requires { Standing (length words.old) sheet.now first below }
    ensures { words.new ≡ fill (word_at sheet.now first below) words.old }
{
    let mut i = 0;
    while i < words.len() {
        put(words, sheet, first, below, i);
        i += 1;
    }
}

// The words that stand from the bit `from` on. Each ends in the last of four bytes; the first of these is there, since a sheet begins with its event
// count.
pub fn unpack(words: &mut [u32], sheet: &[u8], from: usize)
    requires { (0 < from) × (from + 24 * length words.old ≤ 8 * length sheet.now) × (from < 2 ^ 44) }
    ensures { words.new ≡ fill (λ i. value_at sheet.now (from + 24 * i) 24) words.old }
{
    let first = (from - 1) / 8;
    let below = 8 * first + 8 - from;
    let fours = words.len() / 4 * 4;
    by_four(&mut words[..fours], sheet, first, below);
    one_by_one(&mut words[fours..], sheet, first + 3 * fours, below);
}
