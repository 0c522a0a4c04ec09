// The field of a card that a bit lies in, by the card's layout: which pass it belongs to, and what of it. What the fields hold does not matter, but for
// the kinds and the number of passes.
ghost use Rattle.std.specs.Prelude.{◌≡◌, ◌+◌, ◌<◌, ◌≤◌, ◌^◌};
ghost use Rattle.inspect.specs.Layout.{Narrow, wide, nibble_at, widths_of, setting_in, end_of, in_record, field_of};

use cards::fields::Cursor;

// Passes and their settings are counted from 0.
#[derive(Clone, Copy)]
pub enum Field {
    Version,
    // The number of passes.
    Passes,
    // Of this pass.
    Kind(usize),
    // Of this pass, which is of that kind.
    Switch(usize, u8),
    // Of this pass, which is of that kind, the setting of that number.
    Setting(usize, u8, usize),
    // After the last pass.
    Rest,
}

// The bits of a pass's settings, 0 where it has no more.
#[derive(Clone, Copy)]
struct Widths {
    first: usize,
    second: usize,
    third: usize,
    fourth: usize,
}

fn wide(first: usize, second: usize, third: usize, fourth: usize) -> Widths
    ensures { result ≡ wide first second third fourth }
{
    Widths {
        first,
        second,
        third,
        fourth,
    }
}

// By document 01's table. A card may have any four bits for a kind, so it stays a number here.
fn bits_of(kind: u8) -> Widths
    ensures { (result ≡ widths_of kind) × Narrow result }
{
    match kind {
        1 => wide(32, 8, 0, 0),
        2 => wide(8, 32, 8, 0),
        3 => wide(32, 32, 32, 0),
        4 => wide(32, 8, 0, 0),
        5 => wide(3, 32, 0, 0),
        7 => wide(32, 32, 32, 32),
        _ => wide(32, 0, 0, 0),
    }
}

// The setting that a bit lies in, counted from the first bit of the settings.
fn setting_in(w: Widths, bit: usize) -> usize
    requires { Narrow w }
    ensures { result ≡ setting_in w bit }
{
    if bit < w.first {
        0
    } else if bit < w.first + w.second {
        1
    } else if bit < w.first + w.second + w.third {
        2
    } else {
        3
    }
}

// Four bits; 0 where the card ends before or inside them.
fn nibble(card: &[u8], p: usize) -> u8
    requires { p < 2 ^ 32 }
    ensures { result ≡ nibble_at card.now p }
{
    let mut cursor = Cursor { bytes: card, at: p };
    cursor.byte(4).unwrap_or(0)
}

// The field of the record at p, that of pass i, which `at` lies in.
fn in_record(i: usize, kind: u8, p: usize, at: usize) -> Field
    requires { (p < 2 ^ 32) × (p ≤ at) }
    ensures { result ≡ in_record i kind p at }
{
    if at < p + 4 {
        return Field::Kind(i);
    }
    if at < p + 5 {
        return Field::Switch(i, kind);
    }
    Field::Setting(i, kind, setting_in(bits_of(kind), at - (p + 5)))
}

// Where a record of that kind ends.
fn end(p: usize, kind: u8) -> usize
    requires { p < 2 ^ 32 }
    ensures { (result ≡ end_of p kind) × (result ≤ p + 133) }
{
    let w = bits_of(kind);
    p + 5 + w.first + w.second + w.third + w.fourth
}

// The field that bit `at` lies in.
pub fn field_at(card: &[u8], at: usize) -> Field
    ensures { result ≡ field_of card.now at }
{
    if at < 4 {
        return Field::Version;
    }
    if at < 8 {
        return Field::Passes;
    }
    let n = nibble(card, 4) as usize;
    let mut p = 8;
    for i in 0..n {
        let kind = nibble(card, p);
        let next = end(p, kind);
        if at < next {
            return in_record(i, kind, p, at);
        }
        p = next;
    }
    Field::Rest
}
