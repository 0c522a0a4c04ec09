// Names of passes, of their settings and of presets, as they are printed; and looked for.
ghost use Rattle.std.specs.Prelude.{◌≡◌, [], get_or};
ghost use Rattle.texts.specs.Names.{kind_names, kind_name, preset_names, preset_name, four, setting_name, found, below};
ghost use Rattle.texts.specs.Words.{is as is_of};

use super::words::is;

// The pass of that kind; 0 is a chain without one.
pub fn kind_name(kind: u8) -> &'static [u8]
    ensures { result.now ≡ kind_name kind }
{
    match kind {
        0 => b"none",
        1 => b"NTSC",
        2 => b"bloom",
        3 => b"gradient",
        4 => b"persistence",
        5 => b"LUT",
        6 => b"curvature",
        7 => b"colour",
        8 => b"CRT",
        9 => b"vignette",
        10 => b"scanlines",
        _ => b"",
    }
}

pub fn preset_name(preset: u8) -> &'static [u8]
    ensures { result.now ≡ preset_name preset }
{
    match preset {
        0 => b"identity",
        1 => b"warm-CRT",
        2 => b"cool-CRT",
        3 => b"composite",
        4 => b"Game-Boy",
        5 => b"amber",
        6 => b"high-contrast",
        _ => b"",
    }
}

// The name at place j of four.
fn pick(
    j: usize,
    a: &'static [u8],
    b: &'static [u8],
    c: &'static [u8],
    d: &'static [u8],
) -> &'static [u8]
    ensures { result.now ≡ get_or (four a.now b.now c.now d.now) j [] }
{
    match j {
        0 => a,
        1 => b,
        2 => c,
        3 => d,
        _ => b"",
    }
}

// The setting at place j of a pass of that kind, in the card's order.
pub fn setting_name(kind: u8, j: usize) -> &'static [u8]
    ensures { result.now ≡ setting_name kind j }
{
    match kind {
        1 => pick(j, b"strength", b"bleed", b"", b""),
        2 => pick(j, b"threshold", b"strength", b"radius", b""),
        3 => pick(j, b"strength", b"vertical", b"horizontal", b""),
        4 => pick(j, b"amount", b"depth", b"", b""),
        5 => pick(j, b"preset", b"strength", b"", b""),
        6 => pick(j, b"amount", b"", b"", b""),
        7 => pick(j, b"brightness", b"contrast", b"saturation", b"gamma"),
        8 => pick(j, b"strength", b"", b"", b""),
        9 => pick(j, b"strength", b"", b"", b""),
        10 => pick(j, b"strength", b"", b"", b""),
        _ => b"",
    }
}

// Whether a word is the name of that setting.
pub(crate) fn is_setting(word: &[u8], kind: u8, j: usize) -> bool
    ensures { result ≡ is_of word.now (setting_name kind j) }
{
    is(word, setting_name(kind, j))
}

// The kind whose pass a word names, 0 for a chain without one.
pub(crate) fn find_kind(word: &[u8]) -> Option<u8>
    ensures { result ≡ below 11 (found kind_names word.now 0) }
{
    (0..11).find(|kind| is(word, kind_name(*kind)))
}

// The preset that a word names.
pub(crate) fn find_preset(word: &[u8]) -> Option<u8>
    ensures { result ≡ below 7 (found preset_names word.now 0) }
{
    (0..7).find(|preset| is(word, preset_name(*preset)))
}
