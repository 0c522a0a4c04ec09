// Words on standard output; switches and presets by name, as document 01 calls them.
use cli::stream::STDOUT_FILENO;

pub fn text(words: &[u8]) {
    io::write_all(STDOUT_FILENO, words);
}

pub fn switch(on: bool) {
    if on {
        text(b"on");
    } else {
        text(b"off");
    }
}

pub fn preset(preset: u8) {
    match preset {
        0 => text(b" (identity)"),
        1 => text(b" (warm CRT)"),
        2 => text(b" (cool CRT)"),
        3 => text(b" (composite)"),
        4 => text(b" (Game Boy)"),
        5 => text(b" (amber)"),
        _ => text(b" (high contrast)"),
    }
}
