// Passes and settings by name, as document 01 calls them.

fn text(fd: i32, words: &[u8]) {
    io::write_all(fd, words);
}

// The pass of that kind.
pub fn kind(fd: i32, kind: u8) {
    match kind {
        1 => text(fd, b"NTSC"),
        2 => text(fd, b"bloom"),
        3 => text(fd, b"gradient"),
        4 => text(fd, b"persistence"),
        5 => text(fd, b"LUT"),
        6 => text(fd, b"curvature"),
        7 => text(fd, b"colour"),
        8 => text(fd, b"CRT"),
        9 => text(fd, b"vignette"),
        _ => text(fd, b"scanlines"),
    }
}

fn ntsc(fd: i32, j: usize) {
    match j {
        0 => text(fd, b"strength"),
        _ => text(fd, b"bleed"),
    }
}

fn bloom(fd: i32, j: usize) {
    match j {
        0 => text(fd, b"threshold"),
        1 => text(fd, b"strength"),
        _ => text(fd, b"radius"),
    }
}

fn gradient(fd: i32, j: usize) {
    match j {
        0 => text(fd, b"strength"),
        1 => text(fd, b"vertical"),
        _ => text(fd, b"horizontal"),
    }
}

fn persistence(fd: i32, j: usize) {
    match j {
        0 => text(fd, b"amount"),
        _ => text(fd, b"depth"),
    }
}

fn lut(fd: i32, j: usize) {
    match j {
        0 => text(fd, b"preset"),
        _ => text(fd, b"strength"),
    }
}

fn colour(fd: i32, j: usize) {
    match j {
        0 => text(fd, b"brightness"),
        1 => text(fd, b"contrast"),
        2 => text(fd, b"saturation"),
        _ => text(fd, b"gamma"),
    }
}

// The setting at place j of a pass of that kind, in the card's order.
pub fn setting(fd: i32, kind: u8, j: usize) {
    match kind {
        1 => ntsc(fd, j),
        2 => bloom(fd, j),
        3 => gradient(fd, j),
        4 => persistence(fd, j),
        5 => lut(fd, j),
        6 => text(fd, b"amount"),
        7 => colour(fd, j),
        _ => text(fd, b"strength"),
    }
}
