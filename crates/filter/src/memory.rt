// The buffers that are lent to a frame of up to 61,440 pixels, up to 1,024 wide, besides its words: a history of 24 such frames, since three
// persistence passes of depth 8 are the most that a card has, and scratch. With the file and the words some 7.4 megabytes of stack. How long
// they are, their types say.

pub fn history() -> [u32; 1474560] {
    [0; 1474560]
}

// 3 * 61,440 + 3 * 1,024.
pub fn floats() -> [f32; 187392] {
    [0.0; 187392]
}

pub fn ints() -> [u32; 61440] {
    [0; 61440]
}
