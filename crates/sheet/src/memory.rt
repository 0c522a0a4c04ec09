// The buffers. One holds a sheet, or a file of events, of up to two megabytes. The others are lent to a frame of up to 61,440 pixels, up to 1,024 wide,
// besides its words: a history of eight such frames, and scratch. To play a sheet takes some 7.5 megabytes of stack, four of which are the buffers of `main`:
// that of the file, and that of the sheet which it may have to record. How long the buffers are, their types say.

pub fn bytes() -> [u8; 2097152] {
    [0; 2097152]
}

pub fn history() -> [u32; 491520] {
    [0; 491520]
}

// 3 * 61,440 + 3 * 1,024.
pub fn floats() -> [f32; 187392] {
    [0.0; 187392]
}

pub fn ints() -> [u32; 61440] {
    [0; 61440]
}
