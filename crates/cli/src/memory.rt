// The buffers that a frame's file is read into: up to 61,440 pixels, 256 by 240 or of another shape. A long array is made by a function, so that a proof
// sees its length alone.
ghost use Rattle.std.specs.Prelude.{◌≡◌, length};

// 61,440 pixels of three bytes, and 4,096 for the header.
pub fn file() -> [u8; 188416]
    ensures { 188416 ≡ length result }
{
    [0; 188416]
}

pub fn words() -> [u32; 61440]
    ensures { 61440 ≡ length result }
{
    [0; 61440]
}
