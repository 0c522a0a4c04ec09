// Pixels: as words 0xRRGGBB, and as three bytes each, red first.
ghost use Rattle.std.specs.Prelude.{◌++◌, ◌≡◌, ◌+◌, ◌*◌, ◌<◌, ◌≤◌, length, drop};
ghost use Rattle.raster.specs.Pixels.{byte_at, pixel_at, unpacked, packed_bytes};

// Byte i.
pub fn at(bytes: &[u8], i: usize) -> usize
    requires { i < length bytes.now }
    ensures { (result ≡ byte_at bytes.now i) × (result ≤ 255) }
{
    bytes[i] as usize
}

// The pixel of the three bytes from i on.
fn pixel(bytes: &[u8], i: usize) -> u32
    requires { i + 2 < length bytes.now }
    ensures { result ≡ pixel_at bytes.now i }
{
    let red = at(bytes, i);
    let green = at(bytes, i + 1);
    let blue = at(bytes, i + 2);
    (red * 65536 + green * 256 + blue) as u32
}

// Words from three bytes each. Bytes past the last word's are not read.
#[tactic(auto, using(crate::proofs::Unpacking::none))]
pub fn unpack(words: &mut [u32], bytes: &[u8])
    requires { 3 * length words.old ≤ length bytes.now }
    ensures { words.new ≡ unpacked (length words.old) bytes.now }
{
    for (i, word) in words.iter_mut().enumerate() {
        *word = pixel(bytes, 3 * i);
    }
}

// Three bytes from each word, whose top byte is left out. Bytes past the last word's stay.
#[tactic(auto, using(crate::proofs::Packing::none))]
pub fn pack(bytes: &mut [u8], words: &[u32])
    requires { 3 * length words.now ≤ length bytes.old }
    ensures { bytes.new ≡ packed_bytes words.now ++ drop (3 * length words.now) bytes.old }
{
    for (i, word) in words.iter().enumerate() {
        bytes[3 * i] = (word / 65536 % 256) as u8;
        bytes[3 * i + 1] = (word / 256 % 256) as u8;
        bytes[3 * i + 2] = (word % 256) as u8;
    }
}
