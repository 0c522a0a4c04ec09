// The Adler-32 checksum of RFC 1950.
ghost use Rattle.std.specs.Prelude.{◌≡◌, ◌≤◌};
ghost use Rattle.replay.specs.Adler.{add_byte, adler_of};

#[derive(Clone, Copy, Debug, PartialEq, Eq)]
pub struct Sums {
    pub a: u32,
    pub b: u32,
}

#[tactic(auto, unfolding(crate::specs::Adler::add_byte))]
fn add(s: Sums, byte: u8) -> Sums
    requires { (s.a ≤ 65520) × (s.b ≤ 65520) }
    ensures { (result ≡ add_byte s byte) × (result.a ≤ 65520) × (result.b ≤ 65520) }
{
    let a = (s.a + byte as u32) % 65521;
    let b = (s.b + a) % 65521;
    Sums { a, b }
}

pub fn adler(bytes: &[u8]) -> u32
    ensures { result ≡ adler_of bytes.now }
{
    let mut s = Sums { a: 1, b: 0 };
    for byte in bytes {
        s = add(s, *byte);
    }
    s.b * 65536 + s.a
}
