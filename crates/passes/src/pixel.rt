// A pixel word 0xRRGGBB, its three channels, and the ways from channels back to a word.
ghost use Rattle.std.specs.Prelude.{◌≡◌, ℕ, ◌+◌, ◌*◌, ◌≤◌, Float};
ghost use Rattle.passes.specs.Plain.Pixel as Pixel;

#[derive(Clone, Copy, Debug, PartialEq)]
pub struct Rgb {
    pub r: f32,
    pub g: f32,
    pub b: f32,
}

impl Rgb {
    // The colour of the channels that `f` makes of these.
    pub fn map<F: Fn(f32) -> f32>(self, f: F) -> Rgb
        requires { F.IsAlwaysCallable f }
        ensures { F.post f self.r result.r × F.post f self.g result.g × F.post f self.b result.b }
    {
        Rgb {
            r: f(self.r),
            g: f(self.g),
            b: f(self.b),
        }
    }
}

// The channels of a word, 0 to 255. The top byte is ignored.
pub fn unpack(p: u32) -> Rgb
    ensures { result ≡ Pixel.unpack p }
{
    Rgb {
        r: (p / 65536 % 256) as u8 as f32,
        g: (p / 256 % 256) as u8 as f32,
        b: (p % 256) as u8 as f32,
    }
}

// The channels of a word, 0 to 1.
pub fn unit(p: u32) -> Rgb
    ensures { result ≡ Pixel.unit p }
{
    unpack(p).map(|x| x / 255.0)
}

// Red, green or blue by number.
pub fn channel(which: usize, c: Rgb) -> f32
    ensures { result ≡ Pixel.channel which c }
{
    match which {
        0 => c.r,
        1 => c.g,
        _ => c.b,
    }
}

pub fn scaled(c: Rgb, factor: f32) -> Rgb
    ensures { result ≡ Pixel.scaled factor c }
{
    c.map(|x| x * factor)
}

// A word of three channels, each converted by `whole`.
fn packed<F: Fn(f32) -> u32>(c: Rgb, whole: F) -> u32
    requires callable { F.IsAlwaysCallable whole }
    requires small { (x : Float) (k : ℕ) → F.post whole x k → k ≤ 1023 }
    ensures { (red green blue : ℕ) × F.post whole c.r red × F.post whole c.g green × F.post whole c.b blue
        × (result ≡ red * 65536 + green * 256 + blue) }
{
    whole(c.r) * 65536 + whole(c.g) * 256 + whole(c.b)
}

// Each channel cut to a whole number.
pub fn pack(c: Rgb) -> u32
    ensures { result ≡ Pixel.pack c }
{
    packed(c, |x| num::whole::cut(x))
}

// Each channel rounded.
pub fn pack_nearest(c: Rgb) -> u32
    ensures { result ≡ Pixel.pack_nearest c }
{
    packed(c, |x| num::whole::nearest(x))
}

// The final conversion from 0..255: each channel clamped, then cut.
pub fn pack_clamped(c: Rgb) -> u32
    ensures { result ≡ Pixel.pack_clamped c }
{
    packed(c, |x| num::whole::cut_clamped(x))
}

// The final conversion from 0..1: each channel clamped, times 255, then cut.
pub fn pack_unit(c: Rgb) -> u32
    ensures { result ≡ Pixel.pack_unit c }
{
    packed(c, |x| num::whole::cut_unit(x))
}

// A word's channels times a factor.
pub fn dim(p: u32, factor: f32) -> u32
    ensures { result ≡ Pixel.dim factor p }
{
    pack(scaled(unpack(p), factor))
}

// BT.709.
pub fn luma709(c: Rgb) -> f32
    ensures { result ≡ Pixel.luma709 c }
{
    0.2126 * c.r + 0.7152 * c.g + 0.0722 * c.b
}

// BT.601.
pub fn luma601(c: Rgb) -> f32
    ensures { result ≡ Pixel.luma601 c }
{
    0.299 * c.r + 0.587 * c.g + 0.114 * c.b
}
