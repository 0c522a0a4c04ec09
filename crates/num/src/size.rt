// Sizes of pictures. Definitions: specs/Refusals.antt, specs/Held.antt.
ghost use Rattle.std.specs.Prelude.{◌≡◌, ◌≤◌};
ghost use Rattle.num.specs.Held.{area as areaOf, same_held, fine_held};
ghost use Rattle.num.specs.Refusals.{bad_side};

// Whether no picture has a side of that length: it is 0, or above 1024.
#[tactic(auto, unfolding(crate::specs::Refusals::bad_side))]
pub fn bad_side(x: usize) -> bool
    ensures { result ≡ bad_side x }
{
    x == 0 || 1024 < x
}

// A width and a height; what a history holds, with both 0 for nothing.
#[derive(Clone, Copy, Debug, PartialEq, Eq)]
pub struct Size {
    pub width: u16,
    pub height: u16,
}

impl Size {
    pub const NOTHING: Size = Size {
        width: 0,
        height: 0,
    };

    // The words of one frame of that size.
    pub fn area(self) -> usize
        ensures { (result ≡ areaOf self) × (result ≤ 4294836225) }
    {
        self.height as usize * self.width as usize
    }

    // Whether a history may hold that: no side above 1024, and both are 0 or neither is.
    #[tactic(auto, unfolding(crate::specs::Held::fine_held))]
    pub fn is_fine(self) -> bool
        ensures { result ≡ fine_held self }
    {
        self.width <= 1024 && self.height <= 1024 && (self.width == 0) == (self.height == 0)
    }
}

// Whether two sizes are one: neither side differs.
pub fn same(a: Size, b: Size) -> bool
    ensures { result ≡ same_held a b }
{
    a.width == b.width && a.height == b.height
}
