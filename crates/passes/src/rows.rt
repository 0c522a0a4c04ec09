// What passes by row and column share: where a place lies along a side, and a copy of a frame.
// The loop over rows stands in each pass: one loop that is handed a closure would have each call state, at its closure, what the row's
// function requires, which is longer than the loop. A frame comes as its words, width and height (`Frame` of specs/Rows.antt), and in no
// struct, since the crates above call each `apply` so.
ghost use Rattle.std.specs.Prelude.{◌≡◌, ◌-◌, ◌≤◌, max, length};
ghost use Rattle.passes.specs.Plain.Position as Position;

// n - 1, and at least 1.
fn last(n: usize) -> usize
    ensures { result ≡ max (n - 1) 1 }
{
    n.saturating_sub(1).max(1)
}

// Where k lies among 0..n - 1, as -1..1.
pub fn position(n: usize, k: usize) -> f32
    requires { (n ≤ 1024) × (k ≤ 1024) }
    ensures { result ≡ Position.position n k }
{
    k as u16 as f32 / last(n) as u16 as f32 * 2.0 - 1.0
}

// One word after another, and not by the library's `copy_from_slice`, which would have the archive for C ask for `memmove` too: of
// two buffers that are apart this loop becomes `memcpy`.
pub fn copy(to: &mut [u32], from: &[u32])
    requires { length to.old ≡ length from.now }
    ensures { to.new ≡ from.now }
{
    for (x, word) in to.iter_mut().enumerate() {
        *word = from[x];
    }
}
