// Three by three words for each pixel of a source.
ghost use Rattle.std.specs.Prelude.{◌≡◌, ◌*◌, ◌/◌, ◌%◌, ◌<◌, ◌≤◌, length, get_or};
ghost use Rattle.num.specs.Rewrite.{fill};
ghost use Rattle.passes.specs.Rows.{sampled};
ghost use Rattle.cabinet.specs.Promises.{Sourced};
ghost use Rattle.cabinet.specs.Source.{bad_source_side, shown_by, enlarged_at};

#[tactic(auto, unfolding(crate::specs::Source::bad_source_side))]
pub(crate) fn bad_side(side: usize) -> bool
    ensures { result ≡ bad_source_side side }
{
    side == 0 || 341 < side
}

// The word of a number.
fn colour(colours: &[u32], p: u8) -> u32
    requires { 64 ≤ length colours.now }
    ensures { result ≡ shown_by colours.now p }
{
    colours[(p % 64) as usize]
}

// One line of the enlarged frame: three words for each number of the row.
fn line(out: &mut [u32], row: &[u8], colours: &[u32])
    requires { (length out.old ≡ 3 * length row.now) × (length row.now ≤ 341) × (64 ≤ length colours.now) }
    ensures { out.new ≡ fill (λ x. shown_by colours.now (get_or row.now (x / 3) 0)) out.old }
{
    let mut x = 0;
    while x < row.len() {
        let c = colour(colours, row[x]);
        out[3 * x] = c;
        out[3 * x + 1] = c;
        out[3 * x + 2] = c;
        x += 1;
    }
}

// The lines below the first one of a block, each as the one above it.
fn repeat(out: &mut [u32], wide: usize)
    requires { (0 < wide) × (wide ≤ length out.old) × (length out.old ≤ 3069) }
    ensures { out.new ≡ fill (λ i. get_or out.old (i % wide) 0) out.old }
{
    let mut i = wide;
    while i < out.len() {
        out[i] = out[i - wide];
        i += 1;
    }
}

// The three lines of a row: the first one from its numbers, and that one twice more, which is quicker than to look up each number three times.
fn block(out: &mut [u32], row: &[u8], colours: &[u32])
    requires { (length out.old ≡ 3 * (3 * length row.now)) × (0 < length row.now) × (length row.now ≤ 341) × (64 ≤ length colours.now) }
    ensures { out.new
        ≡ fill (λ i. shown_by colours.now (get_or row.now (i % (3 * length row.now) / 3) 0)) out.old }
{
    let wide = 3 * row.len();
    line(&mut out[..wide], row, colours);
    repeat(out, wide);
}

// The enlarged frame: a block of three lines for each row of the picture.
pub fn enlarge(out: &mut [u32], picture: &[u8], width: usize, height: usize, colours: &[u32])
    requires { Sourced width height picture.now colours.now out.old }
    ensures { out.new ≡ sampled (3 * width) (enlarged_at width picture.now colours.now) out.old }
{
    let nine = 3 * (3 * width);
    let mut y = 0;
    let mut at = 0;
    while y < height {
        let end = at + nine;
        let first = y * width;
        let last = first + width;
        block(&mut out[at..end], &picture[first..last], colours);
        at = end;
        y += 1;
    }
}
