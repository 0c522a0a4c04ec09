// The lines that a walk works with: a word for each place of the longest row, and three running sums for each and behind the
// last. A long array is made by a function, so that a proof sees its length alone.
ghost use Rattle.std.specs.Prelude.{◌≡◌, ◌≤◌, length};
ghost use Rattle.areas.specs.Private.{Changed};

pub(crate) fn line<const N: usize>() -> [u64; N]
    ensures { length result ≡ N }
{
    [0; N]
}

// The words from `from` to `to` are 0.
pub(crate) fn clear(line: &mut [u64], from: usize, to: usize)
    requires { (from ≤ to) × (to ≤ length line.old) }
    ensures { Changed from to (λ x v. 0) line.old line.new }
{
    line[from..to].fill(0);
}
