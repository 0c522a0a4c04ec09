// Scanlines: odd rows are dimmed.
ghost use Rattle.std.specs.Prelude.{◌≡◌};
ghost use Rattle.num.specs.Rewrite.{every};
ghost use Rattle.passes.specs.Rows.{Frame};
ghost use Rattle.passes.specs.Plain.Scanlines as Scanlines;

use crate::pixel;

// One row of the frame.
fn row(row: &mut [u32], y: usize, strength: f32)
    ensures { row.new ≡ every (λ x. Scanlines.word_at strength x y) row.old }
{
    if y % 2 == 0 {
        return;
    }
    let factor = 1.0 - strength;
    for word in row.iter_mut() {
        *word = pixel::dim(*word, factor);
    }
}

#[tactic(auto, using(crate::proofs::RowLoops::row_loop), unfolding(crate::specs::Scanlines::scanlines))]
pub fn apply(frame: &mut [u32], width: usize, height: usize, strength: f32)
    requires { Frame width height frame.old }
    ensures { frame.new ≡ Scanlines.scanlines width strength frame.old }
{
    for y in 0..height {
        let at = y * width;
        row(&mut frame[at..at + width], y, strength);
    }
}
