// The words of a frame on a sheet, as crate sheets reads them. Nothing here is assumed but what `unpack` asks for.
ghost use Rattle.std.specs.Prelude.{◌≡◌, ◌+◌, ◌*◌, ◌^◌, ◌<◌, ◌≤◌, length};
ghost use Rattle.cards.specs.Bits.{value_at};
ghost use Rattle.num.specs.Rewrite.{fill};

#[unsafe(no_mangle)]
pub extern "C" fn probe_unpack(words: &mut [u32], sheet: &[u8], from: usize)
    requires { (0 < from) × (from + 24 * length words.old ≤ 8 * length sheet.now) × (from < 2 ^ 44) }
    ensures { words.new ≡ fill (λ i. value_at sheet.now (from + 24 * i) 24) words.old }
{
    sheets::pixels::unpack(words, sheet, from)
}
