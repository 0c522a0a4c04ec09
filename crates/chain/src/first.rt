// The first record of a kind: a switch, a preset step and a new depth are of that one.
ghost use Rattle.std.specs.Prelude.{◌≡◌, eqb, IfOk};
ghost use Rattle.std.specs.List.{position};
ghost use Rattle.num.specs.Refusals.{code};
ghost use Rattle.cards.specs.Passes.{kind_of};
ghost use Rattle.chain.specs.Calls.{lacks};
ghost use Rattle.chain.specs.Lent.{Found};

use cards::station::{Record, Station};
use num::refusal::Refusal;

// The place of the first record of that kind.
fn first(records: &[Record], kind: u8) -> Option<usize>
    ensures { result ≡ position (λ r. eqb (kind_of r.pass) kind) records.now }
{
    records.iter().position(|r| r.pass.kind() == kind)
}

// The place of the first record of that kind in a station's chain. A call on the pass of that kind is refused where there is none.
#[tactic(auto, unfolding(crate::specs::Calls::lacks))]
pub(crate) fn place(station: &Station, kind: u8) -> Result<usize, Refusal>
    ensures refusal { code result ≡ lacks station.now kind }
    ensures place { IfOk result (Found kind station.now) }
{
    if !station.is_good() {
        return Err(Refusal::BadStation);
    }
    first(station.chain(), kind).ok_or(Refusal::NotInChain)
}
