ghost use Rattle.std.specs.Prelude.{◌≡◌, true, OnOk};
ghost use Rattle.row_change.specs.Changes.{changes_nothing};
ghost use Rattle.rete_net.specs.Answers.{IsAnswerPut};
ghost use Rattle.rete_net.specs.Steps.{no_change};

use crate::answered::Answered;
use crate::index::Index;
use fx_base::NoMemory;
use row_change::changes_nothing;
use row_delta::Delta;

/// Puts what the node in a place answers, where it has a row.
pub(crate) fn put_delta(
    answered: &mut Answered<Delta>,
    index: &Index,
    place: usize,
    delta: Delta,
) -> Result<(), NoMemory>
    ensures put { OnOk result (answered.old.none ≡ no_change → IsAnswerPut index.now place delta answered.old answered.new) }
    ensures nothing { OnOk result (changes_nothing delta ≡ true → answered.new ≡ answered.old) }
{
    if changes_nothing(&delta) {
        return Ok(());
    }
    answered.put(index, place, delta)
}
