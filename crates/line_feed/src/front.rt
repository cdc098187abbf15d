//! The front of a line whose end has not come.
ghost use Rattle.std.specs.Prelude.{◌≡◌, ◌≢◌, ◌++◌, ℕ, List, take, OnOk};
ghost use Rattle.fx_io.specs.Answers.{IsAnswer};
ghost use Rattle.line_run.specs.Turns.{HasAtMost};
ghost use Rattle.line_feed.specs.Fed.{front_kept};

use fx_base::limits::LINE_MAX;
use fx_base::{NoMemory, Seq};
use fx_io::Line;

/// So many bytes of a line are kept, by which it is known whether it is too long.
const FRONT_MAX: usize = LINE_MAX + 1;

/// Adds bytes to the front of a line, of which no more are kept than tell whether it is too long.
pub(crate) fn add_front(front: &mut Vec<u8>, bytes: &[u8]) -> Result<(), NoMemory>
    ensures { OnOk result ((line : List ℕ) → front.old.items ≡ front_kept line → front.new.items ≡ front_kept (line ++ bytes.now)) }
{
    let room = FRONT_MAX.saturating_sub(front.len());
    front.extend_from_slice(&bytes[..bytes.len().min(room)])?;
    Ok(())
}

/// The line of which this is the front, and that ends here.
#[tactic(auto, using(crate::proofs::Fronts::long_front))]
pub(crate) fn ended(front: Vec<u8>) -> Line
    ensures answer { (line : List ℕ) → front.items ≡ front_kept line → IsAnswer 65536 line result }
    ensures short { HasAtMost 65536 result }
    ensures some { result ≢ Line.End }
{
    if front.len() > LINE_MAX {
        Line::Long
    } else {
        Line::Whole(Seq::from_vec(front))
    }
}
