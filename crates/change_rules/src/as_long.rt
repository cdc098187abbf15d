//! Whether lives are as long as those of rules.
ghost use Rattle.std.specs.Prelude.{◌≡◌};
ghost use Rattle.change_rules.specs.AsLong.{are_as_long, is_life_as_long as is_as_long_as};

use fx_base::Millis;
use rule_model::{Life, LifeTable};

/// The longest finite life.
const LIFE_MAX: Millis = 4_611_686_018_427_387_904;

// Whether a life is as long as a type's own one.
fn is_life_as_long(own: Life, life: Life) -> bool
    ensures { result ≡ is_as_long_as own life }
{
    match (own, life) {
        (Life::Plain, Life::Plain) => true,
        (Life::Explicit(own), Life::Explicit(expiry)) => own == expiry,
        (Life::Finite(own), Life::Finite(life)) => own <= life && life <= LIFE_MAX,
        (Life::Finite(_) | Life::Infinite, Life::Infinite) => true,
        _ => false,
    }
}

/// Whether the lives of a table are as long as a program's own ones: as many, each of its kind, a finite one at least as long and at most 2^62 ms, or for
/// ever. Takes no memory.
pub fn is_as_long(own: &LifeTable, table: &LifeTable) -> bool
    ensures { result ≡ are_as_long own.now table.now }
{
    let own = own.lives.as_slice();
    let lives = table.lives.as_slice();
    if own.len() != lives.len() {
        return false;
    }
    for place in 0..own.len() {
        if !is_life_as_long(own[place], lives[place]) {
            return false;
        }
    }
    true
}
