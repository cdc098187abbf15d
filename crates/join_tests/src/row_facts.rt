//! What a row names, as it is looked up among the facts at hand.
ghost use Rattle.std.specs.Prelude.{◌≡◌, option_map};
ghost use Rattle.rule_model.specs.Lent.{named_at};
ghost use Rattle.rule_model.specs.Tests.{field_of};

use fx_base::{Fact, Facts, Value};
use row_delta::Row;

/// The fact that a row names in a place, or nothing where it names none there or the fact is not at hand. It takes no memory, and
/// costs a look-up.
pub fn named_fact<'a, F: Facts>(row: &Row, place: u8, facts: &'a F) -> Option<&'a Fact>
    ensures { option_map (λ f. f.now) result ≡ named_at (F.map facts.now) row.now.facts place }
{
    match row.facts.as_slice().get(place as usize) {
        Some(named) => facts.fact(named.tag),
        None => None,
    }
}

/// The value in a field of a fact, or nothing where there is no fact or it has no such field. Takes no memory.
pub fn field_value<'a>(fact: Option<&'a Fact>, field: u8) -> Option<&'a Value>
    ensures { option_map (λ v. v.now) result ≡ field_of (option_map (λ f. f.now) fact.entry) field }
{
    match fact {
        Some(fact) => fact.fields.as_slice().get(field as usize),
        None => None,
    }
}
