ghost use Rattle.std.specs.Prelude.{◌≡◌, option_map, cond, Some, None};
ghost use Rattle.std.specs.Option.{is_some};
ghost use Rattle.join_tests.specs.Joins.{is_named_version, version_at, versions_at, joins};

use fx_base::{Fact, Facts};
use row_delta::{Named, Row};
use rule_model::Pattern;

/// Whether the candidate that is named passes for what a row has bound, by the facts that are at hand; `false` where one of
/// the versions that are named is not. It takes no memory, and costs the tests, and a look-up of each fact where they hold.
#[tactic(auto, using(crate::proofs::Versions::joins_none))]
pub fn does_join<F: Facts>(pattern: &Pattern, facts: &F, row: &Row, who: Named) -> bool
    ensures { result ≡ joins pattern.now (F.map facts.now) row.now who }
{
    match version(facts, who) {
        Some(fact) => pattern.passes(fact, row, facts) && are_at_hand(facts, row.facts.as_slice()),
        None => false,
    }
}

/// The version that is named, where it is at hand. Takes no memory.
fn version<F: Facts>(facts: &F, named: Named) -> Option<&Fact>
    ensures { option_map (λ f. f.now) result ≡ version_at (F.map facts.now) named }
{
    match facts.fact(named.tag) {
        Some(fact) => only_version(fact, named),
        None => None,
    }
}

fn only_version(fact: &Fact, named: Named) -> Option<&Fact>
    ensures { option_map (λ f. f.now) result ≡ cond (is_named_version named fact.now) (Some fact.now) None }
{
    let name = Named {
        id: fact.id,
        tag: fact.tag,
    };
    if name == named { Some(fact) } else { None }
}

/// Whether all the versions that are named are at hand. Takes no memory.
fn are_at_hand<F: Facts>(facts: &F, names: &[Named]) -> bool
    ensures { result ≡ is_some (versions_at (F.map facts.now) names.now) }
{
    for named in names {
        match version(facts, *named) {
            Some(_) => {}
            None => return false,
        }
    }
    true
}
