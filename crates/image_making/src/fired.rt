//! Fired matches, and what is taken as fired of what the new rules match.
ghost use Rattle.std.specs.Prelude.{◌≡◌, ◌<◌, ◌++◌, ◌^◌, ℕ, Some, map, IfOk, OnOk};
ghost use Rattle.std.specs.List.{filter};
ghost use Rattle.change_rules.specs.Staying.{place_in};
ghost use Rattle.image_laws.specs.Images.{match_fired};
ghost use Rattle.rule_change.specs.Changed.{is_marked, was_fired};
ghost use Rattle.rule_model.specs.declared.matched.Match.{Match as MatchData};
ghost use Rattle.rule_model.specs.Matches.{has_match};
ghost use Rattle.image_making.specs.Marks.{if_marked};

use checkpoint::FiredMatch;
use fx_base::{Copies, NoMemory, RuleId};
use rule_model::Match;
use std::alloc::Global;
use std::collections::BTreeSet;

/// The fired matches in a set. It copies them.
pub(crate) fn fired_set(
    alloc: Global,
    fired: &[FiredMatch],
) -> Result<BTreeSet<Match, Global>, NoMemory>
    ensures { IfOk result (λ set. (m : MatchData) → has_match set.keys m ≡ has_match (map match_fired fired.now) m) }
{
    let mut set = BTreeSet::new(alloc);
    for matched in fired {
        let row = matched.row.copy(alloc)?;
        set.insert(Match {
            rule: matched.rule,
            row,
        })?;
    }
    Ok(set)
}

// Adds a match of a new rule, or of one that stays as the rule in a place, where it was fired.
fn put_marked(
    marked: &mut Vec<FiredMatch>,
    place: Option<usize>,
    fired: &BTreeSet<Match, Global>,
    matched: Match,
) -> Result<(), NoMemory>
    requires { (old : ℕ) → place ≡ Some old → old < 2 ^ 16 }
    ensures { OnOk result (map match_fired marked.new.items ≡ map match_fired marked.old.items ++ if_marked (was_fired fired.now.keys matched place) matched) }
{
    let Match { rule, row } = matched;
    match place {
        None => marked.push(FiredMatch { rule, row })?,
        Some(old) => {
            let was = Match {
                rule: RuleId(old as u16),
                row,
            };
            if fired.contains(&was) {
                let Match { row, .. } = was;
                marked.push(FiredMatch { rule, row })?;
            }
        }
    }
    Ok(())
}

// The place of the old rule that stays as this one.
fn place_of(places: &[Option<usize>], rule: RuleId) -> Option<usize>
    ensures { result ≡ place_in places.now rule.0 }
{
    places.get(rule.0 as usize).copied().flatten()
}

/// Those of these matches that are of a new rule, or were fired, in their order. It costs the logarithm of the fired ones for each.
pub(crate) fn marked_matches(
    alloc: Global,
    places: &[Option<usize>],
    fired: &BTreeSet<Match, Global>,
    matches: Vec<Match>,
) -> Result<Vec<FiredMatch>, NoMemory>
    requires { (new old : ℕ) → place_in places.now new ≡ Some old → old < 2 ^ 16 }
    ensures { IfOk result (λ marked. map match_fired marked.items ≡ filter (is_marked (place_in places.now) fired.now.keys) matches.items) }
{
    let mut marked = Vec::new(alloc);
    for matched in matches {
        let place = place_of(places, matched.rule);
        put_marked(&mut marked, place, fired, matched)?;
    }
    Ok(marked)
}
