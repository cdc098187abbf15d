ghost use Rattle.std.specs.Prelude.{◌≡◌, ◌↔◌, ◌==◌, ◌&&◌, ◌||◌, ℕ, true, false, IfOk, OnOk, IsErrOf};
ghost use Rattle.std.specs.List.Sorted.{IsStrictlySortedBy};
ghost use Rattle.fx_base.specs.Lists.{In};
ghost use Rattle.row_delta.specs.declared.extra.Extra.{Extra as ExtraData};
ghost use Rattle.row_delta.specs.Rows.{has};
ghost use Rattle.rule_model.specs.declared.matched.Match.{Match as MatchData};
ghost use Rattle.rule_model.specs.Matches.{has_match, match_cmp};
ghost use Rattle.laden_rows.specs.Laden.{AreOwners};
ghost use Rattle.image_laws.specs.Fitting.{IsLadenMatch};
ghost use Rattle.image_laws.specs.Images.{snapshot_of};
ghost use Rattle.rete_net.specs.Loading.{IsThere};
ghost use Rattle.image_making.specs.Loads.{CanBeLoaded, comes_by};

use crate::at_hand::{AtHand, lent_facts};
use checkpoint::Image;
use fx_base::{Fact, NoMemory, RuleId};
use rete_net::{LoadFault, Rete, RuleChange};
use row_delta::Row;
use rule_model::{Match, Moment, Program};
use std::alloc::Global;
use std::collections::BTreeSet;

// Adds the matches of a rule with these rows.
fn add_matches(
    matches: &mut BTreeSet<Match, Global>,
    rule: RuleId,
    rows: Vec<Row>,
) -> Result<(), NoMemory>
    ensures { OnOk result ((m : MatchData) → has_match matches.new.keys m ≡ (has_match matches.old.keys m || (rule.0 == m.rule.0 && has rows.items m.row))) }
{
    for row in rows {
        matches.insert(Match { rule, row })?;
    }
    Ok(())
}

// The matches of the rows that come by these changes, in order.
fn matches_of(alloc: Global, changes: Vec<RuleChange>) -> Result<Vec<Match>, NoMemory>
    ensures in_order { IfOk result (λ matches. IsStrictlySortedBy match_cmp matches.items) }
    ensures matches { IfOk result (λ matches. (m : MatchData) → has_match matches.items m ≡ comes_by changes.items m) }
{
    let mut matches = BTreeSet::new(alloc);
    for change in changes {
        let RuleChange { rule, delta } = change;
        add_matches(&mut matches, rule, delta.come.into_vec())?;
    }
    Ok(matches.into_iter().collect(alloc)?)
}

// The moment of an image.
fn moment_of(image: &Image) -> Moment<'_>
    ensures clock { result.clock ≡ image.now.clock }
    ensures last_starts { result.last_starts.now ≡ image.now.last_starts }
    ensures promises { result.promises.now ≡ image.now.promises }
{
    Moment {
        clock: image.clock,
        last_starts: image.last_starts.as_slice(),
        promises: image.promises.as_slice(),
    }
}

// What comes by the changes of a network that is loaded with these facts and with what else an image has.
fn loaded(
    alloc: Global,
    program: &Program,
    image: &Image,
    facts: &[Fact],
) -> Result<Vec<RuleChange>, LoadFault>
    requires loads { CanBeLoaded program.now image.now }
    requires facts { facts.now ≡ image.now.facts }
    ensures rows { IfOk result (λ changes. (owners : ℕ → ℕ → ℕ) → AreOwners program.now owners → (m : MatchData)
        → (comes_by changes.items m ≡ true) ↔ IsLadenMatch program.now image.now owners m.rule.0 m.row) }
    ensures no_row { IsErrOf result LoadFault.NoRow → (owners : ℕ → ℕ → ℕ) → AreOwners program.now owners
        → (e : ExtraData) × In e image.now.extras × IsThere program.now (snapshot_of image.now) image.now.extras owners e false }
{
    let held = AtHand::of(alloc, facts)?;
    let kept = lent_facts(alloc, facts)?;
    let moment = moment_of(image);
    let extras = image.extras.as_slice();
    let (_, changes) = Rete::load(alloc, program, &kept, extras, &moment, &held)?;
    Ok(changes)
}

/// What the rules of a program match over an image, in order, as a network has it that is loaded with its facts and extras. `NoRow`: only where the row of
/// an extra is none of the conditions before its own. It costs what the network costs that is loaded, which it drops, and the logarithm for each match.
pub fn laden_matches(
    alloc: Global,
    program: &Program,
    image: &Image,
) -> Result<Vec<Match>, LoadFault>
    requires { CanBeLoaded program.now image.now }
    ensures in_order { IfOk result (λ matches. IsStrictlySortedBy match_cmp matches.items) }
    ensures matches { IfOk result (λ matches. (owners : ℕ → ℕ → ℕ) → AreOwners program.now owners → (m : MatchData)
        → (has_match matches.items m ≡ true) ↔ IsLadenMatch program.now image.now owners m.rule.0 m.row) }
    ensures no_row { IsErrOf result LoadFault.NoRow → (owners : ℕ → ℕ → ℕ) → AreOwners program.now owners
        → (e : ExtraData) × In e image.now.extras × IsThere program.now (snapshot_of image.now) image.now.extras owners e false }
{
    let changes = loaded(alloc, program, image, image.facts.as_slice())?;
    Ok(matches_of(alloc, changes)?)
}
