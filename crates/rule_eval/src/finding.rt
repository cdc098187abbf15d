ghost use Rattle.std.specs.Prelude.{◌≡◌, ◌++◌, map, IfOk, OnOk};
ghost use Rattle.std.specs.List.{filter, flat_map};
ghost use Rattle.rule_eval.specs.Found.{made_by};
ghost use Rattle.rule_eval.specs.Over.{over};
ghost use Rattle.rule_model.specs.Candidates.{passes};
ghost use Rattle.rule_model.specs.Lent.{lent};
ghost use Rattle.rule_model.specs.Maturity.{AreOperators};
ghost use Rattle.rule_model.specs.Rows.{result_of as result_by, with_result, extended, tuples, rows, pattern_of, HaveOperators};
ghost use Rattle.rule_model.specs.Tuples.{empty_tuple, with_fact};
ghost use Rattle.rule_model.specs.declared.program.Rule.{Rule};
ghost use Rattle.rule_world.specs.Programs.{UseOperators};

use crate::bindings::{Bindings, rows_named};
use crate::finder::Finder;
use crate::folding::{do_hold, result_of};
use fx_base::{Fact, NoMemory, Seq};
use row_delta::Row;
use rule_model::{Accumulate, Condition, Moment, Program};
use std::alloc::Global;

// Adds the bindings with each of these facts.
fn extend_by_each<'f>(
    alloc: Global,
    out: &mut Vec<Bindings<'f>>,
    bindings: &Bindings<'f>,
    passing: &[&'f Fact],
) -> Result<(), NoMemory>
    ensures { OnOk result (out.new.items ≡ out.old.items ++ map (with_fact bindings.now) (lent passing.now)) }
{
    for fact in passing {
        out.push(bindings.with_fact(alloc, fact)?)?;
    }
    Ok(())
}

// Adds the bindings with what an accumulate gives of these facts, where its tests hold.
fn extend_by_result<'f>(
    alloc: Global,
    out: &mut Vec<Bindings<'f>>,
    accumulate: &Accumulate,
    bindings: &Bindings<'f>,
    passing: &[&'f Fact],
) -> Result<(), NoMemory>
    ensures { OnOk result (out.new.items ≡ out.old.items ++ with_result accumulate.now bindings.now (result_by accumulate.now (lent passing.now))) }
{
    if let Some(value) = result_of(alloc, accumulate, passing)? {
        if do_hold(bindings, value, accumulate.tests.as_slice()) {
            out.push(bindings.with_result(alloc, value)?)?;
        }
    }
    Ok(())
}

// Adds the bindings that a condition makes of these, where these candidates pass.
fn extend_by<'f>(
    alloc: Global,
    out: &mut Vec<Bindings<'f>>,
    finder: &Finder,
    condition: &Condition,
    bindings: &Bindings<'f>,
    passing: &[&'f Fact],
) -> Result<(), NoMemory>
    requires { AreOperators (pattern_of condition.now).times }
    ensures { OnOk result (out.new.items ≡ out.old.items ++ made_by finder.now.program.now finder.now.moment.now condition.now bindings.now (lent passing.now)) }
{
    match condition {
        Condition::Plain(_) => extend_by_each(alloc, out, bindings, passing)?,
        Condition::Negated(pattern) => {
            if passing.is_empty() && finder.is_mature(alloc, pattern, bindings)? {
                out.push(bindings.copy(alloc)?)?;
            }
        }
        Condition::Existing(_) => {
            if !passing.is_empty() {
                out.push(bindings.copy(alloc)?)?;
            }
        }
        Condition::Folded(accumulate) => {
            extend_by_result(alloc, out, accumulate, bindings, passing)?;
        }
    }
    Ok(())
}

// Adds the bindings that a condition makes of all these with its candidates.
fn extend_all<'f>(
    alloc: Global,
    out: &mut Vec<Bindings<'f>>,
    finder: &Finder,
    condition: &Condition,
    all: &[Bindings<'f>],
    candidates: &[&'f Fact],
) -> Result<(), NoMemory>
    requires { AreOperators (pattern_of condition.now).times }
    ensures { OnOk result (out.new.items ≡ out.old.items ++ flat_map (λ tuple. made_by finder.now.program.now finder.now.moment.now condition.now tuple
        (filter (passes (pattern_of condition.now) tuple) (lent candidates.now))) all.now) }
{
    for bindings in all {
        let passing = bindings.passing(alloc, condition.pattern(), candidates)?;
        extend_by(alloc, out, finder, condition, bindings, &passing)?;
    }
    Ok(())
}

// The bindings that one condition makes of these.
fn extended_all<'f>(
    alloc: Global,
    finder: &Finder,
    condition: &Condition,
    all: &[Bindings<'f>],
    facts: &[&'f Fact],
) -> Result<Vec<Bindings<'f>>, NoMemory>
    requires { AreOperators (pattern_of condition.now).times }
    ensures { IfOk result (λ next. next.items ≡ flat_map (extended finder.now.program.now (over (lent facts.now) finder.now.moment.now) condition.now) all.now) }
{
    let candidates = finder.candidates(alloc, condition.pattern(), facts)?;
    let mut next = Vec::new(alloc);
    extend_all(alloc, &mut next, finder, condition, all, &candidates)?;
    Ok(next)
}

// The bindings that conditions make of nothing over these facts.
fn found_bindings<'f>(
    alloc: Global,
    finder: &Finder,
    conditions: &[Condition],
    facts: &[&'f Fact],
) -> Result<Vec<Bindings<'f>>, NoMemory>
    requires { HaveOperators conditions.now }
    ensures { IfOk result (λ all. all.items ≡ tuples finder.now.program.now (over (lent facts.now) finder.now.moment.now) conditions.now empty_tuple) }
{
    let mut all = Vec::new(alloc);
    all.push(Bindings::none(alloc))?;
    for condition in conditions {
        all = extended_all(alloc, finder, condition, &all, facts)?;
    }
    Ok(all)
}

// The rows of conditions over these facts, at a moment, in the order of their definition.
#[tactic(auto, unfolding(rule_model::specs::Rows::rows))]
fn rows_of(
    alloc: Global,
    program: &Program,
    moment: &Moment,
    facts: &[&Fact],
    conditions: &[Condition],
) -> Result<Seq<Row>, NoMemory>
    requires { HaveOperators conditions.now }
    ensures { IfOk result (λ found. found ≡ rows program.now (over (lent facts.now) moment.now) conditions.now) }
{
    let all = found_bindings(alloc, &Finder { program, moment }, conditions, facts)?;
    rows_named(alloc, &all)
}

/// The rows of each rule of a program over these facts, at a moment: a list for each rule by its place, in the order of
/// the definition. For each condition of a rule it costs what was bound before, times the facts.
pub fn rows_of_rules(
    alloc: Global,
    program: &Program,
    moment: &Moment,
    facts: &[&Fact],
) -> Result<Vec<Seq<Row>>, NoMemory>
    requires { UseOperators program.now.rules }
    ensures { IfOk result (λ found. found.items ≡ map (λ (rule : Rule). rows program.now (over (lent facts.now) moment.now) rule.conditions) program.now.rules) }
{
    let mut all = Vec::new(alloc);
    for rule in program.rules.as_slice() {
        all.push(rows_of(alloc, program, moment, facts, rule.conditions.as_slice())?)?;
    }
    Ok(all)
}
