//! The bounds that the finite lives of a table rest on.
ghost use Rattle.std.specs.Prelude.{◌≡◌, ◌++◌, option_map, IfOk};
ghost use Rattle.life_edges.specs.Places.{placed, StandsIn};
ghost use Rattle.life_proof.specs.Good.{scope_of as scope_asked};
ghost use Rattle.life_proof.specs.Asked.{HasPlaces, asked as all_asked, asked_from, asked_in, asked_to, asked_within, each_from, life_under as life_with};

use crate::part::Asked;
use fx_base::{Millis, NoMemory};
use life_edges::scope;
use rule_model::{Condition, Life, LifeTable, Program, Rule, WindowTag};
use std::alloc::Global;

// Those for each of the conditions that matter to one.
fn add_each(
    asked: &mut Vec<Asked>,
    program: &Program,
    conditions: &[Condition],
    rule: usize,
    from: usize,
    life: Millis,
) -> Result<(), NoMemory>
    ensures { IfOk result (λ _. asked.new.items ≡ asked.old.items ++ each_from (asked_to program.now rule from life) 0 conditions.now) }
{
    for (to, condition) in conditions.iter().enumerate() {
        if !program.is_reference(condition.pattern().ty) {
            asked.push(Asked {
                rule,
                from,
                to,
                life,
            })?;
        }
    }
    Ok(())
}

// The finite life of what has no window.
fn life_under(window: WindowTag, life: Option<&Life>) -> Option<Millis>
    ensures { result ≡ life_with window (option_map (λ l. l.now) life.entry) }
{
    match window {
        WindowTag::Whole => match life {
            Some(Life::Finite(life)) => Some(*life),
            Some(Life::Plain) => None,
            Some(Life::Explicit(_)) => None,
            Some(Life::Infinite) => None,
            None => None,
        },
        WindowTag::Time(_) => None,
        WindowTag::Length(_) => None,
    }
}

// The same where the life is finite.
fn add_within(
    asked: &mut Vec<Asked>,
    program: &Program,
    conditions: &[Condition],
    rule: usize,
    from: usize,
    life: Option<Millis>,
) -> Result<(), NoMemory>
    ensures { IfOk result (λ _. asked.new.items ≡ asked.old.items ++ asked_within program.now rule conditions.now from life) }
{
    match life {
        Some(life) => add_each(asked, program, conditions, rule, from, life),
        None => Ok(()),
    }
}

// Those for the condition of a place among all of its rule.
fn add_of(
    asked: &mut Vec<Asked>,
    program: &Program,
    lives: &LifeTable,
    conditions: &[Condition],
    rule: usize,
    from: usize,
    condition: &Condition,
) -> Result<(), NoMemory>
    requires { StandsIn conditions.now (placed from condition.now) }
    ensures { IfOk result (λ _. asked.new.items ≡ asked.old.items ++ asked_from program.now lives.now rule conditions.now from condition.now) }
{
    let pattern = condition.pattern();
    let life = lives.lives.as_slice().get(pattern.ty.0 as usize);
    let life = life_under(pattern.window, life);
    add_within(
        asked,
        program,
        scope(conditions, from, condition),
        rule,
        from,
        life,
    )
}

// Those of a rule.
fn add_rule(
    asked: &mut Vec<Asked>,
    program: &Program,
    lives: &LifeTable,
    place: usize,
    rule: &Rule,
) -> Result<(), NoMemory>
    ensures { IfOk result (λ _. asked.new.items ≡ asked.old.items ++ asked_in program.now lives.now place rule.now) }
{
    let conditions = rule.conditions.as_slice();
    for (from, condition) in conditions.iter().enumerate() {
        add_of(asked, program, lives, conditions, place, from, condition)?;
    }
    Ok(())
}

/// The bounds that the finite lives of a table rest on, by rule, by the first condition and by the second.
pub(crate) fn asked(
    alloc: Global,
    program: &Program,
    lives: &LifeTable,
) -> Result<Vec<Asked>, NoMemory>
    ensures { IfOk result (λ asked. asked.items ≡ all_asked program.now lives.now) }
{
    let mut asked = Vec::new(alloc);
    for (place, rule) in program.rules.as_slice().iter().enumerate() {
        add_rule(&mut asked, program, lives, place, rule)?;
    }
    Ok(asked)
}

/// The conditions that matter to the first one that is asked for.
pub(crate) fn scope_of<'p>(program: &'p Program, asked: &Asked) -> &'p [Condition]
    requires { HasPlaces program.now asked.now }
    ensures { result.now ≡ scope_asked program.now asked.now }
{
    let conditions = program.rules.as_slice()[asked.rule].conditions.as_slice();
    scope(conditions, asked.from, &conditions[asked.from])
}
