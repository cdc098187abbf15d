//! The lives of patterns and types (Walzer, Breddin, Groch 2008).
ghost use Rattle.std.specs.Prelude.{◌≡◌, ◌<◌, ◌≤◌, length, slice_get, true, None, Some, pos, IfOk};
ghost use Rattle.rule_model.specs.Lives.{AreShort, IsShortLife};
ghost use Rattle.rule_model.specs.Rows.{pattern_of};
ghost use Rattle.rule_model.specs.Types.{is_event, expiry_of};
ghost use Rattle.life_meaning.specs.Lifetimes.{AddsSome, IsLife, LivesFor};
ghost use Rattle.life_edges.specs.Tails.{limit_of, HaveLives, IsSmallLimit};
ghost use Rattle.expiry_infer.specs.Tops.{Among, IsTop};
ghost use Rattle.life_meaning.specs.Tables.{AreLives, IsLifeOf, IsSafeTable};
ghost use Rattle.rule_world.specs.Programs.{IsRunnable};
ghost use Rattle.expiry_infer.specs.Tables.{lent, AddsBy, GivesAt};
ghost use Rattle.life_edges.specs.Places.{StandsIn};

use crate::limits::{greater, sum};
use crate::solving::reach;
use fx_base::{Bound, NoMemory, Seq};
use life_edges::{scope, tail};
use rule_model::{Condition, Life, LifeTable, Program, TypeInfo, WindowTag};
use std::alloc::Global;

// A condition by its place among those of its rule.
#[derive(Drop)]
struct Placed<'c> {
    place: usize,
    condition: &'c Condition,
}

// The greater of a limit and of what j adds to the life of i: nothing where j is on a reference type.
fn with_added(
    alloc: Global,
    program: &Program,
    conditions: &[Condition],
    i: &Placed,
    j: &Placed,
    most: Bound,
) -> Result<Bound, NoMemory>
    requires conditions { HaveLives program.now conditions.now }
    requires i { StandsIn conditions.now (lent i.now) }
    requires j { StandsIn conditions.now (lent j.now) }
    ensures top { IfOk result (λ greatest. IsTop (AddsBy program.now conditions.now (lent i.now) (lent j.now)) (limit_of most) (limit_of greatest)) }
    ensures small { IfOk result (λ greatest. IsSmallLimit (limit_of most) → IsSmallLimit (limit_of greatest)) }
{
    let pattern = j.condition.pattern();
    if program.is_reference(pattern.ty) {
        return Ok(most);
    }
    if !program.is_event(pattern.ty) {
        return Ok(Bound::Infinite);
    }
    match reach(alloc, program, conditions, i.place, j.place)? {
        Some(distance) => Ok(greater(most, sum(distance, tail(program, pattern)))),
        None => Ok(most),
    }
}

// The greatest of a limit and of what any condition adds to the life of i.
fn with_all_added(
    alloc: Global,
    program: &Program,
    conditions: &[Condition],
    i: &Placed,
    most: Bound,
) -> Result<Bound, NoMemory>
    requires conditions { HaveLives program.now conditions.now }
    requires i { StandsIn conditions.now (lent i.now) }
    ensures top { IfOk result (λ greatest. IsTop (AddsSome program.now conditions.now (lent i.now)) (limit_of most) (limit_of greatest)) }
    ensures small { IfOk result (λ greatest. IsSmallLimit (limit_of most) → IsSmallLimit (limit_of greatest)) }
{
    let mut most = most;
    for (place, condition) in conditions.iter().enumerate() {
        let j = Placed { place, condition };
        most = with_added(alloc, program, conditions, i, &j, most)?;
    }
    Ok(most)
}

// The greatest of a limit and of the limits of the life of i.
fn with_pattern(
    alloc: Global,
    program: &Program,
    conditions: &[Condition],
    i: &Placed,
    most: Bound,
) -> Result<Bound, NoMemory>
    requires conditions { HaveLives program.now conditions.now }
    requires i { StandsIn conditions.now (lent i.now) }
    ensures top { IfOk result (λ greatest. IsTop (LivesFor program.now conditions.now (lent i.now) (pattern_of i.now.condition.now).window) (limit_of most) (limit_of greatest)) }
    ensures small { IfOk result (λ greatest. IsSmallLimit (limit_of most) → IsSmallLimit (limit_of greatest)) }
{
    match i.condition.pattern().window {
        WindowTag::Whole => with_all_added(
            alloc,
            program,
            scope(conditions, i.place, i.condition),
            i,
            most,
        ),
        WindowTag::Time(span) => Ok(greater(most, Bound::Finite(span))),
        WindowTag::Length(_) => Ok(Bound::Infinite),
    }
}

// The greatest of a limit and of what the conditions of a rule give to the type of this place.
fn with_rule(
    alloc: Global,
    program: &Program,
    conditions: &[Condition],
    ty: usize,
    most: Bound,
) -> Result<Bound, NoMemory>
    requires { HaveLives program.now conditions.now }
    ensures top { IfOk result (λ greatest. IsTop (Among conditions.now (GivesAt program.now conditions.now ty) (length conditions.now)) (limit_of most) (limit_of greatest)) }
    ensures small { IfOk result (λ greatest. IsSmallLimit (limit_of most) → IsSmallLimit (limit_of greatest)) }
{
    let mut most = most;
    for (place, condition) in conditions.iter().enumerate() {
        if condition.pattern().ty.0 as usize == ty {
            let i = Placed { place, condition };
            most = with_pattern(alloc, program, conditions, &i, most)?;
        }
    }
    Ok(most)
}

// The life of the event type of this place, which has no explicit expiry.
fn inferred(alloc: Global, program: &Program, ty: usize) -> Result<Bound, NoMemory>
    requires runnable { IsRunnable program.now }
    requires event { is_event program.now ty ≡ true }
    requires unexpired { expiry_of program.now ty ≡ None }
    ensures life { IfOk result (λ life. IsLife program.now ty (limit_of life)) }
    ensures small { IfOk result (λ life. IsSmallLimit (limit_of life)) }
{
    let mut most = Bound::Finite(0);
    for rule in program.rules.as_slice() {
        most = with_rule(alloc, program, rule.conditions.as_slice(), ty, most)?;
    }
    Ok(most)
}

// The life of the type of this place.
fn life(alloc: Global, program: &Program, place: usize, ty: &TypeInfo) -> Result<Life, NoMemory>
    requires runnable { IsRunnable program.now }
    requires at { slice_get program.now.types place ≡ Some ty.now }
    ensures life { IfOk result (IsLifeOf program.now place) }
    ensures short { IfOk result IsShortLife }
{
    if !ty.event {
        return Ok(Life::Plain);
    }
    if let Some(expiry) = ty.expires {
        return Ok(Life::Explicit(expiry));
    }
    match inferred(alloc, program, place)? {
        Bound::Finite(most) => Ok(Life::Finite(most)),
        Bound::Infinite => Ok(Life::Infinite),
    }
}

/// The lives of the types of a program, in milliseconds: how long behind its end an event of each can still matter. The table is one that
/// engines of the program forget by.
pub fn lives(alloc: Global, program: &Program) -> Result<LifeTable, NoMemory>
    requires { IsRunnable program.now }
    ensures lives { IfOk result (AreLives program.now) }
    ensures safe { IfOk result (IsSafeTable program.now) }
{
    let types = program.types.as_slice();
    let mut lives = Vec::with_capacity(alloc, types.len())?;
    for (place, ty) in types.iter().enumerate() {
        let life = life(alloc, program, place, ty)?;
        lives.push(life)?;
    }
    Ok(LifeTable {
        lives: Seq::from_vec(lives),
    })
}
