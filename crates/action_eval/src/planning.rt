ghost use Rattle.std.specs.Prelude.{◌≡◌, Some, None, option_map, map, IfOk, IsErrOf};
ghost use Rattle.rule_model.specs.Lent.{named_at, bound_in};
ghost use Rattle.rule_model.specs.Numbers.{values_of};
ghost use Rattle.rule_model.specs.Planned.{id_at, type_or_first, sets_of, step_of};

use crate::number::bound_fact;
use crate::{EvalFault, value};
use fx_base::{EntryId, FactId, Facts, Seq, TypeId, Value};
use row_delta::Row;
use rule_model::{Action, Expr, Step};
use std::alloc::Global;

/// The step that an action is for the facts that a row names, which `facts` has at their tags, and for the row's values; what is
/// new is inserted into the entry point `DEFAULT`. `Overflow` comes exactly where one of its expressions has it.
#[tactic(auto, unfolding(rule_model::specs::Planned::step_of))]
pub fn planned_step<F: Facts>(
    alloc: Global,
    action: &Action,
    row: &Row,
    facts: &F,
) -> Result<Step, EvalFault>
    ensures step { IfOk result (λ step. Some step ≡ step_of (bound_in (F.map facts.now) row.now) row.now.facts action.now) }
    ensures overflow { IsErrOf result EvalFault.Overflow → step_of (bound_in (F.map facts.now) row.now) row.now.facts action.now ≡ None }
{
    match action {
        Action::Insert { ty, args } => Ok(Step::Insert {
            ty: *ty,
            entry: EntryId(0),
            fields: values(alloc, args.as_slice(), row, facts)?,
        }),
        Action::Modify { fact, sets } => Ok(Step::Modify {
            id: bound_id(row, *fact),
            sets: planned_sets(alloc, sets.as_slice(), row, facts)?,
        }),
        Action::Retract { fact } => Ok(Step::Retract {
            ty: bound_type(row, facts, *fact),
            id: bound_id(row, *fact),
        }),
    }
}

// The values of expressions, in their order.
fn values<F: Facts>(
    alloc: Global,
    exprs: &[Expr],
    row: &Row,
    facts: &F,
) -> Result<Seq<Value>, EvalFault>
    ensures values { IfOk result (λ vs. Some vs ≡ values_of (bound_in (F.map facts.now) row.now) exprs.now) }
    ensures overflow { IsErrOf result EvalFault.Overflow → values_of (bound_in (F.map facts.now) row.now) exprs.now ≡ None }
{
    let mut values = Vec::new(alloc);
    for expr in exprs {
        values.push(value(alloc, expr, row, facts)?)?;
    }
    Ok(Seq::from_vec(values))
}

// The values for the fields of these places, in their order.
fn planned_sets<F: Facts>(
    alloc: Global,
    sets: &[(u8, Expr)],
    row: &Row,
    facts: &F,
) -> Result<Seq<(usize, Value)>, EvalFault>
    ensures sets { IfOk result (λ vs. Some vs ≡ sets_of (bound_in (F.map facts.now) row.now) sets.now) }
    ensures overflow { IsErrOf result EvalFault.Overflow → sets_of (bound_in (F.map facts.now) row.now) sets.now ≡ None }
{
    let mut planned = Vec::new(alloc);
    for (field, expr) in sets {
        planned.push((usize::from(*field), value(alloc, expr, row, facts)?))?;
    }
    Ok(Seq::from_vec(planned))
}

// The id that a row names in this place; 0, which no fact has, where it names none.
fn bound_id(row: &Row, place: u8) -> FactId
    ensures { result ≡ id_at row.now.facts place }
{
    match row.facts.as_slice().get(place as usize) {
        Some(named) => named.id,
        None => FactId(0),
    }
}

// The type of the fact that a row names in this place, as the map has it; the first where there is none.
fn bound_type<F: Facts>(row: &Row, facts: &F, place: u8) -> TypeId
    ensures { result ≡ type_or_first (named_at (F.map facts.now) row.now.facts place) }
{
    match bound_fact(row, facts, place) {
        Some(fact) => fact.ty,
        None => TypeId(0),
    }
}
