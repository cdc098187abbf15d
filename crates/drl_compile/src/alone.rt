ghost use Rattle.std.specs.Prelude.{◌≡◌, [], IfOk};
ghost use Rattle.drl_scope.specs.Declarations.{types_of};
ghost use Rattle.drl_scope.specs.Sight.{begin};
ghost use Rattle.drl_compile.specs.Programs.{conditions_meant, types_alone};

use crate::conditions_of::conditions;
use crate::infos_of::infos_of_types;
use drl_grammar::{CondTree, Item};
use drl_scope::{Declared, Places};
use fx_base::{NoMemory, Seq};
use rule_model::{Condition, Program};
use std::alloc::Global;

/// The program of the types of these items alone: with no rules, no entry points, and no type that is flagged as observed.
pub fn program_of_types(alloc: Global, items: &[Item]) -> Result<Program, NoMemory>
    ensures { IfOk result (λ program. program ≡ types_alone (types_of items.now)) }
{
    Ok(Program {
        types: infos_of_types(alloc, &Places::new(alloc), items)?,
        entries: Seq::from_vec(Vec::new(alloc)),
        rules: Seq::from_vec(Vec::new(alloc)),
    })
}

/// The conditions of a rule, in a program without entry points.
pub fn conditions_alone(
    alloc: Global,
    types: &Declared,
    trees: &[CondTree],
) -> Result<Seq<Condition>, NoMemory>
    ensures { IfOk result (λ made. made ≡ conditions_meant types.now [] begin trees.now) }
{
    let entries = Places::new(alloc);
    let (made, _) = conditions(alloc, types, &entries, trees)?;
    Ok(made)
}
