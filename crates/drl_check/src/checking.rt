ghost use Rattle.std.specs.Prelude.{◌≡◌, ℕ, [], Err, IfOk};
ghost use Rattle.std.specs.List.{All};
ghost use Rattle.rule_world.specs.Programs.{IsRunnable};
ghost use Rattle.life_meaning.specs.Networks.{AreSolvable};
ghost use Rattle.drl_check.specs.declared.fault.CheckCode.{CheckCode};
ghost use Rattle.drl_check.specs.Checks.{failure_from, IsAcceptedFile, IsFirstFailure};
ghost use Rattle.drl_scope.specs.Declarations.{types_of};
ghost use Rattle.drl_scope.specs.EntryPoints.{entry_names};
ghost use Rattle.drl_scope.specs.Observed.{watched_names};
ghost use Rattle.drl_compile.specs.Programs.{program_of, program_with, types_alone};
ghost use Rattle.drl_check.specs.Outcomes.{checked_by, checked};
ghost use Rattle.drl_check.specs.Answers.{within_32_bits, GivesChecked};

use crate::CheckFault;
use crate::refusal::refusal;
use crate::whole::Whole;
use drl_compile::program;
use drl_grammar::{File, Item};
use drl_scope::{Declared, entry_points};
use fx_base::NoMemory;
use rule_model::Program;
use std::alloc::Global;

// The program of the items, whose types these are.
fn program_among(alloc: Global, types: &Declared, items: &[Item]) -> Result<Program, NoMemory>
    ensures { IfOk result (λ program. program ≡ program_with types.now (entry_names items.now) items.now) }
{
    let entries = entry_points(alloc, items)?;
    program(alloc, types, &entries, items)
}

// The program of the items, or the first that fails a check, by what they say as a whole.
fn judged(alloc: Global, whole: &Whole, items: &[Item]) -> Result<Program, CheckFault>
    requires types { whole.now.types ≡ types_of items.now }
    requires watched { whole.now.watched ≡ watched_names items.now }
    requires alone { whole.now.alone ≡ types_alone (types_of items.now) }
    ensures { GivesChecked (λ program. program) result (checked_by (failure_from items.now [] items.now) (program_with (types_of items.now) (entry_names items.now) items.now)) }
{
    refusal(alloc, whole, items)?;
    Ok(program_among(alloc, whole.types.declared(), items)?)
}

#[tactic(auto, unfolding(crate::specs::Outcomes::checked))]
fn checked_program(alloc: Global, file: &File) -> Result<Program, CheckFault>
    ensures { GivesChecked (λ program. program) result (checked file.now) }
{
    let items = file.items.as_slice();
    let whole = Whole::of(alloc, items)?;
    judged(alloc, &whole, items)
}

/// The program of a file, exactly where all its items pass all the checks; else the first item that fails one, with the
/// first check that it fails. Engines run the program: it is within the limits, its actions make values of the declared kinds,
/// and the temporal tests of each rule can be met. It takes a time that grows with the file alone.
pub fn check(alloc: Global, file: &File) -> Result<Program, CheckFault>
    ensures program { IfOk result (λ program. program ≡ program_of file.now) }
    ensures accepted { IfOk result (λ _. IsAcceptedFile file.now) }
    ensures refused { (item : ℕ) (line : ℕ) (code : CheckCode) → result ≡ Err (CheckFault.Refused item line code)
        → (number : ℕ) × (item ≡ within_32_bits number) × IsFirstFailure file.now number line code }
    ensures sound { IfOk result IsRunnable }
    ensures solvable { IfOk result (λ program. All (λ rule. AreSolvable program rule.conditions) program.rules) }
    ensures gives { GivesChecked (λ program. program) result (checked file.now) }
{
    checked_program(alloc, file)
}
