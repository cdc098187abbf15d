ghost use Rattle.std.specs.Prelude.{IfSome};
ghost use Rattle.rule_world.specs.Programs.{IsRunnable};

use drl_check::check;
use drl_parse::parse;
use rule_model::Program;
use std::alloc::Global;
use subrules::expand;

/// The program of a rule file, if it is accepted.
pub(crate) fn program(alloc: Global, rules: &str) -> Option<Program>
    ensures { IfSome result IsRunnable }
{
    let file = parse(alloc, rules.as_bytes()).ok()?;
    let expanded = expand(alloc, &file).ok()?;
    check(alloc, &expanded.file).ok()
}

/// Whether a rule file is accepted and has so many types and rules.
fn has(alloc: Global, rules: &str, types: usize, count: usize) -> bool {
    match program(alloc, rules) {
        Some(program) => {
            program.types.as_slice().len() == types && program.rules.as_slice().len() == count
        }
        None => false,
    }
}

const ITEM: &str = "declare Item price : long end rule dear when Item( price > 10 ) then end";

#[test]
fn an_accepted_file_is_a_program(rt: HostRuntime) {
    assert!(rt; has(rt.alloc(), ITEM, 1, 1));
}
