ghost use Rattle.std.specs.Prelude.{◌≡◌, IfOk};
ghost use Rattle.drl_scope.specs.Declarations.{types_of};
ghost use Rattle.drl_scope.specs.Observed.{watched_names};
ghost use Rattle.drl_compile.specs.Programs.{types_alone};

use drl_compile::program_of_types;
use drl_grammar::Item;
use drl_scope::{Places, watched_types};
use drl_typing::Kinded;
use fx_base::NoMemory;
use rule_model::Program;
use std::alloc::Global;

/// What a file says as a whole: the types that it declares, the names of those that its conditions watch, and the program of
/// its types alone. Each is gathered once.
#[derive(Drop)]
pub(crate) struct Whole<'a> {
    pub(crate) types: Kinded<'a>,
    pub(crate) watched: Places,
    pub(crate) alone: Program,
}

impl<'a> Whole<'a> {
    /// That of these items.
    pub(crate) fn of(alloc: Global, items: &'a [Item]) -> Result<Whole<'a>, NoMemory>
        ensures types { IfOk result (λ whole. whole.types ≡ types_of items.now) }
        ensures watched { IfOk result (λ whole. whole.watched ≡ watched_names items.now) }
        ensures alone { IfOk result (λ whole. whole.alone ≡ types_alone (types_of items.now)) }
    {
        Ok(Whole {
            watched: watched_types(alloc, items)?,
            alone: program_of_types(alloc, items)?,
            types: Kinded::of(alloc, items)?,
        })
    }
}
