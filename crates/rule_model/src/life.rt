ghost use Rattle.std.specs.Prelude.{◌≡◌, IfOk};
ghost use Rattle.rule_model.specs.Lives.{endless_life, endless_lives};

use crate::program::{Program, TypeInfo};
use fx_base::{Millis, NoMemory, Seq};
use std::alloc::Global;

/// How long behind its end an event of a type can still matter.
#[derive(Clone, Copy, Debug, PartialEq, Eq)]
pub enum Life {
    /// The facts of the type are no events.
    Plain,
    /// The type has an explicit expiry, in milliseconds from the start, and no inferred life.
    Explicit(Millis),
    /// So many milliseconds behind its end.
    Finite(Millis),
    /// For ever.
    Infinite,
}

/// The lives of the types of a program, by their places.
#[derive(Debug, Drop)]
pub struct LifeTable {
    pub lives: Seq<Life>,
}

fn endless(ty: &TypeInfo) -> Life
    ensures { result ≡ endless_life ty.now }
{
    if !ty.event {
        return Life::Plain;
    }
    match ty.expires {
        Some(expiry) => Life::Explicit(expiry),
        None => Life::Infinite,
    }
}

impl LifeTable {
    /// The table without inferred lives: each event lives for ever, unless its type has an explicit expiry.
    pub fn without(alloc: Global, program: &Program) -> Result<LifeTable, NoMemory>
        ensures { IfOk result (λ table. table ≡ endless_lives program.now) }
    {
        let mut lives = Vec::with_capacity(alloc, program.types.as_slice().len())?;
        for ty in program.types.as_slice() {
            lives.push(endless(ty))?;
        }
        Ok(LifeTable {
            lives: Seq::from_vec(lives),
        })
    }
}
