//! Copies of trees.
ghost use Rattle.std.specs.Prelude.{◌≡◌, IfOk};

use crate::{ActTree, Attr, Cmp, CondTree, Meta, Operand, Part, SourceTree};
use drl_lex::Rel;
use fx_base::{Copies, NoMemory, Seq, Text};
use std::alloc::Global;

/// The same pairs in the same order.
pub fn copy_pairs<A: Copies + Drop, B: Copies + Drop>(
    alloc: Global,
    pairs: &Seq<(A, B)>,
) -> Result<Seq<(A, B)>, NoMemory>
    ensures { IfOk result (λ copy. copy ≡ pairs.now) }
{
    let mut items = Vec::with_capacity(alloc, pairs.as_slice().len())?;
    for pair in pairs.as_slice() {
        let first = pair.0.copy(alloc)?;
        items.push((first, pair.1.copy(alloc)?))?;
    }
    Ok(Seq::from_vec(items))
}

// The same tests of a result.
fn copy_tests(alloc: Global, tests: &Seq<(Rel, Operand)>) -> Result<Seq<(Rel, Operand)>, NoMemory>
    ensures { IfOk result (λ copy. copy ≡ tests.now) }
{
    let mut items = Vec::with_capacity(alloc, tests.as_slice().len())?;
    for test in tests.as_slice() {
        items.push((test.0, test.1.copy(alloc)?))?;
    }
    Ok(Seq::from_vec(items))
}

// The same name, where there is one.
fn copy_name(alloc: Global, name: &Option<Text>) -> Result<Option<Text>, NoMemory>
    ensures { IfOk result (λ copy. copy ≡ name.now) }
{
    match name {
        Some(name) => Ok(Some(name.copy(alloc)?)),
        None => Ok(None),
    }
}

impl Copies for Operand {
    fn copy(&self, alloc: Global) -> Result<Operand, NoMemory> {
        match self {
            Operand::Lit(literal) => Ok(Operand::Lit(literal.copy(alloc)?)),
            Operand::Var(var) => Ok(Operand::Var(var.copy(alloc)?)),
            Operand::VarField(var, field) => {
                let var = var.copy(alloc)?;
                Ok(Operand::VarField(var, field.copy(alloc)?))
            }
            Operand::Own(field) => Ok(Operand::Own(field.copy(alloc)?)),
        }
    }
}

impl Copies for Cmp {
    fn copy(&self, alloc: Global) -> Result<Cmp, NoMemory> {
        match self {
            Cmp::Rel {
                field,
                rel,
                operand,
            } => {
                let field = field.copy(alloc)?;
                Ok(Cmp::Rel {
                    field,
                    rel: *rel,
                    operand: operand.copy(alloc)?,
                })
            }
            Cmp::OneOf { field, operands } => {
                let field = field.copy(alloc)?;
                Ok(Cmp::OneOf {
                    field,
                    operands: operands.copy(alloc)?,
                })
            }
        }
    }
}

impl Copies for Part {
    fn copy(&self, alloc: Global) -> Result<Part, NoMemory> {
        match self {
            Part::Bind { var, field } => {
                let var = var.copy(alloc)?;
                Ok(Part::Bind {
                    var,
                    field: field.copy(alloc)?,
                })
            }
            Part::Temporal { op, params, other } => {
                let params = params.copy(alloc)?;
                Ok(Part::Temporal {
                    op: *op,
                    params,
                    other: other.copy(alloc)?,
                })
            }
            Part::AnyOf(groups) => Ok(Part::AnyOf(groups.copy(alloc)?)),
        }
    }
}

impl Copies for SourceTree {
    fn copy(&self, alloc: Global) -> Result<SourceTree, NoMemory> {
        let var = copy_name(alloc, &self.var)?;
        let ty = self.ty.copy(alloc)?;
        let parts = self.parts.copy(alloc)?;
        let entry = copy_name(alloc, &self.entry)?;
        Ok(SourceTree {
            var,
            ty,
            parts,
            window: self.window,
            entry,
        })
    }
}

impl Copies for CondTree {
    fn copy(&self, alloc: Global) -> Result<CondTree, NoMemory> {
        match self {
            CondTree::Plain(source) => Ok(CondTree::Plain(source.copy(alloc)?)),
            CondTree::Negated(source) => Ok(CondTree::Negated(source.copy(alloc)?)),
            CondTree::Existing(source) => Ok(CondTree::Existing(source.copy(alloc)?)),
            CondTree::Folded {
                result,
                source,
                kind,
                arg,
                tests,
            } => {
                let result = copy_name(alloc, result)?;
                let source = source.copy(alloc)?;
                let arg = arg.copy(alloc)?;
                Ok(CondTree::Folded {
                    result,
                    source,
                    kind: *kind,
                    arg,
                    tests: copy_tests(alloc, tests)?,
                })
            }
        }
    }
}

impl Copies for ActTree {
    fn copy(&self, alloc: Global) -> Result<ActTree, NoMemory> {
        match self {
            ActTree::Insert { ty, args } => {
                let ty = ty.copy(alloc)?;
                Ok(ActTree::Insert {
                    ty,
                    args: args.copy(alloc)?,
                })
            }
            ActTree::Modify { var, sets } => {
                let var = var.copy(alloc)?;
                Ok(ActTree::Modify {
                    var,
                    sets: copy_pairs(alloc, sets)?,
                })
            }
            ActTree::Retract(var) => Ok(ActTree::Retract(var.copy(alloc)?)),
        }
    }
}

impl Copies for Attr {
    fn copy(&self, alloc: Global) -> Result<Attr, NoMemory> {
        match self {
            Attr::Salience(number) => Ok(Attr::Salience(*number)),
            Attr::Dialect(text) => Ok(Attr::Dialect(text.copy(alloc)?)),
        }
    }
}

impl Copies for Meta {
    fn copy(&self, alloc: Global) -> Result<Meta, NoMemory> {
        match self {
            Meta::Role(event) => Ok(Meta::Role(*event)),
            Meta::Timestamp(field) => Ok(Meta::Timestamp(field.copy(alloc)?)),
            Meta::Duration(field) => Ok(Meta::Duration(field.copy(alloc)?)),
            Meta::Expires(span) => Ok(Meta::Expires(*span)),
            Meta::Reference => Ok(Meta::Reference),
        }
    }
}
