//! Copies of conditions.
use crate::{Accumulate, Compare, Condition, Pattern, ResultTest, Side, Test, TimeTest};
use fx_base::{Copies, NoMemory};
use std::alloc::Global;

impl Copies for Side {
    fn copy(&self, alloc: Global) -> Result<Side, NoMemory> {
        match self {
            Side::Lit(literal) => Ok(Side::Lit(literal.copy(alloc)?)),
            Side::Own(field) => Ok(Side::Own(*field)),
            Side::Of { fact, field } => Ok(Side::Of {
                fact: *fact,
                field: *field,
            }),
            Side::Result(place) => Ok(Side::Result(*place)),
        }
    }
}

impl Copies for Compare {
    fn copy(&self, alloc: Global) -> Result<Compare, NoMemory> {
        Ok(Compare {
            field: self.field,
            rel: self.rel,
            against: self.against.copy(alloc)?,
        })
    }
}

impl Copies for Test {
    fn copy(&self, alloc: Global) -> Result<Test, NoMemory> {
        Ok(Test {
            choices: self.choices.copy(alloc)?,
        })
    }
}

impl Copies for TimeTest {
    fn copy(&self, alloc: Global) -> Result<TimeTest, NoMemory> {
        Ok(TimeTest {
            op: self.op.copy(alloc)?,
            fact: self.fact,
        })
    }
}

impl Copies for ResultTest {
    fn copy(&self, alloc: Global) -> Result<ResultTest, NoMemory> {
        Ok(ResultTest {
            rel: self.rel,
            against: self.against.copy(alloc)?,
        })
    }
}

impl Copies for Pattern {
    fn copy(&self, alloc: Global) -> Result<Pattern, NoMemory> {
        Ok(Pattern {
            ty: self.ty,
            entry: self.entry,
            window: self.window,
            alone: self.alone.copy(alloc)?,
            joined: self.joined.copy(alloc)?,
            times: self.times.copy(alloc)?,
        })
    }
}

impl Copies for Accumulate {
    fn copy(&self, alloc: Global) -> Result<Accumulate, NoMemory> {
        Ok(Accumulate {
            pattern: self.pattern.copy(alloc)?,
            kind: self.kind,
            arg: self.arg,
            tests: self.tests.copy(alloc)?,
        })
    }
}

impl Copies for Condition {
    fn copy(&self, alloc: Global) -> Result<Condition, NoMemory> {
        match self {
            Condition::Plain(pattern) => Ok(Condition::Plain(pattern.copy(alloc)?)),
            Condition::Negated(pattern) => Ok(Condition::Negated(pattern.copy(alloc)?)),
            Condition::Existing(pattern) => Ok(Condition::Existing(pattern.copy(alloc)?)),
            Condition::Folded(accumulate) => Ok(Condition::Folded(accumulate.copy(alloc)?)),
        }
    }
}
