ghost use Rattle.std.specs.Prelude.{◌≡◌, map, option_map, slice_get, IfOk};
ghost use Rattle.std.specs.List.{filter};
ghost use Rattle.rule_model.specs.Candidates.{passes};
ghost use Rattle.rule_model.specs.Lent.{lent};
ghost use Rattle.rule_model.specs.Tuples.{empty_tuple, with_fact, with_value, name_of, row_of};

use fx_base::{Fact, NoMemory, Seq};
use row_delta::{Named, Row};
use rule_model::Pattern;
use std::alloc::Global;
use std::marker::Model;

/// The facts and the results that the first conditions of a rule bound, each in the order of its conditions.
#[derive(Drop)]
pub(crate) struct Bindings<'f> {
    facts: Vec<&'f Fact>,
    results: Vec<i64>,
}

impl<'f> Model for Bindings<'f> {
    ghost use Rattle.rule_model.specs.Lent.{lent, tuple_of};
    ghost use Rattle.rule_model.specs.Tuples.{Tuple};

    ghost Value = { Tuple };

    ghost view = { λ b. tuple_of (lent b.facts.items) b.results.items };
}

// The names of these facts.
fn names_of(alloc: Global, facts: &[&Fact]) -> Result<Vec<Named>, NoMemory>
    ensures { IfOk result (λ names. names.items ≡ map name_of (lent facts.now)) }
{
    let mut names = Vec::with_capacity(alloc, facts.len())?;
    for fact in facts {
        names.push(Named {
            id: fact.id,
            tag: fact.tag,
        })?;
    }
    Ok(names)
}

impl<'f> Bindings<'f> {
    pub(crate) fn none(alloc: Global) -> Bindings<'f>
        ensures { result ≡ empty_tuple }
    {
        Bindings {
            facts: Vec::new(alloc),
            results: Vec::new(alloc),
        }
    }

    pub(crate) fn copy(&self, alloc: Global) -> Result<Bindings<'f>, NoMemory>
        ensures { IfOk result (λ b. b ≡ self.now) }
    {
        let mut facts = Vec::with_capacity(alloc, self.facts.len())?;
        facts.extend_from_slice(&self.facts)?;
        let mut results = Vec::with_capacity(alloc, self.results.len())?;
        results.extend_from_slice(&self.results)?;
        Ok(Bindings { facts, results })
    }

    pub(crate) fn with_fact(&self, alloc: Global, fact: &'f Fact) -> Result<Bindings<'f>, NoMemory>
        ensures { IfOk result (λ b. b ≡ with_fact self.now fact.now) }
    {
        let mut next = self.copy(alloc)?;
        next.facts.push(fact)?;
        Ok(next)
    }

    pub(crate) fn with_result(&self, alloc: Global, value: i64) -> Result<Bindings<'f>, NoMemory>
        ensures { IfOk result (λ b. b ≡ with_value self.now value) }
    {
        let mut next = self.copy(alloc)?;
        next.results.push(value)?;
        Ok(next)
    }

    /// The fact of this place.
    pub(crate) fn fact(&self, place: usize) -> Option<&Fact>
        ensures { option_map (λ f. f.now) result ≡ slice_get self.now.facts place }
    {
        match self.facts.get(place) {
            Some(fact) => Some(*fact),
            None => None,
        }
    }

    /// The result of this place.
    pub(crate) fn result(&self, place: usize) -> Option<i64>
        ensures { result ≡ slice_get self.now.values place }
    {
        self.results.get(place).copied()
    }

    fn are_passed_by(&self, pattern: &Pattern, fact: &Fact) -> bool
        ensures { result ≡ passes pattern.now self.now fact.now }
    {
        pattern.passes_with(fact, &self.facts, &self.results)
    }

    /// Those of the candidates that pass.
    pub(crate) fn passing(
        &self,
        alloc: Global,
        pattern: &Pattern,
        candidates: &[&'f Fact],
    ) -> Result<Vec<&'f Fact>, NoMemory>
        ensures { IfOk result (λ found. lent found.items ≡ filter (passes pattern.now self.now) (lent candidates.now)) }
    {
        let mut found = Vec::new(alloc);
        for fact in candidates {
            if self.are_passed_by(pattern, fact) {
                found.push(*fact)?;
            }
        }
        Ok(found)
    }

    fn row(&self, alloc: Global) -> Result<Row, NoMemory>
        ensures { IfOk result (λ row. row ≡ row_of self.now) }
    {
        let names = names_of(alloc, &self.facts)?;
        let mut values = Vec::with_capacity(alloc, self.results.len())?;
        values.extend_from_slice(&self.results)?;
        Ok(Row {
            facts: Seq::from_vec(names),
            values: Seq::from_vec(values),
        })
    }
}

/// The rows of these bindings.
pub(crate) fn rows_named(alloc: Global, all: &[Bindings]) -> Result<Seq<Row>, NoMemory>
    ensures { IfOk result (λ rows. rows ≡ map row_of all.now) }
{
    let mut rows = Vec::with_capacity(alloc, all.len())?;
    for bindings in all {
        rows.push(bindings.row(alloc)?)?;
    }
    Ok(Seq::from_vec(rows))
}
