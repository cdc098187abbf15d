ghost use Rattle.std.specs.Prelude.{◌≡◌, ◌-ℤ◌, int_lt, length, IfOk};
ghost use Rattle.std.specs.Borrow.{Bor};
ghost use Rattle.std.specs.List.{filter};
ghost use Rattle.fx_base.specs.declared.fact.Fact.{Fact as FactData};
ghost use Rattle.rule_eval.specs.Over.{over};
ghost use Rattle.rule_model.specs.Candidates.{fits, is_behind, is_inside as is_inside_of, candidates as candidates_of};
ghost use Rattle.rule_model.specs.Lent.{lent};

use fx_base::{Fact, Millis, NoMemory};
use rule_model::{Moment, Pattern, Program, WindowTag};
use std::alloc::Global;

/// A program at a moment: with it a pattern settles which facts are its candidates.
#[derive(Drop)]
pub(crate) struct Finder<'p> {
    pub(crate) program: &'p Program,
    pub(crate) moment: &'p Moment<'p>,
}

impl<'p> Finder<'p> {
    // Whether the fact is present, of the pattern's type and entry point, and passes the constant tests.
    fn does_fit(&self, pattern: &Pattern, fact: &Fact) -> bool
        ensures { result ≡ fits self.now.program.now pattern.now self.now.moment.now.clock fact.now }
    {
        fact.ty == pattern.ty
            && fact.entry == pattern.entry
            && self.program.is_present(self.moment.clock, fact)
            && pattern.passes_alone(fact)
    }

    // Whether a fact fits that was inserted later.
    fn is_behind(&self, pattern: &Pattern, fact: &Fact, later: &Fact) -> bool
        ensures { result ≡ is_behind self.now.program.now pattern.now self.now.moment.now.clock fact.now later.now }
    {
        fact.tag.0 < later.tag.0 && self.does_fit(pattern, later)
    }

    // How many of these facts fit and were inserted later.
    fn count_behind(&self, pattern: &Pattern, facts: &[&Fact], fact: &Fact) -> usize
        ensures { result ≡ length (filter (λ (f : Bor FactData). is_behind self.now.program.now pattern.now self.now.moment.now.clock fact.now f.now) facts.now) }
    {
        facts
            .iter()
            .filter(|later| self.is_behind(pattern, fact, later))
            .count()
    }

    fn is_young(&self, span: Millis, fact: &Fact) -> bool
        ensures { result ≡ int_lt (self.now.moment.now.clock -ℤ fact.now.times.start) span }
    {
        i128::from(self.moment.clock) - i128::from(fact.times.start) < i128::from(span)
    }

    // Whether a fact that fits is inside the window of the pattern.
    fn is_inside(&self, pattern: &Pattern, facts: &[&Fact], fact: &Fact) -> bool
        ensures { result ≡ is_inside_of self.now.program.now pattern.now pattern.now.window self.now.moment.now.clock (lent facts.now) fact.now }
    {
        match pattern.window {
            WindowTag::Whole => true,
            WindowTag::Time(span) => self.is_young(span, fact),
            WindowTag::Length(count) => (self.count_behind(pattern, facts, fact) as u64) < count,
        }
    }

    /// The candidates of a pattern among these facts.
    pub(crate) fn candidates<'f>(
        &self,
        alloc: Global,
        pattern: &Pattern,
        facts: &[&'f Fact],
    ) -> Result<Vec<&'f Fact>, NoMemory>
        ensures { IfOk result (λ found. lent found.items ≡ candidates_of self.now.program.now pattern.now (over (lent facts.now) self.now.moment.now)) }
    {
        let mut found = Vec::new(alloc);
        for fact in facts {
            if self.does_fit(pattern, fact) && self.is_inside(pattern, facts, fact) {
                found.push(*fact)?;
            }
        }
        Ok(found)
    }
}
