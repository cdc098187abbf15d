ghost use Rattle.std.specs.Prelude.{◌≡◌, ◌&&◌, ◌||◌, not, None, true, false, is_some, IfOk, IfSome, OnOk};
ghost use Rattle.std.specs.Ordering.{eq_by_cmp};
ghost use Rattle.fx_base.specs.declared.value.Value.{Value};
ghost use Rattle.fx_base.specs.Values.{same_value};
ghost use Rattle.row_delta.specs.declared.row.Named.{Named};
ghost use Rattle.row_delta.specs.declared.row.Row.{Row};
ghost use Rattle.row_delta.specs.NameOrder.{name_cmp};
ghost use Rattle.row_delta.specs.Rows.{has};
ghost use Rattle.alpha_memory.specs.JoinIndex.{at};
ghost use Rattle.join_tests.specs.JoinValues.{shown};
ghost use Rattle.join_tests.specs.Joins.{joins};
ghost use Rattle.join_tests.specs.Kept.{candidate_value, SeesRows};
ghost use Rattle.join_memory.specs.declared.left_rows.LeftRows.{LeftRows};
ghost use Rattle.join_memory.specs.Joined.{joined, has_name};
ghost use Rattle.join_memory.specs.Memories.{has_left, has_right, KeepsMemories};
ghost use Rattle.join_memory.specs.Apart.{has_candidate, beside, NamesLeave, NamesCome};
ghost use Rattle.join_memory.specs.Shared.{KeepsNames};

use crate::left_rows::LeftRows;
use crate::making::{made_with_name, made_with_row};
use alpha_memory::JoinIndex;
use fx_base::{Copies, Facts, NoMemory, Value};
use join_tests::{JoinValue, KeyedPattern, Sight};
use row_delta::{Named, Row};
use rule_model::Pattern;
use std::alloc::Global;
use std::mem::swap;

/// The candidates of a pattern, found by their join values: the right memory of a node whose left rows are kept with those of others.
/// A call costs for each candidate a hash and the logarithm of what has the same join value. After a call that was refused memory the
/// candidates are to be given up.
#[derive(Drop)]
pub struct Candidates {
    pattern: KeyedPattern,
    names: JoinIndex<Value, Named, ()>,
}

impl Candidates {
    /// No candidates of a pattern. Takes no memory.
    pub fn new(alloc: Global, pattern: Pattern) -> Candidates
        ensures pattern { result.pattern ≡ pattern }
        ensures nothing { (value : Value) (who : Named) → at same_value name_cmp result.names value who ≡ None }
    {
        Candidates {
            pattern: KeyedPattern::new(pattern),
            names: JoinIndex::new(alloc),
        }
    }

    /// The pattern. Takes no memory.
    pub fn pattern(&self) -> &Pattern
        ensures { result.now ≡ self.now.pattern }
    {
        self.pattern.pattern()
    }

    /// The index of the candidates. Takes no memory.
    pub(crate) fn names(&self) -> &JoinIndex<Value, Named, ()>
        ensures { result.now ≡ self.now.names }
    {
        &self.names
    }

    /// The value under which a candidate is kept. It takes no memory, and costs what the join value of a candidate costs its pattern.
    pub fn value<'a, F: Facts>(&self, who: Named, facts: &'a F) -> JoinValue<'a>
        ensures { shown result ≡ candidate_value self.now.pattern (F.map facts.now) who }
    {
        self.pattern.candidate_value(who, facts)
    }

    /// Whether a candidate is kept under a value. It takes no memory, and costs a hash.
    pub fn has_under(&self, value: &Value) -> bool
        ensures none { result ≡ false → (who : Named) → at same_value name_cmp self.now.names value.now who ≡ None }
    {
        self.names.bucket(value).is_some()
    }

    /// Takes candidates out, and answers the rows that those which were there make with left rows. It costs for each of these a test of
    /// each left row with a join value that is sought for it.
    pub fn leave<F: Facts>(
        &mut self,
        alloc: Global,
        left: &LeftRows,
        names: &[Named],
        facts: &F,
    ) -> Result<Vec<Row>, NoMemory>
        ensures pattern { OnOk result (self.new.pattern ≡ self.old.pattern) }
        ensures keeps { OnOk result (NamesLeave self.old self.new (F.map facts.now) names.now) }
        ensures under { OnOk result ((value : Value) (who : Named) → is_some (at same_value name_cmp self.new.names value who) ≡ true → is_some (at same_value name_cmp self.old.names value who) ≡ true) }
        ensures rows { IfOk result (λ found. (r : Row) → has found.items r
            ≡ joined (joins self.old.pattern (F.map facts.now)) (has_left (beside left.now self.old) (F.map facts.now)) (λ c. has_name names.now c && has_candidate self.old (F.map facts.now) c) r) }
    {
        let mut found = Vec::new(alloc);
        for who in names {
            let sight = self.take(*who, facts);
            let mut more = self.with_sight(alloc, left, sight, *who, facts)?;
            found.append(&mut more)?;
        }
        Ok(found)
    }

    /// Puts candidates in, and answers the rows that those which were not there make with left rows. It costs for each of these a test of
    /// each left row with a join value that is sought for it.
    pub fn come<F: Facts>(
        &mut self,
        alloc: Global,
        left: &LeftRows,
        names: &[Named],
        facts: &F,
    ) -> Result<Vec<Row>, NoMemory>
        ensures pattern { OnOk result (self.new.pattern ≡ self.old.pattern) }
        ensures keeps { OnOk result (NamesCome self.old self.new (F.map facts.now) names.now) }
        ensures under { OnOk result ((value : Value) (who : Named) → is_some (at same_value name_cmp self.new.names value who)
            ≡ (is_some (at same_value name_cmp self.old.names value who) || (has_name names.now who && same_value (candidate_value self.old.pattern (F.map facts.now) who) value))) }
        ensures rows { IfOk result (λ found. (r : Row) → has found.items r
            ≡ joined (joins self.old.pattern (F.map facts.now)) (has_left (beside left.now self.old) (F.map facts.now)) (λ c. has_name names.now c && not (has_candidate self.old (F.map facts.now) c)) r) }
    {
        let mut found = Vec::new(alloc);
        for who in names {
            let sight = self.put(alloc, *who, facts)?;
            let mut more = self.with_sight(alloc, left, sight, *who, facts)?;
            found.append(&mut more)?;
        }
        Ok(found)
    }

    /// The rows that left rows make with the candidates. It costs for each row a test of each candidate with a join value that is
    /// sought for it.
    pub fn with_rows<F: Facts>(
        &self,
        alloc: Global,
        rows: &[Row],
        facts: &F,
    ) -> Result<Vec<Row>, NoMemory>
        ensures { IfOk result (λ found. (r : Row) → has found.items r
            ≡ joined (joins self.now.pattern (F.map facts.now)) (has rows.now) (has_candidate self.now (F.map facts.now)) r) }
    {
        let mut found = Vec::new(alloc);
        for row in rows {
            let mut more = made_with_row(alloc, &self.pattern, &self.names, row, facts)?;
            found.append(&mut more)?;
        }
        Ok(found)
    }

    /// Takes a candidate out, and answers its sight if it was there. Takes no memory.
    pub fn take<'a, F: Facts>(&mut self, who: Named, facts: &'a F) -> Option<Sight<'a>>
        ensures pattern { self.new.pattern ≡ self.old.pattern }
        ensures keeps { (left : LeftRows) → KeepsMemories (beside left self.old) (beside left self.new) (F.map facts.now)
            (has_left (beside left self.old) (F.map facts.now)) (λ c. has_right (beside left self.old) (F.map facts.now) c && not (eq_by_cmp name_cmp who c)) }
        ensures under { (value : Value) (c : Named) → is_some (at same_value name_cmp self.new.names value c) ≡ true → is_some (at same_value name_cmp self.old.names value c) ≡ true }
        ensures names { KeepsNames self.old self.new (F.map facts.now) (λ c. has_candidate self.old (F.map facts.now) c && not (eq_by_cmp name_cmp who c)) }
        ensures taken { is_some result ≡ has_candidate self.old (F.map facts.now) who }
        ensures sight { IfSome result (SeesRows self.old.pattern (F.map facts.now) who) }
    {
        let sight = self.pattern.sight(who, facts);
        let was = self.names.take(sight.own(), &who).is_some();
        was.then_some(sight)
    }

    /// Puts a candidate in, and answers its sight unless it was there.
    pub fn put<'a, F: Facts>(
        &mut self,
        alloc: Global,
        who: Named,
        facts: &'a F,
    ) -> Result<Option<Sight<'a>>, NoMemory>
        ensures pattern { OnOk result (self.new.pattern ≡ self.old.pattern) }
        ensures keeps { OnOk result ((left : LeftRows) → KeepsMemories (beside left self.old) (beside left self.new) (F.map facts.now)
            (has_left (beside left self.old) (F.map facts.now)) (λ c. has_right (beside left self.old) (F.map facts.now) c || eq_by_cmp name_cmp who c)) }
        ensures under { OnOk result ((value : Value) (c : Named) → is_some (at same_value name_cmp self.new.names value c)
            ≡ (is_some (at same_value name_cmp self.old.names value c) || (same_value (candidate_value self.old.pattern (F.map facts.now) who) value && eq_by_cmp name_cmp who c))) }
        ensures names { OnOk result (KeepsNames self.old self.new (F.map facts.now) (λ c. has_candidate self.old (F.map facts.now) c || eq_by_cmp name_cmp who c)) }
        ensures came { IfOk result (λ sight. is_some sight ≡ not (has_candidate self.old (F.map facts.now) who)) }
        ensures sight { IfOk result (λ sight. IfSome sight (SeesRows self.old.pattern (F.map facts.now) who)) }
    {
        let sight = self.pattern.sight(who, facts);
        let value = sight.own().copy(alloc)?;
        let came = self.names.put(value, who, ())?.is_none();
        Ok(came.then_some(sight))
    }

    /// Exchanges the index of the candidates. Takes no memory.
    pub(crate) fn exchange_names(&mut self, names: &mut JoinIndex<Value, Named, ()>)
        ensures ours { self.new.names ≡ names.old }
        ensures pattern { self.new.pattern ≡ self.old.pattern }
        ensures theirs { names.new ≡ self.old.names }
    {
        swap(&mut self.names, names);
    }

    // The rows that a candidate makes with left rows, if there is a sight, which is its own.
    fn with_sight<F: Facts>(
        &self,
        alloc: Global,
        left: &LeftRows,
        sight: Option<Sight<'_>>,
        who: Named,
        facts: &F,
    ) -> Result<Vec<Row>, NoMemory>
        ensures { IfSome sight.entry (SeesRows self.now.pattern (F.map facts.now) who) → IfOk result (λ found. (r : Row) → has found.items r
            ≡ joined (joins self.now.pattern (F.map facts.now)) (has_left (beside left.now self.now) (F.map facts.now)) (λ c. eq_by_cmp name_cmp who c && is_some sight.entry) r) }
    {
        match sight {
            Some(sight) => { made_with_name(alloc, &self.pattern, left.rows(), &sight, who, facts) }
            None => Ok(Vec::new(alloc)),
        }
    }
}
