ghost use Rattle.std.specs.Prelude.{◌≡◌, ◌&&◌, ◌||◌, not, None, Some, Bool, true, false, cond, option_map, IfOk, IfErr, IfSome, OnOk, OnErr};
ghost use Rattle.std.specs.Option.{is_some};
ghost use Rattle.std.specs.Ordering.{eq_by_cmp};
ghost use Rattle.std.specs.List.Sorted.{IsStrictlySortedBy};
ghost use Rattle.row_delta.specs.declared.row.Row.{Row};
ghost use Rattle.row_delta.specs.declared.row.Named.{Named};
ghost use Rattle.row_delta.specs.Rows.{has, row_cmp, InOrder};
ghost use Rattle.row_delta.specs.NameOrder.{name_cmp};
ghost use Rattle.join_tests.specs.JoinValues.{shown};
ghost use Rattle.join_tests.specs.Joins.{Look, joins};
ghost use Rattle.join_tests.specs.Kept.{SeesRows, row_value};
ghost use Rattle.join_memory.specs.Joined.{joined, has_name};
ghost use Rattle.join_memory.specs.Memories.{left_at, has_left, has_right, KeepsMemories};
ghost use Rattle.join_memory.specs.Standing.{no_rows, no_names, StandsFor};
ghost use Rattle.join_memory.specs.Under.{row_joins, stands_in};
ghost use Rattle.fx_base.specs.Values.{same_value};
ghost use Rattle.alpha_memory.specs.JoinIndex.{at, bucket_at};
ghost use Rattle.join_memory.specs.Shared.{sharing, over};

mod listing;

use crate::candidates::Candidates;
use crate::making::{made_with_name, made_with_row};
use crate::merge::merged;
use crate::partners::{passing_of_both, passing_under, rows_passed};
use alpha_memory::JoinIndex;
use fx_base::{Copies, Facts, NoMemory, Value};
use join_tests::{JoinValue, KeyedPattern, Sight, Sought};
use row_delta::{Named, Row};
use rule_model::Pattern;
use std::alloc::Global;

/// The rows of the conditions before a node, each with what the node keeps for it, and the candidates of its pattern. What is
/// kept is looked up under the join value that it has by the facts of the call, and for the other side under the one or two
/// values that are sought. A call costs a hash for each value, and the logarithm of what has the same join value. After a call
/// that was refused memory the memories keep part of what they should.
#[derive(Drop)]
pub struct Memories<S> {
    pattern: KeyedPattern,
    left: JoinIndex<Value, Row, S>,
    right: JoinIndex<Value, Named, ()>,
}

impl<S: Drop> Memories<S> {
    /// Nothing is kept. Takes no memory.
    pub fn new(alloc: Global, pattern: Pattern) -> Memories<S>
        ensures pattern { result.pattern ≡ pattern }
        ensures nothing { (look : Look) (forgotten : Named → Bool) → StandsFor result look no_rows no_names forgotten }
    {
        Memories {
            pattern: KeyedPattern::new(pattern),
            left: JoinIndex::new(alloc),
            right: JoinIndex::new(alloc),
        }
    }

    /// The pattern. Takes no memory.
    pub fn pattern(&self) -> &Pattern
        ensures { result.now ≡ self.now.pattern }
    {
        self.pattern.pattern()
    }

    /// What is kept for a left row; `None` exactly where the row is not kept. Takes no memory.
    pub fn kept_for<F: Facts>(&self, row: &Row, facts: &F) -> Option<&S>
        ensures { option_map (λ kept. kept.now) result ≡ left_at self.now (F.map facts.now) row.now }
    {
        let value = self.pattern.row_value(row, facts);
        self.left.get(value.value(), row)
    }

    /// Takes a left row out, and answers what was kept for it; `None` exactly where it was not kept. Takes no memory.
    pub fn take_left<F: Facts>(&mut self, row: &Row, facts: &F) -> Option<S>
        ensures taken { result ≡ left_at self.old (F.map facts.now) row.now }
        ensures left { (r : Row) → left_at self.new (F.map facts.now) r ≡ cond (eq_by_cmp row_cmp row.now r) None (left_at self.old (F.map facts.now) r) }
        ensures keeps { KeepsMemories self.old self.new (F.map facts.now)
            (λ r. has_left self.old (F.map facts.now) r && not (eq_by_cmp row_cmp row.now r)) (has_right self.old (F.map facts.now)) }
        ensures right { self.new.right ≡ self.old.right }
    {
        let value = self.pattern.row_value(row, facts);
        self.left.take(value.value(), row)
    }

    /// Puts a left row in, with what is kept for it, and answers what was kept before.
    pub fn put_left<F: Facts>(
        &mut self,
        alloc: Global,
        row: Row,
        kept: S,
        facts: &F,
    ) -> Result<Option<S>, NoMemory>
        ensures before { IfOk result (λ before. before ≡ left_at self.old (F.map facts.now) row) }
        ensures left { OnOk result ((r : Row) → left_at self.new (F.map facts.now) r ≡ cond (eq_by_cmp row_cmp row r) (Some kept) (left_at self.old (F.map facts.now) r)) }
        ensures keeps { OnOk result (KeepsMemories self.old self.new (F.map facts.now)
            (λ r. has_left self.old (F.map facts.now) r || eq_by_cmp row_cmp row r) (has_right self.old (F.map facts.now))) }
        ensures right { OnOk result (self.new.right ≡ self.old.right) }
    {
        let value = self.pattern.row_value(&row, facts).into_value(alloc)?;
        let before = self.left.put(value, row, kept)?;
        Ok(before)
    }

    /// Keeps this for a left row in place of what was kept, and answers that; where the row is not kept, gives this back, and
    /// nothing changes. Takes no memory.
    pub fn exchange_left<F: Facts>(&mut self, row: &Row, kept: S, facts: &F) -> Result<S, S>
        ensures before { IfOk result (λ before. left_at self.old (F.map facts.now) row.now ≡ Some before) }
        ensures left { OnOk result ((r : Row) → left_at self.new (F.map facts.now) r ≡ cond (eq_by_cmp row_cmp row.now r) (Some kept) (left_at self.old (F.map facts.now) r)) }
        ensures keeps { OnOk result (KeepsMemories self.old self.new (F.map facts.now) (has_left self.old (F.map facts.now)) (has_right self.old (F.map facts.now))) }
        ensures right { self.new.right ≡ self.old.right }
        ensures absent { OnErr result (left_at self.old (F.map facts.now) row.now ≡ None) }
        ensures back { IfErr result (λ given. given ≡ kept) }
    {
        let value = self.pattern.row_value(row, facts);
        match self.left.exchange(value.value(), row, kept) {
            Ok(before) => Ok(before),
            Err(given) => Err(given),
        }
    }

    /// Takes a candidate out, and answers its sight if it was kept. Takes no memory.
    pub fn take_right<'a, F: Facts>(&mut self, who: Named, facts: &'a F) -> Option<Sight<'a>>
        ensures taken { is_some result ≡ has_right self.old (F.map facts.now) who }
        ensures sight { IfSome result (SeesRows self.old.pattern (F.map facts.now) who) }
        ensures left { (r : Row) → left_at self.new (F.map facts.now) r ≡ left_at self.old (F.map facts.now) r }
        ensures keeps { KeepsMemories self.old self.new (F.map facts.now)
            (has_left self.old (F.map facts.now)) (λ c. has_right self.old (F.map facts.now) c && not (eq_by_cmp name_cmp who c)) }
    {
        let sight = self.pattern.sight(who, facts);
        let was = self.right.take(sight.own(), &who).is_some();
        was.then_some(sight)
    }

    /// Puts a candidate in, and answers its sight unless it was kept before.
    pub fn put_right<'a, F: Facts>(
        &mut self,
        alloc: Global,
        who: Named,
        facts: &'a F,
    ) -> Result<Option<Sight<'a>>, NoMemory>
        ensures came { IfOk result (λ sight. is_some sight ≡ not (has_right self.old (F.map facts.now) who)) }
        ensures sight { IfOk result (λ sight. IfSome sight (SeesRows self.old.pattern (F.map facts.now) who)) }
        ensures left { OnOk result ((r : Row) → left_at self.new (F.map facts.now) r ≡ left_at self.old (F.map facts.now) r) }
        ensures keeps { OnOk result (KeepsMemories self.old self.new (F.map facts.now)
            (has_left self.old (F.map facts.now)) (λ c. has_right self.old (F.map facts.now) c || eq_by_cmp name_cmp who c)) }
    {
        let sight = self.pattern.sight(who, facts);
        let value = sight.own().copy(alloc)?;
        let came = self.right.put(value, who, ())?.is_none();
        Ok(came.then_some(sight))
    }

    /// Exchanges the candidates with shared ones: the node has those, and its own wait in their place. Takes no memory.
    pub fn exchange_right(&mut self, shared: &mut Candidates)
        ensures memories { self.new ≡ sharing self.old shared.old }
        ensures pattern { shared.new.pattern ≡ shared.old.pattern }
        ensures names { shared.new.names ≡ self.old.right }
    {
        shared.exchange_names(&mut self.right);
    }

    /// The sight of a candidate, whether it is kept or not. It takes no memory, and costs what the join value of a candidate costs its
    /// pattern, and where there is a range of time, a hash for each slot.
    pub fn sight<'a, F: Facts>(&self, who: Named, facts: &'a F) -> Sight<'a>
        ensures { SeesRows self.now.pattern (F.map facts.now) who result }
    {
        self.pattern.sight(who, facts)
    }

    /// The value under which a left row is kept. It takes no memory, and costs what the join value of a row costs its pattern.
    pub fn row_value<'a, F: Facts>(&self, row: &Row, facts: &'a F) -> JoinValue<'a>
        ensures { shown result ≡ row_value self.now.pattern (F.map facts.now) row.now }
    {
        self.pattern.row_value(row, facts)
    }

    /// Whether a left row is kept under a value. It takes no memory, and costs a hash.
    pub fn has_rows_under(&self, value: &Value) -> bool
        ensures bucket { result ≡ is_some (bucket_at same_value self.now.left value.now) }
        ensures none { result ≡ false → (row : Row) → at same_value row_cmp self.now.left value.now row ≡ None }
    {
        self.left.bucket(value).is_some()
    }

    /// The rows that a candidate of this sight makes with the left rows that are kept, whether it is kept or not. It costs a test of
    /// each left row with a join value that is sought for it.
    pub fn with_candidate<F: Facts>(
        &self,
        alloc: Global,
        sight: &Sight<'_>,
        who: Named,
        facts: &F,
    ) -> Result<Vec<Row>, NoMemory>
        ensures { SeesRows self.now.pattern (F.map facts.now) who sight.now → IfOk result (λ found. (row : Row) → has found.items row
            ≡ joined (joins self.now.pattern (F.map facts.now)) (has_left self.now (F.map facts.now)) (eq_by_cmp name_cmp who) row) }
    {
        made_with_name(alloc, &self.pattern, &self.left, sight, who, facts)
    }

    /// The rows that a left row makes with the candidates that are kept, whether it is kept or not. It costs a test of each
    /// candidate with a join value that is sought for it.
    pub fn with_row<F: Facts>(
        &self,
        alloc: Global,
        row: &Row,
        facts: &F,
    ) -> Result<Vec<Row>, NoMemory>
        ensures { IfOk result (λ found. (r : Row) → has found.items r
            ≡ joined (joins self.now.pattern (F.map facts.now)) (eq_by_cmp row_cmp row.now) (has_right self.now (F.map facts.now)) r) }
    {
        made_with_row(alloc, &self.pattern, &self.right, row, facts)
    }

    /// The left rows for which a candidate of this sight passes, in order. It costs a test of each left row with a join value that is
    /// sought for it, and where two are, the logarithm of what passes.
    pub fn partners<F: Facts>(
        &self,
        alloc: Global,
        sight: &Sight<'_>,
        who: Named,
        facts: &F,
    ) -> Result<Vec<Row>, NoMemory>
        ensures rows { SeesRows self.now.pattern (F.map facts.now) who sight.now → IfOk result (λ found. (row : Row) → has found.items row
            ≡ (has_left self.now (F.map facts.now) row && joins self.now.pattern (F.map facts.now) row who)) }
        ensures in_order { IfOk result (λ found. InOrder found.items) }
    {
        let (value, other) = sight.sought();
        match other {
            Some(second) => self.partners_of_both(alloc, value, second, who, facts),
            None => self.partners_under(alloc, value, None, who, facts),
        }
    }

    /// The candidates that pass for a row, in order. It costs a test of each candidate with a join value that is sought for it,
    /// and where two are, the logarithm of what passes.
    pub fn passing<F: Facts>(
        &self,
        alloc: Global,
        row: &Row,
        facts: &F,
    ) -> Result<Vec<Named>, NoMemory>
        ensures names { IfOk result (λ found. (who : Named) → has_name found.items who ≡ (has_right self.now (F.map facts.now) who && joins self.now.pattern (F.map facts.now) row.now who)) }
        ensures in_order { IfOk result (λ found. IsStrictlySortedBy name_cmp found.items) }
    {
        self.passing_over(alloc, None, row, facts)
    }

    /// The same of shared candidates in place of its own, where some are given.
    pub fn passing_over<F: Facts>(
        &self,
        alloc: Global,
        shared: Option<&Candidates>,
        row: &Row,
        facts: &F,
    ) -> Result<Vec<Named>, NoMemory>
        ensures names { IfOk result (λ found. (who : Named) → has_name found.items who
            ≡ (has_right (over self.now (option_map (λ c. c.now) shared.entry)) (F.map facts.now) who && joins self.now.pattern (F.map facts.now) row.now who)) }
        ensures in_order { IfOk result (λ found. IsStrictlySortedBy name_cmp found.items) }
    {
        let names = self.names(shared);
        match self.pattern.candidates_sought(row, facts) {
            Sought::One(value) => {
                passing_under(alloc, names, &self.pattern, value.value(), None, row, facts)
            }
            Sought::Two(first, second) => {
                passing_of_both(alloc, names, &self.pattern, &first, &second, row, facts)
            }
        }
    }

    // The index of shared candidates, or of its own where none are given. Takes no memory.
    fn names<'a>(&'a self, shared: Option<&'a Candidates>) -> &'a JoinIndex<Value, Named, ()>
        ensures { result.now ≡ (over self.now (option_map (λ c. c.now) shared.entry)).right }
    {
        match shared {
            Some(shared) => shared.names(),
            None => &self.right,
        }
    }

    /// The left rows that stand under a value for which a candidate passes, in order, of which those are taken that have the join
    /// value that is asked for.
    fn partners_under<F: Facts>(
        &self,
        alloc: Global,
        value: &Value,
        under: Option<&Value>,
        who: Named,
        facts: &F,
    ) -> Result<Vec<Row>, NoMemory>
        ensures rows { IfOk result (λ found. (row : Row) → has found.items row
            ≡ (stands_in row_cmp (bucket_at same_value self.now.left value.now) row
            && row_joins self.now.pattern (F.map facts.now) (option_map (λ v. v.now) under.entry) row who)) }
        ensures in_order { IfOk result (λ found. InOrder found.items) }
    {
        match self.left.bucket(value) {
            Some(bucket) => rows_passed(alloc, bucket, &self.pattern, who, facts, under),
            None => Ok(Vec::new(alloc)),
        }
    }

    /// The same for two values, each of which its rows have for their join value.
    fn partners_of_both<F: Facts>(
        &self,
        alloc: Global,
        first: &Value,
        second: &Value,
        who: Named,
        facts: &F,
    ) -> Result<Vec<Row>, NoMemory>
        ensures rows { IfOk result (λ found. (row : Row) → has found.items row
            ≡ ((stands_in row_cmp (bucket_at same_value self.now.left first.now) row
            && row_joins self.now.pattern (F.map facts.now) (Some first.now) row who)
            || (stands_in row_cmp (bucket_at same_value self.now.left second.now) row
            && row_joins self.now.pattern (F.map facts.now) (Some second.now) row who))) }
        ensures in_order { IfOk result (λ found. InOrder found.items) }
    {
        let rows = self.partners_under(alloc, first, Some(first), who, facts)?;
        let more = self.partners_under(alloc, second, Some(second), who, facts)?;
        merged(alloc, rows, more)
    }
}
