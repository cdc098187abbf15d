ghost use Rattle.std.specs.Prelude.{◌≡◌, ◌&&◌, ◌||◌, ◌++◌, [], ◌∷◌, Some, cond, option_map, IfOk, OnOk};
ghost use Rattle.std.specs.Option.{is_some};
ghost use Rattle.std.specs.Ordering.{eq_by_cmp};
ghost use Rattle.row_delta.specs.declared.row.Row.{Row};
ghost use Rattle.row_delta.specs.declared.row.Named.{Named};
ghost use Rattle.row_delta.specs.Rows.{has, row_cmp};
ghost use Rattle.row_delta.specs.NameOrder.{name_cmp};
ghost use Rattle.alpha_memory.specs.Bucket.{found};
ghost use Rattle.alpha_memory.specs.JoinIndex.{bucket_at};
ghost use Rattle.join_tests.specs.Kept.{row_value, candidate_value};
ghost use Rattle.join_memory.specs.Joined.{with_name, joined, has_name};
ghost use Rattle.join_memory.specs.Under.{is_under, row_joins, name_joins, stands_in};
ghost use Rattle.fx_base.specs.Values.{same_value};
ghost use Rattle.std.specs.List.Sorted.{IsStrictlySortedBy};

use crate::merge::merged;
use alpha_memory::{Bucket, JoinIndex};
use fx_base::{Copies, Facts, NoMemory, Seq, Value};
use join_tests::KeyedPattern;
use row_delta::{Named, Row};
use std::alloc::Global;

/// Whether a row has the join value that is asked for, where one is. Takes no memory.
fn is_row_under<F: Facts>(
    pattern: &KeyedPattern,
    row: &Row,
    facts: &F,
    under: Option<&Value>,
) -> bool
    ensures { result ≡ is_under (option_map (λ v. v.now) under.entry) (row_value pattern.now (F.map facts.now) row.now) }
{
    match under {
        Some(under) => pattern.row_value(row, facts).value().same(under),
        None => true,
    }
}

/// Whether a candidate has the join value that is asked for, where one is. Takes no memory.
fn is_name_under<F: Facts>(
    pattern: &KeyedPattern,
    who: Named,
    facts: &F,
    under: Option<&Value>,
) -> bool
    ensures { result ≡ is_under (option_map (λ v. v.now) under.entry) (candidate_value pattern.now (F.map facts.now) who) }
{
    match under {
        Some(under) => pattern.candidate_value(who, facts).value().same(under),
        None => true,
    }
}

/// Whether a candidate joins a row that has the join value which is asked for.
fn does_row_join<F: Facts>(
    pattern: &KeyedPattern,
    row: &Row,
    who: Named,
    facts: &F,
    under: Option<&Value>,
) -> bool
    ensures { result ≡ row_joins pattern.now (F.map facts.now) (option_map (λ v. v.now) under.entry) row.now who }
{
    pattern.joins(row, who, facts) && is_row_under(pattern, row, facts, under)
}

/// Whether a candidate that has the join value which is asked for joins a row.
fn does_name_join<F: Facts>(
    pattern: &KeyedPattern,
    row: &Row,
    who: Named,
    facts: &F,
    under: Option<&Value>,
) -> bool
    ensures { result ≡ name_joins pattern.now (F.map facts.now) (option_map (λ v. v.now) under.entry) row.now who }
{
    pattern.joins(row, who, facts) && is_name_under(pattern, who, facts, under)
}

/// The row with one fact more.
fn row_with(alloc: Global, row: &Row, who: Named) -> Result<Row, NoMemory>
    ensures { IfOk result (λ r. r ≡ with_name row.now who) }
{
    let mut facts = Vec::with_capacity(alloc, row.facts.as_slice().len() + 1)?;
    facts.extend_from_slice(row.facts.as_slice())?;
    facts.push(who)?;
    Ok(Row {
        facts: Seq::from_vec(facts),
        values: row.values.copy(alloc)?,
    })
}

/// Adds the row with one fact more to these rows, where the fact joins it.
fn add_row(
    rows: &mut Vec<Row>,
    alloc: Global,
    row: &Row,
    who: Named,
    joins: bool,
) -> Result<(), NoMemory>
    ensures { OnOk result ((r : Row) → has rows.new.items r ≡ (has rows.old.items r || (eq_by_cmp row_cmp r (with_name row.now who) && joins))) }
{
    if joins {
        rows.push(row_with(alloc, row, who)?)?;
    }
    Ok(())
}

/// The rows that a candidate makes with the rows of a bucket which have the join value that is asked for.
pub(crate) fn with_rows<S, F: Facts>(
    alloc: Global,
    bucket: &Bucket<Row, S>,
    pattern: &KeyedPattern,
    who: Named,
    facts: &F,
    under: Option<&Value>,
) -> Result<Vec<Row>, NoMemory>
    ensures { IfOk result (λ rows. (row : Row) → has rows.items row
        ≡ joined (row_joins pattern.now (F.map facts.now) (option_map (λ v. v.now) under.entry)) (λ l. is_some (found row_cmp bucket.now l)) (eq_by_cmp name_cmp who) row) }
{
    let mut rows = Vec::new(alloc);
    match bucket {
        Bucket::One(row, _) => {
            let joins = does_row_join(pattern, row, who, facts, under);
            add_row(&mut rows, alloc, row, who, joins)?;
        }
        Bucket::Many(ordered) => {
            for row in ordered.keys() {
                let joins = does_row_join(pattern, row, who, facts, under);
                add_row(&mut rows, alloc, row, who, joins)?;
            }
        }
    }
    Ok(rows)
}

/// The rows that a row makes with the candidates of a bucket which have the join value that is asked for.
pub(crate) fn with_names<F: Facts>(
    alloc: Global,
    bucket: &Bucket<Named, ()>,
    pattern: &KeyedPattern,
    row: &Row,
    facts: &F,
    under: Option<&Value>,
) -> Result<Vec<Row>, NoMemory>
    ensures { IfOk result (λ rows. (r : Row) → has rows.items r
        ≡ joined (name_joins pattern.now (F.map facts.now) (option_map (λ v. v.now) under.entry)) (eq_by_cmp row_cmp row.now) (λ c. is_some (found name_cmp bucket.now c)) r) }
{
    let mut rows = Vec::new(alloc);
    match bucket {
        Bucket::One(who, ()) => {
            let joins = does_name_join(pattern, row, *who, facts, under);
            add_row(&mut rows, alloc, row, *who, joins)?;
        }
        Bucket::Many(ordered) => {
            for who in ordered.keys() {
                let joins = does_name_join(pattern, row, *who, facts, under);
                add_row(&mut rows, alloc, row, *who, joins)?;
            }
        }
    }
    Ok(rows)
}

/// Adds a copy of the row to these rows, where it passes.
pub(crate) fn add_passed(
    rows: &mut Vec<Row>,
    alloc: Global,
    row: &Row,
    passes: bool,
) -> Result<(), NoMemory>
    ensures { OnOk result (rows.new.items ≡ rows.old.items ++ cond passes (row.now ∷ []) []) }
{
    if passes {
        rows.push(row.copy(alloc)?)?;
    }
    Ok(())
}

/// The rows of a bucket for which a candidate passes, and which have the join value that is asked for.
pub(crate) fn rows_passed<S, F: Facts>(
    alloc: Global,
    bucket: &Bucket<Row, S>,
    pattern: &KeyedPattern,
    who: Named,
    facts: &F,
    under: Option<&Value>,
) -> Result<Vec<Row>, NoMemory>
    ensures rows { IfOk result (λ rows. (row : Row) → has rows.items row
        ≡ (is_some (found row_cmp bucket.now row) && row_joins pattern.now (F.map facts.now) (option_map (λ v. v.now) under.entry) row who)) }
    ensures in_order { IfOk result (λ rows. IsStrictlySortedBy row_cmp rows.items) }
{
    let mut rows = Vec::new(alloc);
    match bucket {
        Bucket::One(row, _) => {
            let joins = does_row_join(pattern, row, who, facts, under);
            add_passed(&mut rows, alloc, row, joins)?;
        }
        Bucket::Many(ordered) => {
            for row in ordered.keys() {
                let joins = does_row_join(pattern, row, who, facts, under);
                add_passed(&mut rows, alloc, row, joins)?;
            }
        }
    }
    Ok(rows)
}

/// Adds the candidate to these candidates, where it passes.
pub(crate) fn add_passing(names: &mut Vec<Named>, who: Named, passes: bool) -> Result<(), NoMemory>
    ensures { OnOk result (names.new.items ≡ names.old.items ++ cond passes (who ∷ []) []) }
{
    if passes {
        names.push(who)?;
    }
    Ok(())
}

/// The candidates of a bucket that pass for a row, and have the join value that is asked for.
pub(crate) fn names_passed<F: Facts>(
    alloc: Global,
    bucket: &Bucket<Named, ()>,
    pattern: &KeyedPattern,
    row: &Row,
    facts: &F,
    under: Option<&Value>,
) -> Result<Vec<Named>, NoMemory>
    ensures names { IfOk result (λ names. (who : Named) → has_name names.items who
        ≡ (is_some (found name_cmp bucket.now who) && name_joins pattern.now (F.map facts.now) (option_map (λ v. v.now) under.entry) row.now who)) }
    ensures in_order { IfOk result (λ names. IsStrictlySortedBy name_cmp names.items) }
{
    let mut names = Vec::new(alloc);
    match bucket {
        Bucket::One(who, ()) => {
            let joins = does_name_join(pattern, row, *who, facts, under);
            add_passing(&mut names, *who, joins)?;
        }
        Bucket::Many(ordered) => {
            for who in ordered.keys() {
                let joins = does_name_join(pattern, row, *who, facts, under);
                add_passing(&mut names, *who, joins)?;
            }
        }
    }
    Ok(names)
}

/// The candidates that stand under a value in an index and pass for a row, in order, of which those are taken that have the join
/// value that is asked for.
pub(crate) fn passing_under<F: Facts>(
    alloc: Global,
    names: &JoinIndex<Value, Named, ()>,
    pattern: &KeyedPattern,
    value: &Value,
    under: Option<&Value>,
    row: &Row,
    facts: &F,
) -> Result<Vec<Named>, NoMemory>
    ensures names { IfOk result (λ found. (who : Named) → has_name found.items who
        ≡ (stands_in name_cmp (bucket_at same_value names.now value.now) who && name_joins pattern.now (F.map facts.now) (option_map (λ v. v.now) under.entry) row.now who)) }
    ensures in_order { IfOk result (λ found. IsStrictlySortedBy name_cmp found.items) }
{
    match names.bucket(value) {
        Some(bucket) => names_passed(alloc, bucket, pattern, row, facts, under),
        None => Ok(Vec::new(alloc)),
    }
}

/// The same for two values, each of which its candidates have for their join value.
pub(crate) fn passing_of_both<F: Facts>(
    alloc: Global,
    names: &JoinIndex<Value, Named, ()>,
    pattern: &KeyedPattern,
    first: &Value,
    second: &Value,
    row: &Row,
    facts: &F,
) -> Result<Vec<Named>, NoMemory>
    ensures names { IfOk result (λ found. (who : Named) → has_name found.items who
        ≡ ((stands_in name_cmp (bucket_at same_value names.now first.now) who && name_joins pattern.now (F.map facts.now) (Some first.now) row.now who)
        || (stands_in name_cmp (bucket_at same_value names.now second.now) who && name_joins pattern.now (F.map facts.now) (Some second.now) row.now who))) }
    ensures in_order { IfOk result (λ found. IsStrictlySortedBy name_cmp found.items) }
{
    let found = passing_under(alloc, names, pattern, first, Some(first), row, facts)?;
    let more = passing_under(alloc, names, pattern, second, Some(second), row, facts)?;
    merged(alloc, found, more)
}
