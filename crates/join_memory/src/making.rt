//! The rows that a pattern makes of what is kept, by the join values that are sought.
ghost use Rattle.std.specs.Prelude.{◌≡◌, ◌||◌, Some, option_map, IfOk};
ghost use Rattle.std.specs.Ordering.{eq_by_cmp};
ghost use Rattle.fx_base.specs.Values.{same_value};
ghost use Rattle.row_delta.specs.declared.row.Row.{Row};
ghost use Rattle.row_delta.specs.Rows.{has, row_cmp};
ghost use Rattle.row_delta.specs.NameOrder.{name_cmp};
ghost use Rattle.alpha_memory.specs.JoinIndex.{bucket_at};
ghost use Rattle.join_tests.specs.Joins.{joins};
ghost use Rattle.join_tests.specs.Kept.{SeesRows};
ghost use Rattle.join_memory.specs.Joined.{joined};
ghost use Rattle.join_memory.specs.Memories.{row_kept, name_kept};
ghost use Rattle.join_memory.specs.Under.{row_joins, name_joins, stands_in};

use crate::partners::{with_names, with_rows};
use alpha_memory::JoinIndex;
use fx_base::{Facts, NoMemory, Value};
use join_tests::{KeyedPattern, Sight, Sought};
use row_delta::{Named, Row};
use std::alloc::Global;

/// The rows that a candidate of this sight makes with the left rows of an index. It costs a test of each left row with a join value that
/// is sought for it.
pub(crate) fn made_with_name<S: Drop, F: Facts>(
    alloc: Global,
    pattern: &KeyedPattern,
    left: &JoinIndex<Value, Row, S>,
    sight: &Sight<'_>,
    who: Named,
    facts: &F,
) -> Result<Vec<Row>, NoMemory>
    ensures { SeesRows pattern.now (F.map facts.now) who sight.now → IfOk result (λ found. (row : Row) → has found.items row
        ≡ joined (joins pattern.now (F.map facts.now)) (row_kept pattern.now left.now (F.map facts.now)) (eq_by_cmp name_cmp who) row) }
{
    let (value, other) = sight.sought();
    match other {
        Some(second) => rows_of_both(alloc, pattern, left, value, second, who, facts),
        None => rows_under(alloc, pattern, left, value, None, who, facts),
    }
}

/// The rows that a left row makes with the candidates of an index. It costs a test of each candidate with a join value that is
/// sought for it.
pub(crate) fn made_with_row<F: Facts>(
    alloc: Global,
    pattern: &KeyedPattern,
    right: &JoinIndex<Value, Named, ()>,
    row: &Row,
    facts: &F,
) -> Result<Vec<Row>, NoMemory>
    ensures { IfOk result (λ found. (r : Row) → has found.items r
        ≡ joined (joins pattern.now (F.map facts.now)) (eq_by_cmp row_cmp row.now) (name_kept pattern.now right.now (F.map facts.now)) r) }
{
    match pattern.candidates_sought(row, facts) {
        Sought::One(value) => names_under(alloc, pattern, right, value.value(), None, row, facts),
        Sought::Two(first, second) => {
            names_of_both(alloc, pattern, right, &first, &second, row, facts)
        }
    }
}

/// The rows that a candidate makes with the left rows that stand under a value, of which those are taken that have the join
/// value that is asked for.
fn rows_under<S: Drop, F: Facts>(
    alloc: Global,
    pattern: &KeyedPattern,
    left: &JoinIndex<Value, Row, S>,
    value: &Value,
    under: Option<&Value>,
    who: Named,
    facts: &F,
) -> Result<Vec<Row>, NoMemory>
    ensures { IfOk result (λ found. (row : Row) → has found.items row
        ≡ joined (row_joins pattern.now (F.map facts.now) (option_map (λ v. v.now) under.entry))
        (stands_in row_cmp (bucket_at same_value left.now value.now)) (eq_by_cmp name_cmp who) row) }
{
    match left.bucket(value) {
        Some(bucket) => with_rows(alloc, bucket, pattern, who, facts, under),
        None => Ok(Vec::new(alloc)),
    }
}

/// The same for two values, each of which its rows have for their join value.
fn rows_of_both<S: Drop, F: Facts>(
    alloc: Global,
    pattern: &KeyedPattern,
    left: &JoinIndex<Value, Row, S>,
    first: &Value,
    second: &Value,
    who: Named,
    facts: &F,
) -> Result<Vec<Row>, NoMemory>
    ensures { IfOk result (λ found. (row : Row) → has found.items row
        ≡ (joined (row_joins pattern.now (F.map facts.now) (Some first.now))
        (stands_in row_cmp (bucket_at same_value left.now first.now)) (eq_by_cmp name_cmp who) row
        || joined (row_joins pattern.now (F.map facts.now) (Some second.now))
        (stands_in row_cmp (bucket_at same_value left.now second.now)) (eq_by_cmp name_cmp who) row)) }
{
    let mut rows = rows_under(alloc, pattern, left, first, Some(first), who, facts)?;
    let mut more = rows_under(alloc, pattern, left, second, Some(second), who, facts)?;
    rows.append(&mut more)?;
    Ok(rows)
}

/// The rows that a row makes with the candidates that stand under a value, of which those are taken that have the join value
/// that is asked for.
fn names_under<F: Facts>(
    alloc: Global,
    pattern: &KeyedPattern,
    right: &JoinIndex<Value, Named, ()>,
    value: &Value,
    under: Option<&Value>,
    row: &Row,
    facts: &F,
) -> Result<Vec<Row>, NoMemory>
    ensures { IfOk result (λ found. (r : Row) → has found.items r
        ≡ joined (name_joins pattern.now (F.map facts.now) (option_map (λ v. v.now) under.entry))
        (eq_by_cmp row_cmp row.now) (stands_in name_cmp (bucket_at same_value right.now value.now)) r) }
{
    match right.bucket(value) {
        Some(bucket) => with_names(alloc, bucket, pattern, row, facts, under),
        None => Ok(Vec::new(alloc)),
    }
}

/// The same for two values, each of which its candidates have for their join value.
fn names_of_both<F: Facts>(
    alloc: Global,
    pattern: &KeyedPattern,
    right: &JoinIndex<Value, Named, ()>,
    first: &Value,
    second: &Value,
    row: &Row,
    facts: &F,
) -> Result<Vec<Row>, NoMemory>
    ensures { IfOk result (λ found. (r : Row) → has found.items r
        ≡ (joined (name_joins pattern.now (F.map facts.now) (Some first.now))
        (eq_by_cmp row_cmp row.now) (stands_in name_cmp (bucket_at same_value right.now first.now)) r
        || joined (name_joins pattern.now (F.map facts.now) (Some second.now))
        (eq_by_cmp row_cmp row.now) (stands_in name_cmp (bucket_at same_value right.now second.now)) r)) }
{
    let mut rows = names_under(alloc, pattern, right, first, Some(first), row, facts)?;
    let mut more = names_under(alloc, pattern, right, second, Some(second), row, facts)?;
    rows.append(&mut more)?;
    Ok(rows)
}
