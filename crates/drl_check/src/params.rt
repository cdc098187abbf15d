ghost use Rattle.std.specs.Prelude.{◌≡◌, is_some};
ghost use Rattle.std.specs.List.{list_any};
ghost use Rattle.temporal_ops.specs.Operators.{edges_of};
ghost use Rattle.temporal_ops.specs.Table.{takes_negative};
ghost use Rattle.drl_check.specs.Params.{is_below_zero as is_below_zero_of, is_negative_number, has_short_expiry, expires_at_once, are_refused, is_part_refused, is_empty_window, is_source_refused, is_condition_refused};

use drl_grammar::{CondTree, Meta, Part, SourceTree, TypeTree, WindowTree};
use drl_scope::source_of;
use temporal_ops::OpWord;

// ---- entry points

/// Whether a lateness is below 0.
pub(crate) fn is_below_zero(lateness: Option<i64>) -> bool
    ensures { result ≡ is_negative_number lateness }
{
    match lateness {
        Some(lateness) => lateness < 0,
        None => false,
    }
}

// ---- types

fn is_short_expiry(meta: &Meta) -> bool
    ensures { result ≡ has_short_expiry meta.now }
{
    match meta {
        Meta::Expires(offset) => *offset < 1,
        Meta::Role(_) | Meta::Timestamp(_) | Meta::Duration(_) | Meta::Reference => false,
    }
}

fn some_short_expiry(metas: &[Meta]) -> bool
    ensures { result ≡ list_any has_short_expiry metas.now }
{
    metas.iter().any(|meta| is_short_expiry(meta))
}

/// Whether events of a type would expire in less than 1 ms.
pub(crate) fn does_expire_at_once(tree: &TypeTree) -> bool
    ensures { result ≡ expires_at_once tree.now }
{
    some_short_expiry(tree.metas.as_slice())
}

// ---- rules

// Whether the table of operators has a row of this word for that many parameters.
#[tactic(auto, unfolding(temporal_ops::specs::Operators::edges_of))]
fn has_row(word: OpWord, params: &[i64]) -> bool
    ensures { result ≡ is_some (edges_of word params.now) }
{
    match word {
        OpWord::After => params.len() <= 2,
        OpWord::Before => params.len() <= 2,
        OpWord::Coincides => params.len() <= 2,
        OpWord::During => params.len() <= 2 || params.len() == 4,
        OpWord::Includes => params.len() <= 2 || params.len() == 4,
        OpWord::Finishes => params.len() <= 1,
        OpWord::FinishedBy => params.len() <= 1,
        OpWord::Starts => params.len() <= 1,
        OpWord::StartedBy => params.len() <= 1,
        OpWord::Meets => params.len() <= 1,
        OpWord::MetBy => params.len() <= 1,
        OpWord::Overlaps => params.len() <= 2,
        OpWord::OverlappedBy => params.len() <= 2,
    }
}

fn may_be_negative(word: OpWord) -> bool
    ensures { result ≡ takes_negative word }
{
    matches!(word, OpWord::After | OpWord::Before)
}

fn some_below_zero(params: &[i64]) -> bool
    ensures { result ≡ list_any is_below_zero_of params.now }
{
    params.iter().any(|param| *param < 0)
}

fn are_params_refused(word: OpWord, params: &[i64]) -> bool
    ensures { result ≡ are_refused word params.now }
{
    !has_row(word, params) || (!may_be_negative(word) && some_below_zero(params))
}

fn does_part_refuse(part: &Part) -> bool
    ensures { result ≡ is_part_refused part.now }
{
    match part {
        Part::Temporal { op, params, .. } => are_params_refused(*op, params.as_slice()),
        Part::Bind { .. } | Part::AnyOf(_) => false,
    }
}

fn does_some_part_refuse(parts: &[Part]) -> bool
    ensures { result ≡ list_any is_part_refused parts.now }
{
    parts.iter().any(|part| does_part_refuse(part))
}

fn is_window_empty(window: &Option<WindowTree>) -> bool
    ensures { result ≡ is_empty_window window.now }
{
    match window {
        Some(WindowTree::Time(millis)) => *millis < 1,
        Some(WindowTree::Length(count)) => *count < 1,
        None => false,
    }
}

fn does_source_refuse(source: &SourceTree) -> bool
    ensures { result ≡ is_source_refused source.now }
{
    is_window_empty(&source.window) || does_some_part_refuse(source.parts.as_slice())
}

fn does_condition_refuse(condition: &CondTree) -> bool
    ensures { result ≡ is_condition_refused condition.now }
{
    does_source_refuse(source_of(condition))
}

/// Whether the table of operators refuses the parameters of a temporal test of one of the conditions, or a window is of less
/// than 1 ms or of no events.
pub(crate) fn does_some_condition_refuse(conditions: &[CondTree]) -> bool
    ensures { result ≡ list_any is_condition_refused conditions.now }
{
    conditions
        .iter()
        .any(|condition| does_condition_refuse(condition))
}
