ghost use Rattle.std.specs.Prelude.{◌≡◌};
ghost use Rattle.drl_condition.specs.Words as words;

use drl_grammar::{FoldWord, ResultWord};
use temporal_ops::OpWord;

/// The operator of this word.
#[tactic(auto, unfolding(crate::specs::Words::op_word))]
pub(crate) fn op_word(word: &str) -> Option<OpWord>
    ensures { result ≡ words.op_word word.now }
{
    match word {
        "after" => Some(OpWord::After),
        "before" => Some(OpWord::Before),
        "coincides" => Some(OpWord::Coincides),
        "during" => Some(OpWord::During),
        "includes" => Some(OpWord::Includes),
        "finishes" => Some(OpWord::Finishes),
        "finishedby" => Some(OpWord::FinishedBy),
        "starts" => Some(OpWord::Starts),
        "startedby" => Some(OpWord::StartedBy),
        "meets" => Some(OpWord::Meets),
        "metby" => Some(OpWord::MetBy),
        "overlaps" => Some(OpWord::Overlaps),
        "overlappedby" => Some(OpWord::OverlappedBy),
        _ => None,
    }
}

/// The function of this word.
#[tactic(auto, unfolding(crate::specs::Words::fold_word))]
pub(crate) fn fold_word(word: &str) -> Option<FoldWord>
    ensures { result ≡ words.fold_word word.now }
{
    match word {
        "count" => Some(FoldWord::Count),
        "sum" => Some(FoldWord::Sum),
        "min" => Some(FoldWord::Min),
        "max" => Some(FoldWord::Max),
        "average" => Some(FoldWord::Average),
        _ => None,
    }
}

/// The word by which a test of `Number(..)` speaks of the result.
#[tactic(auto, unfolding(crate::specs::Words::result_word))]
pub(crate) fn result_word(word: &str) -> Option<ResultWord>
    ensures { result ≡ words.result_word word.now }
{
    match word {
        "longValue" => Some(ResultWord::LongValue),
        "intValue" => Some(ResultWord::IntValue),
        _ => None,
    }
}

/// What the extent of a window is given in.
#[derive(Clone, Copy, Debug)]
pub(crate) enum WindowWord {
    TimeWord,
    LengthWord,
}

#[tactic(auto, unfolding(crate::specs::Words::window_word))]
pub(crate) fn window_word(word: &str) -> Option<WindowWord>
    ensures { result ≡ words.window_word word.now }
{
    match word {
        "time" => Some(WindowWord::TimeWord),
        "length" => Some(WindowWord::LengthWord),
        _ => None,
    }
}

/// The form of a condition.
#[derive(Clone, Copy, Debug)]
pub(crate) enum Form {
    Pattern,
    Negation,
    Existence,
    Accumulate,
    Number,
}

/// The form of a condition that begins with this word.
#[tactic(auto, unfolding(crate::specs::Words::word_form))]
pub(crate) fn word_form(word: &str) -> Form
    ensures { result ≡ words.word_form word.now }
{
    match word {
        "not" => Form::Negation,
        "exists" => Form::Existence,
        "accumulate" => Form::Accumulate,
        "Number" => Form::Number,
        _ => Form::Pattern,
    }
}
