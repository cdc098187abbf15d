ghost use Rattle.std.specs.Prelude.{◌≡◌};
ghost use Rattle.drl_action.specs.Reading.{action_word};

/// What an action does, by the word that it begins with.
#[derive(Clone, Copy, Debug, PartialEq, Eq)]
pub(crate) enum ActionWord {
    InsertWord,
    ModifyWord,
    RetractWord,
}

#[tactic(auto, unfolding(crate::specs::Reading::action_word))]
pub(crate) fn action_word_of(word: &str) -> Option<ActionWord>
    ensures { result ≡ action_word word.now }
{
    if word == "insert" {
        Some(ActionWord::InsertWord)
    } else if word == "modify" {
        Some(ActionWord::ModifyWord)
    } else if word == "retract" {
        Some(ActionWord::RetractWord)
    } else {
        None
    }
}
