ghost use Rattle.std.specs.Prelude.{◌≡◌};
ghost use Rattle.drl_parse.specs.Reading.{meta_word_of, role_word, item_word};

/// The words of annotations.
#[derive(Clone, Copy)]
pub(crate) enum MetaWord {
    RoleWord,
    TimestampWord,
    DurationWord,
    ExpiresWord,
    ReferenceWord,
}

/// The words with which items begin.
#[derive(Clone, Copy)]
pub(crate) enum ItemWord {
    PackageWord,
    ImportWord,
    DialectWord,
    DeclareWord,
    RuleWord,
}

#[tactic(auto, unfolding(crate::specs::Reading::meta_word_of))]
pub(crate) fn word_of_meta(word: &str) -> Option<MetaWord>
    ensures { result ≡ meta_word_of word.now }
{
    match word {
        "role" => Some(MetaWord::RoleWord),
        "timestamp" => Some(MetaWord::TimestampWord),
        "duration" => Some(MetaWord::DurationWord),
        "expires" => Some(MetaWord::ExpiresWord),
        "reference" => Some(MetaWord::ReferenceWord),
        _ => None,
    }
}

/// Whether the word of a role is that of events.
#[tactic(auto, unfolding(crate::specs::Reading::role_word))]
pub(crate) fn role_of(word: &str) -> Option<bool>
    ensures { result ≡ role_word word.now }
{
    match word {
        "event" => Some(true),
        "fact" => Some(false),
        _ => None,
    }
}

#[tactic(auto, unfolding(crate::specs::Reading::item_word))]
pub(crate) fn word_of_item(word: &str) -> Option<ItemWord>
    ensures { result ≡ item_word word.now }
{
    match word {
        "package" => Some(ItemWord::PackageWord),
        "import" => Some(ItemWord::ImportWord),
        "dialect" => Some(ItemWord::DialectWord),
        "declare" => Some(ItemWord::DeclareWord),
        "rule" => Some(ItemWord::RuleWord),
        _ => None,
    }
}
