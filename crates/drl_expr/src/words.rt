ghost use Rattle.std.specs.Prelude.{◌≡◌};
ghost use Rattle.drl_expr.specs.Words.{is_ident, is_among, item_words, condition_words, value_words};

fn is_item_word(word: &str) -> bool
    ensures { result ≡ is_among item_words word.now }
{
    word == "package"
        || word == "import"
        || word == "dialect"
        || word == "declare"
        || word == "rule"
        || word == "when"
        || word == "then"
        || word == "end"
        || word == "salience"
        || word == "extends"
}

fn is_condition_word(word: &str) -> bool
    ensures { result ≡ is_among condition_words word.now }
{
    word == "not"
        || word == "exists"
        || word == "accumulate"
        || word == "from"
        || word == "over"
        || word == "in"
        || word == "this"
        || word == "or"
}

fn is_value_word(word: &str) -> bool
    ensures { result ≡ is_among value_words word.now }
{
    word == "new"
        || word == "insert"
        || word == "modify"
        || word == "retract"
        || word == "true"
        || word == "false"
        || word == "Number"
}

/// Whether the word may stand as a name: it is no reserved one. Takes no memory.
#[tactic(auto, unfolding(crate::specs::Words::is_ident))]
pub fn is_ident_word(word: &str) -> bool
    ensures { result ≡ is_ident word.now }
{
    !(is_item_word(word) || is_condition_word(word) || is_value_word(word))
}
