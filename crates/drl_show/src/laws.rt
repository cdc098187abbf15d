ghost use Rattle.drl_show.specs.Shown.{shown, InGrammar, IsReadAgain};

use drl_grammar::Written;

/// A law of the definitions: the text of a file whose items stand in the grammar is a file with the same items. The call
/// does nothing.
pub fn shown_is_read_again(file: &Written)
    ensures { InGrammar file.now → IsReadAgain file.now (shown file.now) }
{}
