ghost use Rattle.std.specs.Prelude.{◌≡◌, true, option_map};
ghost use Rattle.std.specs.List.{list_all};
ghost use Rattle.drl_lex.specs.Fronts.{longest, behind_close};
ghost use Rattle.drl_lex.specs.Bytes.{is_blank, begins_word, is_word_byte, is_run_byte, is_quote, is_line_byte};
ghost use Rattle.drl_lex.specs.Leads.{lead_of, text_byte_of, in_class};

/// What a byte can begin.
#[derive(Clone, Copy)]
pub(crate) enum Lead {
    Blank,
    Hash,
    Slash,
    Quote,
    Dollar,
    Digit,
    Letter,
    Other,
}

/// A class of bytes, of which the longest front is taken.
#[derive(Clone, Copy)]
pub(crate) enum Class {
    WordBytes,
    RunBytes,
    Digits,
    UnitBytes,
    LineBytes,
}

impl Class {
    #[tactic(auto, unfolding(crate::specs::Bytes::is_unit_byte, crate::specs::Bytes::is_line_byte))]
    fn contains(self, b: u8) -> bool
        ensures { result ≡ in_class self b }
    {
        match self {
            Class::WordBytes => is_word_byte(b),
            Class::RunBytes => is_run_byte(b),
            Class::Digits => b.is_ascii_digit(),
            Class::UnitBytes => !b.is_ascii_digit(),
            Class::LineBytes => b != b'\n',
        }
    }
}

/// What a byte behind an opening quote does.
#[derive(Clone, Copy)]
pub(crate) enum TextByte {
    Closing,
    Backslash,
    Newline,
    Plain,
}

#[tactic(auto, unfolding(crate::specs::Bytes::is_blank))]
pub(crate) fn is_blank(b: u8) -> bool
    ensures { result ≡ is_blank b }
{
    matches!(b, b' ' | b'\t' | b'\r' | b'\n')
}

#[tactic(auto, unfolding(crate::specs::Bytes::begins_word))]
pub(crate) fn begins_word(b: u8) -> bool
    ensures { result ≡ begins_word b }
{
    b.is_ascii_alphabetic() || b == b'_'
}

#[tactic(auto, unfolding(crate::specs::Bytes::is_word_byte))]
pub(crate) fn is_word_byte(b: u8) -> bool
    ensures { result ≡ is_word_byte b }
{
    b.is_ascii_alphanumeric() || b == b'_'
}

#[tactic(auto, unfolding(crate::specs::Bytes::is_run_byte))]
pub(crate) fn is_run_byte(b: u8) -> bool
    ensures { result ≡ is_run_byte b }
{
    is_word_byte(b) || b == b'$'
}

#[tactic(auto, unfolding(crate::specs::Bytes::is_quote))]
pub(crate) fn is_quote(b: u8) -> bool
    ensures { result ≡ is_quote b }
{
    b == b'"' || b == b'\''
}

#[tactic(auto, unfolding(crate::specs::Leads::lead_of))]
pub(crate) fn lead_of(b: u8) -> Lead
    ensures { result ≡ lead_of b }
{
    if is_blank(b) {
        Lead::Blank
    } else if b == b'#' {
        Lead::Hash
    } else if b == b'/' {
        Lead::Slash
    } else if is_quote(b) {
        Lead::Quote
    } else if b == b'$' {
        Lead::Dollar
    } else if b.is_ascii_digit() {
        Lead::Digit
    } else if begins_word(b) {
        Lead::Letter
    } else {
        Lead::Other
    }
}

#[tactic(auto, unfolding(crate::specs::Leads::text_byte_of))]
pub(crate) fn text_byte_of(quote: u8, b: u8) -> TextByte
    ensures { result ≡ text_byte_of quote b }
{
    if b == quote {
        TextByte::Closing
    } else if b == b'\\' {
        TextByte::Backslash
    } else if b == b'\n' {
        TextByte::Newline
    } else {
        TextByte::Plain
    }
}

/// The longest front of bytes of the class, and the bytes behind it.
pub(crate) fn split_front(class: Class, bytes: &[u8]) -> (&[u8], &[u8])
    ensures front { result.0.now ≡ (longest (in_class class) bytes.now).0 }
    ensures rest { result.1.now ≡ (longest (in_class class) bytes.now).1 }
    ensures passes { list_all (in_class class) result.0.now ≡ true }
{
    for (i, b) in bytes.iter().enumerate() {
        if !class.contains(*b) {
            return bytes.split_at(i);
        }
    }
    bytes.split_at(bytes.len())
}

/// The bytes behind the first `*/`.
#[tactic(auto, unfolding(crate::specs::Fronts::behind_close))]
pub(crate) fn behind_close(bytes: &[u8]) -> Option<&[u8]>
    ensures { option_map (λ rest. rest.now) result ≡ behind_close bytes.now }
{
    let mut rest = bytes;
    while let [first, after @ ..] = rest {
        if *first == b'*' && after.first() == Some(&b'/') {
            return Some(&after[1..]);
        }
        rest = after;
    }
    None
}
