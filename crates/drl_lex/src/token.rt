use crate::Natural;
use fx_base::Text;

/// How two values are compared.
#[derive(Clone, Copy, Debug, PartialEq, Eq)]
pub enum Rel {
    Equal,
    NotEqual,
    Less,
    LessOrEqual,
    Greater,
    GreaterOrEqual,
}

/// A punctuation mark or an operator.
#[derive(Clone, Copy, Debug, PartialEq, Eq)]
pub enum Mark {
    OpenParenthesis,
    CloseParenthesis,
    OpenBrace,
    CloseBrace,
    OpenBracket,
    CloseBracket,
    Comma,
    Semicolon,
    Colon,
    Dot,
    At,
    Plus,
    Minus,
    Star,
    Assign,
    Comparison(Rel),
    Or,
    And,
}

/// What a token says.
#[derive(Debug, Drop)]
pub enum TokenKind {
    /// A word, reserved or not.
    Word(Text),
    /// A variable, by its name without the `$`.
    Var(Text),
    Number(Natural),
    /// A length of time in milliseconds, at most 2^53.
    Time(Natural),
    /// A quoted text: what stands between its quotes, its escapes resolved.
    Text(Text),
    Mark(Mark),
}

/// A token and the bytes that it takes: `len` of them, the first at offset `at` of the file.
#[derive(Debug, Drop)]
pub struct Token {
    pub kind: TokenKind,
    pub at: usize,
    pub len: usize,
}
