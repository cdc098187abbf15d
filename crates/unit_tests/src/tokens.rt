use drl_lex::{LexFault, Mark, TokenKind, kinds_and_starts, lex};
use std::alloc::{AllocError, Global};
use std::test::Fail;

/// Bytes, and their tokens with offset and length, or the fault that stands first.
const ROWS: &[(&[u8], &str)] = &[
    (b"", ""),
    (
        b"a $b 3m30s",
        "Word(\"a\") 0 1; Var(\"b\") 2 2; Time(Natural { number: 210000 }) 5 5; ",
    ),
    (
        b" _x9\t$_\r\n$4b",
        "Word(\"_x9\") 1 3; Var(\"_\") 5 2; Var(\"4b\") 9 3; ",
    ),
    (b"a$b", "Word(\"a\") 0 1; Var(\"b\") 1 2; "),
    (
        b"007 9223372036854775807",
        "Number(Natural { number: 7 }) 0 3; Number(Natural { number: 9223372036854775807 }) 4 19; ",
    ),
    (b"9223372036854775808", "NumberLarge at 0"),
    (b"a 99999999999999999999999", "NumberLarge at 2"),
    (
        b"1s500 90s 5ms",
        "Time(Natural { number: 1500 }) 0 5; Time(Natural { number: 90000 }) 6 3; Time(Natural { number: 5 }) 10 3; ",
    ),
    (b"1d2h3m4s5ms", "Time(Natural { number: 93784005 }) 0 11; "),
    (b"1h2m", "Time(Natural { number: 3720000 }) 0 4; "),
    (b"0d7", "Time(Natural { number: 7 }) 0 3; "),
    (
        b"9007199254740992ms",
        "Time(Natural { number: 9007199254740992 }) 0 18; ",
    ),
    (b"9007199254740993ms", "NumberLarge at 0"),
    (b"99999999999999999999999d1", "NumberLarge at 0"),
    (b"3q", "BadChar at 0"),
    (b"x 5ms7", "BadChar at 2"),
    (b"2m1h", "BadChar at 0"),
    (b"1m1m", "BadChar at 0"),
    (b"3$", "BadChar at 0"),
    (b"1_0", "BadChar at 0"),
    (b"\"a'b\" '\"'", "Text(\"a'b\") 0 5; Text(\"\\\"\") 6 3; "),
    (
        b"\"\\\"\\'\\\\\\n\\t\\r\"''",
        "Text(\"\\\"'\\\\\\n\\t\\r\") 0 14; Text(\"\") 14 2; ",
    ),
    (b"\"\xc3\xa9\"", "Text(\"é\") 0 4; "),
    (b" \"\xc3\"", "BadChar at 1"),
    (b"\"ab\ncd\"", "OpenText at 0"),
    (b"a 'bc", "OpenText at 2"),
    (b"a 'b\\x", "BadChar at 4"),
    (b"'\xff\\q'", "BadChar at 2"),
    (b"'\xff", "OpenText at 0"),
    (b"'a\\", "BadChar at 2"),
    (b"'a\\\nb'", "BadChar at 2"),
    (
        b"a // b\nc # d\n/* e\n f */g",
        "Word(\"a\") 0 1; Word(\"c\") 7 1; Word(\"g\") 23 1; ",
    ),
    (b"#", ""),
    (b"/*/", "OpenComment at 0"),
    (b"/*/ a */ b", "Word(\"b\") 9 1; "),
    (b"/***/a/**/b", "Word(\"a\") 5 1; Word(\"b\") 10 1; "),
    (b"a /* b * /", "OpenComment at 2"),
    (b"/*\xff*/ //\xff\n#\xff", ""),
    (
        b"(){}[],;:.@+-*",
        "Mark(OpenParenthesis) 0 1; Mark(CloseParenthesis) 1 1; Mark(OpenBrace) 2 1; Mark(CloseBrace) 3 1; Mark(OpenBracket) 4 1; Mark(CloseBracket) 5 1; Mark(Comma) 6 1; Mark(Semicolon) 7 1; Mark(Colon) 8 1; Mark(Dot) 9 1; Mark(At) 10 1; Mark(Plus) 11 1; Mark(Minus) 12 1; Mark(Star) 13 1; ",
    ),
    (
        b"= == != < <= > >= || &&",
        "Mark(Assign) 0 1; Mark(Comparison(Equal)) 2 2; Mark(Comparison(NotEqual)) 5 2; Mark(Comparison(Less)) 8 1; Mark(Comparison(LessOrEqual)) 10 2; Mark(Comparison(Greater)) 13 1; Mark(Comparison(GreaterOrEqual)) 15 2; Mark(Or) 18 2; Mark(And) 21 2; ",
    ),
    (b"===", "Mark(Comparison(Equal)) 0 2; Mark(Assign) 2 1; "),
    (b"a / b", "BadChar at 2"),
    (b"a | b", "BadChar at 2"),
    (b"$ a", "BadChar at 0"),
];

fn lexed_text(alloc: Global, bytes: &[u8]) -> Result<String, AllocError> {
    match lex(alloc, bytes) {
        Ok(tokens) => {
            let mut text = String::new(alloc);
            for token in tokens.as_slice() {
                let said = format!(in alloc; "{:?} {} {}; ", token.kind, token.at, token.len)?;
                text.push_str(&said)?;
            }
            Ok(text)
        }
        Err(LexFault::Refused { code, at }) => format!(in alloc; "{code:?} at {at}"),
        Err(LexFault::NoMemory) => Err(AllocError),
    }
}

#[test]
fn files_are_cut_into_tokens(rt: HostRuntime) -> Result<(), Fail> {
    for row in ROWS {
        assert_eq!(rt; lexed_text(rt.alloc(), row.0)?.as_str(), row.1);
    }
    Ok(())
}

fn are_word_colon_number(kinds: &[TokenKind]) -> bool {
    matches!(
        kinds,
        [
            TokenKind::Word(_),
            TokenKind::Mark(Mark::Colon),
            TokenKind::Number(_)
        ]
    )
}

#[test]
fn tokens_are_taken_apart(rt: HostRuntime) -> Result<(), Fail> {
    let tokens = lex(rt.alloc(), b"price : 5")?;
    let (kinds, starts) = kinds_and_starts(rt.alloc(), tokens)?;
    assert!(rt; are_word_colon_number(kinds.as_slice()));
    assert_eq!(rt; starts.as_slice(), [0, 6, 8].as_slice());
    Ok(())
}
