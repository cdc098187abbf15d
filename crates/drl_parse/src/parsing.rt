ghost use Rattle.std.specs.Prelude.{◌≡◌, ◌↔◌, ◌<◌, ◌≤◌, ◌^◌, ℕ, length, nat_lt, IfOk, IfErr};
ghost use Rattle.drl_lex.specs.Reading.{lexed};
ghost use Rattle.drl_lex.specs.declared.fault.LexCode.{LexCode as LexCodeData};
ghost use Rattle.drl_grammar.specs.declared.written.Written.{Written as WrittenData};
ghost use Rattle.drl_grammar.specs.Files.{line_at, IsFile, IsOutside};
ghost use Rattle.drl_parse.specs.Parsed.{file_limit, IsLexical, IsParseFault, Parsed, is_file, outside, too_long, lexical, parsed, FaultOf, GivesParsed};
ghost use Rattle.drl_parse.specs.Reading.{item_at};
ghost use Rattle.drl_phrase.specs.Reading.{whole_at};
ghost use Rattle.drl_parse.specs.Items.{items_at, GivesItems};

use crate::fault::ParseFault;
use crate::items::ItemLine;
use crate::lines::{line_of, lines_of};
use crate::splitting::split_item;
use drl_grammar::{Written, WrittenItem};
use drl_lex::{LexFault, TokenKind, kinds_and_starts, lex};
use drl_phrase::whole;
use fx_base::Seq;
use std::alloc::Global;

// The fault of an item.
fn outside(item: u32, line: u32) -> ParseFault
    ensures { result ≡ ParseFault.Syntax item line }
{
    ParseFault::Syntax { item, line }
}

// The items that the tokens are, or the first that is none.
fn items_of(
    alloc: Global,
    tokens: &[TokenKind],
    lines: &[u32],
) -> Result<Seq<WrittenItem>, ParseFault>
    requires same { length lines.now ≡ length tokens.now }
    requires few { length tokens.now < 2 ^ 31 }
    ensures { GivesItems result (items_at (whole_at item_at) (length tokens.now) tokens.now lines.now) }
{
    let mut items = Vec::new(alloc);
    let mut number = 0;
    let mut rest = tokens;
    let mut rest_lines = lines;
    while let Some((own, next)) = split_item(rest) {
        number += 1;
        let line = rest_lines[0];
        let body = match whole::<ItemLine>(alloc, own)? {
            None => return Err(outside(number, line)),
            Some(body) => body,
        };
        items.push(WrittenItem { line, body })?;
        rest = next;
        rest_lines = rest_lines.split_at(own.len()).1;
    }
    Ok(Seq::from_vec(items))
}

// The greatest number of bytes.
const FILE_LIMIT: usize = 1_048_576;

// Whether there are too many bytes.
#[tactic(auto, unfolding(crate::specs::Parsed::file_limit))]
fn is_too_long(bytes: &[u8]) -> bool
    ensures { result ≡ nat_lt file_limit (length bytes.now) }
{
    bytes.len() > FILE_LIMIT
}

// The fault of the lexer, with its line.
fn lexer_fault(bytes: &[u8], fault: LexFault) -> ParseFault
    ensures { FaultOf bytes.now fault result }
{
    match fault {
        LexFault::Refused { code, at } => ParseFault::Lexical {
            code,
            line: line_of(bytes, at),
        },
        LexFault::NoMemory => ParseFault::NoMemory,
    }
}

// What the bytes are.
fn read_file(alloc: Global, bytes: &[u8]) -> Result<Written, ParseFault>
    ensures { GivesParsed result (parsed bytes.now) }
{
    if is_too_long(bytes) {
        return Err(ParseFault::TooLong);
    }
    let tokens = match lex(alloc, bytes) {
        Ok(tokens) => tokens,
        Err(fault) => return Err(lexer_fault(bytes, fault)),
    };
    let (said, offsets) = kinds_and_starts(alloc, tokens)?;
    let lines = lines_of(alloc, bytes, offsets.as_slice())?;
    let items = items_of(alloc, said.as_slice(), &lines)?;
    Ok(Written { items })
}

/// The written file for which the bytes stand, or what is refused first: more than 1,048,576 bytes, then the first fault of
/// the lexer, then the first item that is outside the grammar. Memory may be refused at any file.
pub fn parse(alloc: Global, bytes: &[u8]) -> Result<Written, ParseFault>
    ensures file { IfOk result (λ file. IsFile file bytes.now × (length bytes.now ≤ file_limit)) }
    ensures refused { IfErr result (λ fault. IsParseFault fault bytes.now) }

    // The same, as a function of the bytes.
    ensures read { GivesParsed result (parsed bytes.now) }
{
    read_file(alloc, bytes)
}

/// A law of the definitions: all bytes are one written file, or one thing is refused first, never both, and `parsed` gives it.
/// The call does nothing.
pub fn parsed_is_exact(bytes: &[u8])
    ensures file { (file : WrittenData) → (IsFile file bytes.now × (length bytes.now ≤ file_limit)) ↔ (parsed bytes.now ≡ is_file file) }
    ensures syntax { (item line : ℕ) → (IsOutside item line bytes.now × (length bytes.now ≤ file_limit)) ↔ (parsed bytes.now ≡ outside item line) }
    ensures long { (file_limit < length bytes.now) ↔ (parsed bytes.now ≡ too_long) }
    ensures tokens { (code : LexCodeData) (line : ℕ) → (IsLexical code line bytes.now × (length bytes.now ≤ file_limit)) ↔ (parsed bytes.now ≡ lexical code line) }
{}
