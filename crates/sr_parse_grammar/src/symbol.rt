ghost use Rattle.std.specs.Prelude.{◌≡◌, ◌≤◌, length, slice_range, IfOk, IfSome, None};
ghost use Rattle.sr_parse_grammar.specs.Meanings.{sign_text, IsNoSign, IsSpan, IsWordSymbol, IsSymbol};

use crate::keyword::keyword_of;
use sr_ast::Keyword;
use sr_base::{BadName, Name, NoMemory, Text, name_of};
use sr_lex::{Token, TokenKind};
use std::alloc::{AllocError, Global};

/// A sign of the grammar.
#[derive(Clone, Copy, PartialEq, Eq)]
pub enum Sign {
    Open,
    Close,
    Comma,
    Semicolon,
    Dot,
    Plus,
    Minus,
    Times,
    Equal,
    Unequal,
    Less,
    AtMost,
    Greater,
    AtLeast,
}

/// The signs.
const SIGNS: [Sign; 14] = [
    Sign::Open,
    Sign::Close,
    Sign::Comma,
    Sign::Semicolon,
    Sign::Dot,
    Sign::Plus,
    Sign::Minus,
    Sign::Times,
    Sign::Equal,
    Sign::Unequal,
    Sign::Less,
    Sign::AtMost,
    Sign::Greater,
    Sign::AtLeast,
];

/// What a token means to the grammar.
#[derive(Drop)]
pub enum Symbol {
    Keyword(Keyword),
    Name(Name),
    Number(i64),
    TopNumber,
    Text(Text),
    Sign(Sign),
    /// A token that is none of these.
    Other,
}

/// What a token of the text means.
pub fn symbol_of(alloc: Global, text: &[u8], token: Token) -> Result<Symbol, NoMemory>
    ensures found { IfOk result (λ symbol. IsSymbol text.now token symbol) }
{
    let Token { kind, start, end } = token;
    let bytes = slice(text, start, end);
    match kind {
        TokenKind::Word => {
            let symbol = word_of(alloc, bytes)?;
            Ok(symbol)
        }
        TokenKind::Number(number) => Ok(Symbol::Number(number)),
        TokenKind::TopNumber => Ok(Symbol::TopNumber),
        TokenKind::Str(text) => Ok(Symbol::Text(text)),
        TokenKind::Sign => match sign_of(bytes) {
            Some(sign) => Ok(Symbol::Sign(sign)),
            None => Ok(Symbol::Other),
        },
    }
}

fn slice(text: &[u8], start: usize, end: usize) -> &[u8]
    ensures span { IsSpan text.now start end result.now }
{
    if start <= end && end <= text.len() {
        &text[start..end]
    } else {
        &[]
    }
}

fn word_of(alloc: Global, word: &[u8]) -> Result<Symbol, NoMemory>
    ensures found { IfOk result (λ symbol. IsWordSymbol word.now symbol) }
{
    match keyword_of(word) {
        Some(keyword) => Ok(Symbol::Keyword(keyword)),
        None => match name_of(alloc, word) {
            Ok(name) => Ok(Symbol::Name(name)),
            Err(BadName::NotAName) => Ok(Symbol::Other),
            Err(BadName::Memory) => Err(AllocError),
        },
    }
}

/// The sign that bytes are.
fn sign_of(bytes: &[u8]) -> Option<Sign>
    ensures found { IfSome result (λ sign. bytes.now ≡ sign_text sign) }
    ensures none { result ≡ None → IsNoSign bytes.now }
{
    let mut rest = SIGNS.as_slice();
    'signs: while let Some((sign, after)) = rest.split_first() {
        if bytes == written(*sign) {
            return Some(*sign);
        }
        rest = after;
    }
    None
}

/// How a sign is spelled.
fn written(sign: Sign) -> &'static [u8]
    ensures text { result.now ≡ sign_text sign }
{
    match sign {
        Sign::Open => b"(",
        Sign::Close => b")",
        Sign::Comma => b",",
        Sign::Semicolon => b";",
        Sign::Dot => b".",
        Sign::Plus => b"+",
        Sign::Minus => b"-",
        Sign::Times => b"*",
        Sign::Equal => b"=",
        Sign::Unequal => b"<>",
        Sign::Less => b"<",
        Sign::AtMost => b"<=",
        Sign::Greater => b">",
        Sign::AtLeast => b">=",
    }
}
