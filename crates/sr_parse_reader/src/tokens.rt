ghost use Rattle.std.specs.Prelude.{◌≡◌, ℕ, List, IfOk, reverse};
ghost use Rattle.sr_lex.specs.declared.token.Token.{Token};
ghost use Rattle.sr_lex.specs.Tokens.{IsTokens, NoTokenAt};
ghost use Rattle.sr_parse_grammar.specs.Meanings.{AreSymbols};
ghost use Rattle.sr_parse_grammar.specs.Places.{start_at};

use sr_lex::{LexFault, Lexer};
use sr_parse_grammar::{ParseFault, Symbol, symbol_of};
use std::alloc::Global;

/// What the tokens of a text mean, in the order in which a reader takes them: the last one first. No token is kept.
pub fn symbols(alloc: Global, text: &[u8]) -> Result<Vec<Symbol>, ParseFault>
    ensures found { IfOk result (λ symbols. (tokens : List Token) × IsTokens text.now tokens × AreSymbols text.now tokens (reverse symbols.items)) }
    ensures only { (tokens : List Token) (at : ℕ) → IsTokens text.now tokens → result ≡ Err (ParseFault.Refused at) → ⊥ }
    ensures refused { (at : ℕ) → result ≡ Err (ParseFault.Refused at) → NoTokenAt text.now at }
{
    let mut lexer = Lexer::new(text);
    let mut symbols = Vec::new(alloc);
    'tokens: while let Some(token) = lexer.next(alloc)? {
        let symbol = symbol_of(alloc, text, token)?;
        symbols.push(symbol)?;
    }
    symbols.reverse();
    Ok(symbols)
}

/// The first byte of the token that stands behind so many, or the text's length.
pub fn start_behind(alloc: Global, text: &[u8], count: usize) -> Result<usize, LexFault>
    ensures place { IfOk result (λ at. (tokens : List Token) → IsTokens text.now tokens → at ≡ start_at text.now tokens count) }
{
    let mut lexer = Lexer::new(text);
    let mut left = count;
    'tokens: while let Some(token) = lexer.next(alloc)? {
        if left == 0 {
            return Ok(token.start);
        }
        left -= 1;
    }
    Ok(text.len())
}
