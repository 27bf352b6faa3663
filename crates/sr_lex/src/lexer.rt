ghost use Rattle.std.specs.Prelude.{◌≡◌, ◌<◌, List, [], length, OnOk, OnErr, OnSome, IfOk, IfSome};
ghost use Rattle.sr_lex.specs.declared.token.Token.{Token};
ghost use Rattle.sr_lex.specs.Inner.Prefixes.{IsPrefix, Goes};

use crate::fault::LexFault;
use crate::gap::after_gap;
use crate::kind::token_at;
use crate::token::Token;
use std::alloc::Global;
use std::marker::Model;

/// A text from which the tokens are taken one after the other, none of them kept. Contracts see the text, and what is left of it.
#[derive(Drop)]
pub struct Lexer<'a> {
    text: &'a [u8],
    /// From the next token on.
    rest: &'a [u8],
}

impl<'a> Model for Lexer<'a> {
    ghost use Rattle.std.specs.Prelude.{◌≡◌, ℕ, ◌≤◌, List, length};
    ghost use Rattle.sr_lex.specs.Inner.Reading.{after_gap};

    ghost Value = { List ℕ × List ℕ };

    ghost view = { λ l. (l.text.now, l.rest.now) };

    ghost invariant = { λ l. (length l.rest.now ≤ length l.text.now) × (after_gap l.rest.now ≡ l.rest.now) };
}

impl<'a> Lexer<'a> {
    /// At the text's begin: no token was taken.
    pub fn new(text: &'a [u8]) -> Lexer<'a>
        ensures text { result.0 ≡ text.now }
        ensures begins { IsPrefix result [] }
    {
        Lexer {
            text,
            rest: after_gap(text),
        }
    }

    /// The next token, or none at the text's end. Refused is as `lex` refuses: where neither a token nor white space nor a comment
    /// begins. After a fault the lexer stands where it stood.
    pub fn next(&mut self, alloc: Global) -> Result<Option<Token>, LexFault>
        ensures text { self.new.0 ≡ self.old.0 }
        ensures goes { (done : List Token) → IsPrefix self.old done → Goes done self.new result }
        ensures shorter { IfOk result (λ found. OnSome found (length self.new.1 < length self.old.1)) }
        ensures kept { OnErr result (self.new ≡ self.old) }
    {
        if self.rest.is_empty() {
            return Ok(None);
        }
        let start = self.text.len() - self.rest.len();
        let Some((kind, length)) = token_at(alloc, self.rest)? else {
            return Err(LexFault::NoToken { at: start });
        };
        let end = start + length;
        let (_word, after) = self.rest.split_at(length);
        self.rest = after_gap(after);
        Ok(Some(Token { kind, start, end }))
    }
}
