ghost use Rattle.std.specs.Prelude.{◌≡◌, ℕ, List, IfOk};
ghost use Rattle.sr_lex.specs.declared.token.Token.{Token};
ghost use Rattle.sr_lex.specs.Tokens.{IsTokens, NoTokenAt};
ghost use Rattle.sr_lex.specs.Inner.Faults.{IsLexed};

use crate::fault::LexFault;
use crate::lexer::Lexer;
use crate::token::Token;
use sr_base::Text;
use std::alloc::Global;

/// The tokens of `text`, in order.
///
/// A token is the longest that begins at its place. White space (space, tab, carriage return, line feed) and comments (from `--`
/// to the line's end) may stand before, between and after tokens. `NoToken { at }` is the first byte at which neither begins: a
/// byte of no token, the opening quote of a text that is never closed, the first digit of a number past 2^63, or the first byte
/// of a word of more than 64 bytes.
pub fn lex(alloc: Global, text: &Text) -> Result<Vec<Token>, LexFault>
    // What is answered are the tokens of the text.
    ensures found { IfOk result (λ tokens. IsTokens text.now tokens.items) }
    // No others are, and a text that has tokens is refused for want of memory alone.
    ensures only { (tokens : List Token) → IsTokens text.now tokens → IsLexed result tokens }
    // The other refusal comes where no token begins.
    ensures fault { (at : ℕ) → result ≡ Err (LexFault.NoToken at) → NoTokenAt text.now at }
{
    let mut lexer = Lexer::new(text.bytes());
    let mut tokens = Vec::new(alloc);
    'tokens: while let Some(token) = lexer.next(alloc)? {
        tokens.push(token)?;
    }
    Ok(tokens)
}
