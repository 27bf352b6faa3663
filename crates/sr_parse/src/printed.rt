//! The statement that a text prints.

ghost use Rattle.std.specs.Prelude.{◌≡◌, ℕ, List, [], ◌∷◌, IfOk, IfSome, None};
ghost use Rattle.sr_ast.specs.Layout.{printed};
ghost use Rattle.sr_ast.specs.declared.stmt.Stmt.{Stmt as Statement};
ghost use Rattle.sr_parse.specs.Prints.{Prints};

use crate::parsing::parse;
use sr_ast::Stmt;
use sr_ast_print::print;
use sr_base::{Copied, NoMemory, Text};
use sr_parse_grammar::ParseFault;
use std::alloc::{AllocError, Global};

/// The statement in normal form whose printed text this is, and `None` where there is none: where the text is no script, is one of
/// several statements or of none, or spells its statement in another way than it prints.
///
/// A log keeps statements as the texts that they print, so this is how they are read back. It takes the time of reading the text, and of
/// printing and copying its statement.
pub fn printed_statement(alloc: Global, text: &Text) -> Result<Option<Stmt>, NoMemory>
    // What is answered prints so.
    ensures found { IfOk result (λ found. IfSome found (λ s. Prints s text.now)) }
    // Where none is answered, nothing in normal form prints so.
    ensures none { IfOk result (λ found. found ≡ None → (s : Statement) → ¬ (Prints s text.now)) }
{
    match parse(alloc, text) {
        Ok(script) => match one_of(script.as_slice()) {
            Some(stmt) => {
                let found = printing(alloc, stmt, text)?;
                Ok(found)
            }
            None => Ok(None),
        },
        Err(ParseFault::Refused { .. }) => Ok(None),
        Err(ParseFault::Memory) => Err(AllocError),
    }
}

/// The statement of a script of one.
fn one_of(script: &[Stmt]) -> Option<&Stmt>
    ensures one { IfSome result (λ stmt. script.now ≡ stmt.now ∷ []) }
    ensures none { result ≡ None → (s : Statement) → ¬ (script.now ≡ s ∷ []) }
{
    match script {
        [stmt] => Some(stmt),
        _ => None,
    }
}

/// A copy of the statement, where the text is the one that it prints.
fn printing(alloc: Global, stmt: &Stmt, text: &Text) -> Result<Option<Stmt>, NoMemory>
    ensures found { IfOk result (λ found. IfSome found (λ s. s ≡ stmt.now)) }
    ensures prints { IfOk result (λ found. IfSome found (λ _. printed stmt.now ≡ text.now)) }
    ensures none { IfOk result (λ found. found ≡ None → ¬ (printed stmt.now ≡ text.now)) }
{
    let again = print(alloc, stmt)?;
    if again.bytes() == text.bytes() {
        let copy = stmt.copy(alloc)?;
        Ok(Some(copy))
    } else {
        Ok(None)
    }
}

/// Printing loses nothing: a text is printed by one statement in normal form at most. This function does nothing when it runs: whoever calls
/// it may use its clause.
pub fn a_text_prints_one_statement()
    ensures once { (text : List ℕ) (s t : Statement) → Prints s text → Prints t text → s ≡ t }
{}
