//! The laws of the grammar. These functions do nothing when they run: each carries a law as its clauses, which whoever calls it may use.

ghost use Rattle.std.specs.Prelude.{◌≡◌, ℕ, List, [], ◌∷◌, Result};
ghost use Rattle.std.specs.List.{AllByRecursion};
ghost use Rattle.sr_ast.specs.Layout.{printed};
ghost use Rattle.sr_ast.specs.declared.stmt.Stmt.{Stmt as Statement};
ghost use Rattle.sr_parse_grammar.specs.Symbols.{Symbols};
ghost use Rattle.sr_parse_grammar.specs.Scripts.{IsScript};
ghost use Rattle.sr_parse_grammar.specs.Meanings.{IsWritten};
ghost use Rattle.sr_ast.specs.NormalForms.{IsNormal};
ghost use Rattle.sr_parse_grammar.specs.Inner.Faults.{IsRead, Answers};
ghost use Rattle.sr_parse_grammar.specs.declared.fault.ParseFault.{ParseFault as Fault};

/// The grammar is unambiguous: a text spells one script at most, and so do symbols.
pub fn a_text_spells_one_script()
    ensures once { (text : List ℕ) (s t : List Statement) → IsWritten text s → IsWritten text t → s ≡ t }
    ensures symbols { (symbols : Symbols) (s t : List Statement) → IsScript symbols s → IsScript symbols t → s ≡ t }
{}

/// What is printed is read so: the printed text of a statement in normal form spells that statement, and each statement of a
/// script is in normal form. So whatever answers the printed text of a statement of a script as `parse` does (its clause `read`) answers
/// that statement alone, or memory ended.
pub fn what_prints_is_read_so()
    ensures printed { (s : Statement) → IsNormal s → IsWritten (printed s) (s ∷ []) }
    ensures normal { (text : List ℕ) (script : List Statement) → IsWritten text script → AllByRecursion IsNormal script }
    ensures parsed { (text : List ℕ) (script : List Statement) → IsWritten text script
        → AllByRecursion (λ s. (answer : Result (List Statement) Fault) → IsRead (printed s) answer → Answers answer (s ∷ [])) script }
    ensures again { (text : List ℕ) (script : List Statement) → IsWritten text script → AllByRecursion (λ s. IsWritten (printed s) (s ∷ [])) script }
{}
