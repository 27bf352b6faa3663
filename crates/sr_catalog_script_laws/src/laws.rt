//! Laws of the catalogs that accepted statements have made of a new one. Each is the contract of a function that does nothing.

ghost use Rattle.std.specs.Prelude.{◌≡◌, ℕ, List, Some, None};
ghost use Rattle.std.specs.List.{AllByRecursion};
ghost use Rattle.sr_ast.specs.NormalForms.{IsNormal};
ghost use Rattle.sr_ast.specs.declared.stmt.Stmt.{Stmt};
ghost use Rattle.sr_catalog_schema.specs.Catalogs.{Lists, nothing_but};
ghost use Rattle.sr_catalog_change.specs.Changes.{refusal, next};
ghost use Rattle.sr_catalog_script_laws.specs.Scripts.{statements, replayed, IsMadeByStatements, IsSpellable};

/// The statements of such a catalog are accepted by a new one, one after the other, and make it again.
#[tactic(auto, using(crate::proofs::Made::again))]
pub fn statements_make_it_again()
    ensures again { (c : Lists) → IsMadeByStatements c → replayed (nothing_but c.publisher) (statements c) ≡ Some c }
{}

/// A new catalog is one, and so is what an accepted statement makes of one.
#[tactic(auto, using(crate::proofs::Made::steps))]
pub fn accepted_statements_make_it()
    ensures new { (publisher : List ℕ) → IsMadeByStatements (nothing_but publisher) }
    ensures next { (c : Lists) (s : Stmt) → IsMadeByStatements c → refusal c s ≡ None → IsMadeByStatements (next c s) }
{}

/// A new catalog is one that statements in normal form have made, each accepted, and so is what an accepted statement in normal form makes of
/// one. Of such a catalog each statement of its script is in normal form, so that the text which it prints spells it.
pub fn statements_in_normal_form_make_it()
    ensures new { (publisher : List ℕ) → IsSpellable (nothing_but publisher) }
    ensures next { (c : Lists) (s : Stmt) → IsSpellable c → IsNormal s → refusal c s ≡ None → IsSpellable (next c s) }
    ensures normal { (c : Lists) → IsSpellable c → AllByRecursion IsNormal (statements c) }
{}
