//! That a catalog's script is read back. The function does nothing: it carries the laws as its clauses.

ghost use Rattle.std.specs.Prelude.{◌≡◌, ℕ, List, [], ◌∷◌, Some, None};
ghost use Rattle.std.specs.List.{AllByRecursion};
ghost use Rattle.sr_ast.specs.Layout.{printed};
ghost use Rattle.sr_ast.specs.declared.stmt.Stmt.{Stmt as Statement};
ghost use Rattle.sr_book.specs.Entries.{Name};
ghost use Rattle.sr_catalog_change.specs.Changes.{next, refusal};
ghost use Rattle.sr_parse_grammar.specs.Meanings.{IsWritten};
ghost use Rattle.sr_ast.specs.NormalForms.{IsNormal};
ghost use Rattle.sr_database_history.specs.Fitting.{Stored};
ghost use Rattle.sr_database_history.specs.Folds.{state_of};
ghost use Rattle.sr_database_history.specs.Recorded.{Recorded};
ghost use Rattle.sr_catalog_script_laws.specs.Scripts.{replayed, statements, IsSpellable};
ghost use Rattle.sr_catalog_schema.specs.Catalogs.{Lists, nothing_but};

/// Of a catalog that accepted statements in normal form have made of a new one, each statement of its script is in normal form, so the text that
/// it prints spells it alone; and a new catalog accepts them, one after the other, and they make it again. A new catalog is such a one, and so is what
/// an accepted statement in normal form makes of one; so is the catalog of each history that may stand in a log.
pub fn scripts_are_read_back()
    ensures new { (publisher : List ℕ) → IsSpellable (nothing_but publisher) }
    ensures next { (c : Lists) (s : Statement) → IsSpellable c → IsNormal s → refusal c s ≡ None → IsSpellable (next c s) }
    ensures stored { (publisher : Name) (rs : List Recorded) → Stored publisher rs → IsSpellable (state_of publisher rs).catalog }
    ensures normal { (c : Lists) → IsSpellable c → AllByRecursion IsNormal (statements c) }
    ensures written { (c : Lists) → IsSpellable c → AllByRecursion (λ s. IsWritten (printed s) (s ∷ [])) (statements c) }
    ensures again { (c : Lists) → IsSpellable c → replayed (nothing_but c.publisher) (statements c) ≡ Some c }
{}
