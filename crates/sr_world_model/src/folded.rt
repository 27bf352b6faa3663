//! Histories that a machine folds.

ghost use Rattle.std.specs.Prelude.{◌≡◌, ◌↔◌, ℕ, ◌+◌, List, [], ◌∷◌, ◌++◌};
ghost use Rattle.sr_book.specs.Books.{new_book};
ghost use Rattle.sr_book.specs.Entries.{Name};
ghost use Rattle.sr_book.specs.Histories.{taken, book_from, book_of};
ghost use Rattle.sr_world_model.specs.Layers.{transaction, end_from};
ghost use Rattle.sr_world_model.specs.Inner.Layers.{Laws};
ghost use Rattle.sr_world_model.specs.Machines.{Machine, layers_of, state_from, state_of, given_from, lawful_from, lawful_by};
ghost use Rattle.sr_world_model.specs.Inner.Machines.{StepLaws, GrantLaws};

use crate::below::StepRules;

/// Where a machine that reads one entry after the other keeps the laws of a step, its folds keep the laws of whole histories.
pub fn has_laws<F: StepRules>()
    ensures { (m : Machine F.State F.Entry F.Ops) → StepLaws m F.HasSpelling F.Fits F.Holds → Laws (layers_of m) F.HasSpelling (lawful_by m F.Fits) }
{}

/// The state: that before, of no entry; one step further with one entry more; of two histories joined, that of the second from
/// where the first ends.
pub fn state_grows<F: StepRules>()
    ensures nothing { (m : Machine F.State F.Entry F.Ops) (s : F.State) → state_from m s [] ≡ s }
    ensures one_more { (m : Machine F.State F.Entry F.Ops) (s : F.State) (es : List F.Entry) (e : F.Entry) →
        state_from m s (es ++ e ∷ []) ≡ m.next (state_from m s es) e }
    ensures joined { (m : Machine F.State F.Entry F.Ops) (s : F.State) (es fs : List F.Entry) →
        state_from m s (es ++ fs) ≡ state_from m (state_from m s es) fs }
{}

/// Lawful: no entry is; with one entry more exactly where the shorter history is and the entry fits behind it; two histories joined
/// exactly where the first is, and the second from where the first ends. What holds of the first state holds of each on the way.
pub fn lawful_grows<F: StepRules>()
    ensures nothing { (m : Machine F.State F.Entry F.Ops) (s : F.State) (place : ℕ) → lawful_from m F.Fits s place [] }
    ensures one_more { (m : Machine F.State F.Entry F.Ops) (s : F.State) (place : ℕ) (es : List F.Entry) (e : F.Entry) →
        lawful_from m F.Fits s place (es ++ e ∷ [])
        ↔ (lawful_from m F.Fits s place es × F.Fits (state_from m s es) (end_from (layers_of m) place es) e) }
    ensures joined { (m : Machine F.State F.Entry F.Ops) (s : F.State) (place : ℕ) (es fs : List F.Entry) →
        lawful_from m F.Fits s place (es ++ fs)
        ↔ (lawful_from m F.Fits s place es × lawful_from m F.Fits (state_from m s es) (end_from (layers_of m) place es) fs) }
    ensures holds { (m : Machine F.State F.Entry F.Ops) (laws : StepLaws m F.HasSpelling F.Fits F.Holds) (s : F.State) (place : ℕ)
        (es : List F.Entry) → F.Holds s → lawful_from m F.Fits s place es → F.Holds (state_from m s es) }
{}

/// Given: nothing of no entry; with one entry more what that entry gives, by the state before it and at its end; of two histories
/// joined what the first gives, and then what the second gives from where the first ends.
pub fn given_grows<F: StepRules>()
    ensures nothing { (m : Machine F.State F.Entry F.Ops) (s : F.State) (place : ℕ) (user : Name) →
        given_from m s place user [] ≡ [] }
    ensures one_more { (m : Machine F.State F.Entry F.Ops) (s : F.State) (place : ℕ) (user : Name) (es : List F.Entry) (e : F.Entry) →
        given_from m s place user (es ++ e ∷ []) ≡ given_from m s place user es
        ++ transaction (end_from (layers_of m) place (es ++ e ∷ [])) (m.gives (state_from m s es) e user) }
    ensures joined { (m : Machine F.State F.Entry F.Ops) (s : F.State) (place : ℕ) (user : Name) (es fs : List F.Entry) →
        given_from m s place user (es ++ fs) ≡ given_from m s place user es
        ++ given_from m (state_from m s es) (end_from (layers_of m) place es) user fs }
{}

/// Where entries from a user and notes of it stand behind its grant, a book that is folded from the beginning of a lawful history is
/// the book of eight zeros at the grant, changed by what comes later; and nothing was taken before it.
pub fn books_begin_at_grants<F: StepRules>()
    ensures book { (m : Machine F.State F.Entry F.Ops) (laws : GrantLaws m F.Fits F.Knows) (d user : Name) (es more : List F.Entry) →
        lawful_by m F.Fits d es → ¬ (F.Knows (state_of m d es) user) →
        book_of m.sees user (es ++ more) ≡ book_from m.sees user new_book more }
    ensures taken { (m : Machine F.State F.Entry F.Ops) (laws : GrantLaws m F.Fits F.Knows) (d user : Name) (es more : List F.Entry) →
        lawful_by m F.Fits d es → ¬ (F.Knows (state_of m d es) user) →
        taken m.sees user (es ++ more) ≡ taken m.sees user more }
{}
