//! Laws of what a script does. Each function does nothing: it carries a law as its clauses.

ghost use Rattle.std.specs.Prelude.{◌≡◌, ℕ, ◌+◌, List, [], ◌∷◌, ◌++◌};
ghost use Rattle.sr_ast.specs.declared.stmt.Stmt.{Stmt as Statement};
ghost use Rattle.sr_database_history.specs.Folds.{end_from};
ghost use Rattle.sr_session_script.specs.Acts.{ScriptAct, entries_of, text_from, end_behind};
ghost use Rattle.sr_session_script.specs.Meaning.{goes, stops, done_by};
ghost use Rattle.sr_session_script.specs.Scripts.{ran_from, last_acts, led, finished, refused};
ghost use Rattle.sr_session_script.specs.Works.{Work};
ghost use Rattle.sr_session_script.specs.declared.refusal.Refusal.{Refusal as Why};

/// Acts that follow one another: their entries and their lines do, and the later lines find the log's end where the earlier entries leave
/// it.
#[tactic(auto, using(crate::proofs::Joins::joining))]
pub fn acts_join()
    ensures entries { (acts more : List ScriptAct) → entries_of (acts ++ more) ≡ entries_of acts ++ entries_of more }
    ensures text { (place : ℕ) (acts more : List ScriptAct) → text_from place (acts ++ more) ≡ text_from place acts ++ text_from (end_behind place acts) more }
    ensures ends { (place : ℕ) (acts : List ScriptAct) → end_behind place acts ≡ end_from place (entries_of acts) }
{}

/// What a script does: of no statement, of one that is done and those behind it, and of one that is refused.
pub fn scripts_go_on()
    ensures nothing { (count : ℕ) (w : Work) → ran_from count w [] ≡ record { acts = last_acts w.pending; end = finished } }
    ensures goes { (count : ℕ) (w behind : Work) (s : Statement) (statements : List Statement) (acts : List ScriptAct) → done_by w s ≡ goes acts behind
        → ran_from count w (s ∷ statements) ≡ led acts (ran_from (count + 1) behind statements) }
    ensures stops { (count : ℕ) (w : Work) (s : Statement) (statements : List Statement) (acts : List ScriptAct) (fault : Why) → done_by w s ≡ stops acts fault
        → ran_from count w (s ∷ statements) ≡ record { acts = acts; end = refused (count + 1) fault } }
{}
