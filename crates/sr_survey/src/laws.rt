//! What holds of surveys. Each function does nothing: it carries a law as its clauses.

ghost use Rattle.std.specs.Prelude.{◌≡◌, ◌⊎◌, ◌++◌, ◌∷◌, ◌≤◌, ◌<◌, ℕ, Bool, List, true, false, [], Option, Some, None};
ghost use Rattle.std.specs.List.{AllByRecursion, Contains};
ghost use Rattle.sr_ast.specs.declared.stmt.Stmt.{Stmt as Statement};
ghost use Rattle.sr_ast.specs.declared.stmt.Stmt.TheVariants as stmt;
ghost use Rattle.sr_base.specs.declared.offset.Offset.{Offset as Place};
ghost use Rattle.sr_base.specs.declared.value.Value.{Value as Cell};
ghost use Rattle.sr_book.specs.Entries.{Name as Bytes};
ghost use Rattle.sr_catalog_change.specs.Changes.{next};
ghost use Rattle.sr_catalog_schema.specs.Catalogs.{Lists};
ghost use Rattle.sr_catalog_schema.specs.declared.publication.Article.{Article as AnArticle};
ghost use Rattle.sr_catalog_schema.specs.declared.table.Table.{Table as ATable};
ghost use Rattle.sr_catalog_script_laws.specs.Scripts.{IsMadeByStatements};
ghost use Rattle.sr_database_history.specs.Fitting.{Fits, Stored};
ghost use Rattle.sr_database_history.specs.Folds.{State, state_of, end_of};
ghost use Rattle.sr_database_history.specs.Inner.Laws.{Holds};
ghost use Rattle.sr_database_history.specs.Recorded.{Recorded, entry_of};
ghost use Rattle.sr_exec_dml.specs.Statements.{table_named};
ghost use Rattle.sr_logform.specs.declared.change.Change.{Change as AChange};
ghost use Rattle.sr_logform.specs.declared.entry.Entry.{Entry as AnEntry};
ghost use Rattle.sr_logform.specs.declared.entry.Entry.TheVariants.{Own, From, Sync, Pass};
ghost use Rattle.sr_logform.specs.declared.op.Op.{Op as AnOp};
ghost use Rattle.sr_logform.specs.declared.outcome.Outcome.{Outcome as AnOutcome};
ghost use Rattle.sr_publish.specs.Inner.Laws.{holds_by};
ghost use Rattle.sr_publish.specs.SubscribedTables.{subscribed_table_of};
ghost use Rattle.sr_scan.specs.Given.{gives, given_of};
ghost use Rattle.sr_scan.specs.Inner.Images.{told, change_told, catalog_after};
ghost use Rattle.sr_scan.specs.Inner.Meanings.{texts_of, AreMeant};
ghost use Rattle.sr_survey.specs.Inner.Alike.{ShowsAlike, touched};
ghost use Rattle.sr_survey.specs.Inner.Concerning.{MayConcern};
ghost use Rattle.sr_survey.specs.Inner.Keyed.{article_key, keys_of, IsSharedKey};
ghost use Rattle.sr_survey.specs.Inner.Quiet.{GiveNothing, IsUnheld};
ghost use Rattle.sr_survey.specs.Inner.Following.{since_of};
ghost use Rattle.sr_survey.specs.Inner.Surveyed.{HasSurveyed, IsNext, IsBefore, IsToldNow, Begins, OfEach, Takes, place_of};
ghost use Rattle.sr_survey.specs.declared.survey.Survey.{Survey as ASurvey};
ghost use Rattle.sr_survey_brief.specs.Inner.Briefs.{IsBrief};
ghost use Rattle.sr_survey_places.specs.Inner.Listed.{under};
ghost use Rattle.sr_survey_places.specs.declared.key.Key.TheVariants as keyed;
ghost use Rattle.sr_survey_places.specs.declared.place.Place.{Place as Listed};

/// A survey that begins behind a history with its catalog knows of it what there is to know: nothing is listed, for nothing stands behind it.
pub fn a_survey_begins()
    ensures begins { (publisher : Bytes) (done : List Recorded) (base : Lists) (s : ASurvey) → Begins base (end_of done) s → base ≡ (state_of publisher done).catalog → HasSurveyed publisher done s }
{}

/// The survey of a history is one of the history with the entry more that it takes: of every user it lists each entry that gives him something, and shows
/// by its catalog what he was shown since. So it is whatever the history, if that may stand in a log.
pub fn a_survey_keeps_up()
    ensures kept { (publisher : Bytes) (done : List Recorded) (r : Recorded) (old new : ASurvey) → Stored publisher (done ++ r ∷ []) → HasSurveyed publisher done old
        → Takes old (entry_of r) (end_of (done ++ r ∷ [])) new → HasSurveyed publisher (done ++ r ∷ []) new }
{}

/// A survey that takes an entry in brief takes the entry.
pub fn a_brief_entry_is_taken_as_the_entry()
    ensures taken { (old new : ASurvey) (entry brief : AnEntry) (at : ℕ) → IsBrief entry brief → Takes old brief at new → Takes old entry at new }
{}

/// No entry that ends past an offset gives a user something, if it ends before the place that is next for him, or none is.
pub fn nothing_is_due_before_the_next()
    ensures due { (publisher user : Bytes) (es : List Recorded) (s : ASurvey) (sent : ℕ) (next : Option Listed) → HasSurveyed publisher es s → IsNext s user sent next
        → OfEach es s (λ first r. sent < end_of (first ++ r ∷ []) → IsBefore (end_of (first ++ r ∷ [])) next → gives (state_of publisher first) r user ≡ []) }
{}

/// What an entry gives a user is told by the catalog of now, where it begins no sooner than that shows him what he was shown then; and of a statement that
/// is passed on to him by any catalog, which is all that stands under his key of these.
pub fn what_is_given_is_told_by_the_catalog_of_now()
    ensures told { (publisher user : Bytes) (es : List Recorded) (s : ASurvey) (meant : List (Option Statement)) → Stored publisher es → HasSurveyed publisher es s
        → OfEach es s (λ first r. since_of s user ≤ end_of first → AreMeant (texts_of (entry_of r)) meant → IsToldNow publisher user s meant first r) }
    ensures named { (publisher user : Bytes) (es : List Recorded) (s : ASurvey) (meant : List (Option Statement)) → Stored publisher es → HasSurveyed publisher es s
        → OfEach es s (λ first r. Contains (under s.places.lists (keyed.Text user)) (place_of first r) → AreMeant (texts_of (entry_of r)) meant → IsToldNow publisher user s meant first r) }
{}

/// An entry that fits the state before it and is listed under no key of a user, or as taken from him, gives him nothing.
pub fn what_is_not_listed_gives_nothing()
    ensures listed { (s : State) (place : ℕ) (r : Recorded) (user : Bytes) (meant : List (Option Statement)) → Holds s → Fits s place r → AreMeant (texts_of (entry_of r)) meant
        → MayConcern s.catalog (entry_of r) user ⊎ (gives s r user ≡ []) }
{}

/// Entries that give a user nothing may be passed over: a history gives him with them what it gives him without.
pub fn what_gives_nothing_may_be_passed_over()
    ensures passed { (publisher user : Bytes) (done more : List Recorded) → GiveNothing (state_of publisher done) more user → given_of publisher (done ++ more) user ≡ given_of publisher done user }
{}

/// What a user has of each table stays over statements that do not touch him.
pub fn shares_stay()
    ensures stay { (c : Lists) (meant : List (Option Statement)) (user : Bytes) → touched user meant ≡ false → ShowsAlike c (catalog_after c meant) user }
{}

/// What entries give in which no statement ran is the same by two catalogs that show a user the same.
pub fn told_alike()
    ensures own { (c d : Lists) (user : Bytes) (changes : List AChange) → ShowsAlike c d user → told d (Own changes) [] user ≡ told c (Own changes) [] user }
    ensures view { (c d : Lists) (user to : Bytes) (tables : List (Bytes × List (List Cell))) → ShowsAlike c d user → told d (Sync to tables) [] user ≡ told c (Sync to tables) [] user }
    ensures pass { (c d : Lists) (user text : Bytes) (users : List Bytes) (only : Bool) (changes : List AChange) (meant : List (Option Statement)) → ShowsAlike c d user
        → told d (Pass users only text changes) meant user ≡ told c (Pass users only text changes) meant user }
    ensures taken { (c d : Lists) (user from : Bytes) (at : Place) (ops : List (AnOp × AnOutcome)) (meant : List (Option Statement)) → ShowsAlike c d user → AllByRecursion (λ m. m ≡ None) meant
        → told d (From from at ops) meant user ≡ told c (From from at ops) meant user }
{}

/// A change of rows that nobody holds for a user gives him nothing.
pub fn unheld_gives_nothing()
    ensures change { (c : Lists) (user : Bytes) (t : ATable) (ch : AChange) → IsMadeByStatements c → table_named c ch.table ≡ Some t → IsUnheld c user ch.table t ch.before → IsUnheld c user ch.table t ch.after
        → change_told (subscribed_table_of c user ch.table) ch ≡ [] }
{}

/// A row that an article holds for a subscription has a key of it.
pub fn held_rows_have_keys()
    ensures keyed { (p : Bytes) (t : ATable) (a : AnArticle) (value : Option Cell) (row : List Cell) → holds_by t (Some a) value row ≡ true → IsSharedKey (article_key t row (p, a)) (keys_of p value) }
{}
