//! Laws of the meaning of statements. Each is the contract of a function that does nothing.

ghost use Rattle.sr_exec_dml.specs.Inner.Laws.{NoRowsFit, RowsStayFit, FittingChangesKeepFit, StatementsChangesFit, RowsBecome, OthersStay, RowsAreThoseAfter, HoldsOneEach, ChangesDiffer, DifferencesChange};

/// Where each row of each table fits it and stands under its key, the same holds once the changes of a statement are applied. So
/// the condition of `exec` is met again by the next statement. Where there are no rows, it is met.
pub fn rows_stay_fitting()
    ensures none { NoRowsFit }
    ensures fit { RowsStayFit }
{}

/// Changes fit rows where each is at one key of a table that is there: what is held there is the row before, and the row after fits
/// there. Rows that fit stay fitting through such changes, also through those that are read; and a statement's changes are such.
pub fn changes_fit()
    ensures keep { FittingChangesKeepFit }
    ensures statements { StatementsChangesFit }
{}

/// What a statement changes: no key has two rows afterwards, each change is at a key at which the rows before and after differ,
/// with these rows, and each such key has its change.
pub fn changes_are_where_rows_differ()
    ensures one { HoldsOneEach }
    ensures each { ChangesDiffer }
    ensures whole { DifferencesChange }
{}

/// The rows with the changes of a statement applied are the rows that it leaves: in its table those after it, in others those before;
/// as one map, the rows with the entries after it in place of those of its table.
pub fn changes_make_the_rows_afterwards()
    ensures rows { RowsBecome }
    ensures others { OthersStay }
    ensures whole { RowsAreThoseAfter }
{}
