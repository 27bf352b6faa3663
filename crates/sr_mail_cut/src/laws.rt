//! Laws of bodies and cuts. Each is the contract of a function that does nothing.

ghost use Rattle.std.specs.Prelude.{◌≡◌, ◌≤◌, ℕ, List, None};
ghost use Rattle.std.specs.List.{AllByRecursion};
ghost use Rattle.sr_base.specs.declared.offset.Offset.{Offset as Place};
ghost use Rattle.sr_logform.specs.declared.op.Transaction.{Transaction as ATransaction};
ghost use Rattle.sr_logform.specs.Ops.{IsTransaction};
ghost use Rattle.sr_mail_cut.specs.declared.head.Head.{Head as AHead};
ghost use Rattle.sr_mail_cut.specs.Bodies.{body_spelling, RisesPast, first_long};
ghost use Rattle.sr_mail_cut.specs.Cuts.{AreCut, file_length};
ghost use Rattle.sr_mail_cut.specs.Inner.Cuts.{CountsItsAsk, KeepRulesWithin};
ghost use Rattle.sr_mail_cut.specs.Truths.{IsTrueOf};
ghost use Rattle.sr_msgform.specs.declared.message.Message.{Message as AMessage};

/// No bytes are the body of two lists of transactions.
pub fn a_body_is_spelled_once()
    ensures { (a b : List ATransaction) → AllByRecursion IsTransaction a → AllByRecursion IsTransaction b → body_spelling a ≡ body_spelling b → a ≡ b }
{}

/// Of given transactions there is one cut, and only one, wherever a message has room for a byte.
pub fn there_is_one_cut()
    ensures once { (head : AHead) (prev : Place) (transactions : List ATransaction) (limit : ℕ) (one other : List AMessage) → AreCut head prev transactions limit one → AreCut head prev transactions limit other → one ≡ other }
    ensures there { (head : AHead) (prev : Place) (transactions : List ATransaction) (limit : ℕ) → file_length head 1 ≤ limit → (messages : List AMessage) × AreCut head prev transactions limit messages }
{}

/// Each message of a cut keeps the rules of messages, and its file has at most `limit` bytes.
pub fn a_cut_keeps_the_rules()
    ensures { (head : AHead) (prev : Place) (transactions : List ATransaction) (limit : ℕ) (messages : List AMessage) → CountsItsAsk head → limit ≤ 2097152 → RisesPast prev.0 transactions → first_long transactions ≡ None → AreCut head prev transactions limit messages → KeepRulesWithin limit messages }
{}

/// Each message of a cut is true of the transactions: it carries a part of those that lie in its window, and all of them where they are two or more.
pub fn a_cut_is_true()
    ensures { (head : AHead) (prev : Place) (transactions : List ATransaction) (limit : ℕ) (messages : List AMessage) → RisesPast prev.0 transactions → AreCut head prev transactions limit messages → AllByRecursion (IsTrueOf transactions) messages }
{}
