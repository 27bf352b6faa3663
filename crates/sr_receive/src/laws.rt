//! A law of passes. The function does nothing: it carries the law as its clause.

ghost use Rattle.std.specs.Prelude.{◌≡◌, List, []};
ghost use Rattle.sr_book.specs.Entries.{Name};
ghost use Rattle.sr_mail.specs.Reaching.{IsFar};
ghost use Rattle.sr_receive.specs.Acts.{ReceiveAct, PassState, stand_of, AreActs, IsAtRest};
ghost use Rattle.sr_receive_gather.specs.MessageFiles.{MessageFile as AMessageFile};
ghost use Rattle.sr_receive_gather.specs.Windows.{IsWholeOf};

/// A pass takes windows as far as they reach: what is received at its end is the greatest offset that is reached from the one at its beginning
/// by windows of which every byte came and which were neither torn nor dropped.
pub fn windows_are_taken_as_far_as_they_reach()
    ensures far { (publisher user : Name) (message_files : List AMessageFile) (first : PassState) (acts : List ReceiveAct) → first.left ≡ [] → AreActs publisher user message_files first acts
        → IsAtRest message_files (stand_of first acts) → IsFar (IsWholeOf message_files (stand_of first acts).dropped_windows) first.received (stand_of first acts).received }
{}
