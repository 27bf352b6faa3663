//! A world of databases, and its steps.

ghost use Rattle.std.specs.Prelude.{◌≡◌, ◌<◌, ◌↔◌, [], ◌∷◌, ◌++◌, false, length, map, IfErr, IfOk, IsTrue, OnErr, OnOk, Ok, IfSome, None, Some, slice_get};
ghost use Rattle.sr_base.specs.Values.{offset_from};
ghost use Rattle.sr_base.specs.declared.offset.Offset.{Offset as Place};
ghost use Rattle.sr_book.specs.Entries.{Name as AName};
ghost use Rattle.sr_database_history.specs.Recorded.{Recorded};
ghost use Rattle.sr_logform.specs.Rules.{AreDistinct};
ghost use Rattle.sr_logform.specs.declared.entry.Entry.TheVariants.{Note as NoteEntry};
ghost use Rattle.sr_world_model.specs.Worlds.{World as AWorld, fresh_world, IsNamed};
ghost use Rattle.sr_world_steps.specs.declared.step.WorldStep.TheVariants as asked;
ghost use Rattle.sr_world_steps.specs.Inner.Acts.{HasStepped, IsRefusal, rule_of};
ghost use Rattle.sr_world_steps.specs.Inner.Due.{IsDue, IsFoundIn, IsMadeIn, IsPutDue, IsTookIn, TellsPutIn};
ghost use Rattle.sr_world_steps.specs.Inner.Places.{NoneIs, StandsAt, with_entry};
ghost use Rattle.sr_world_steps.specs.Inner.Shown.{IsShown, Shows};

use crate::commits::commit_end;
use crate::noting::note_end;
use crate::places::{History, found, push_entry};
use crate::putting::may_put;
use crate::sending::sent_end;
use crate::step::{NotAStep, WorldStep};
use crate::taking::take_end;
use sr_base::{Copied, Name, NoMemory, Offset, Seq};
use sr_book::Note;
use sr_logform::Entry;
use sr_msgform::Message;
use std::alloc::{AllocError, Global};
use std::marker::Model;

/// The numbers of the rules of steps.
const COMMIT: u8 = 1;

const TAKE: u8 = 2;

const NOTE: u8 = 3;

const SENT_NOTE: u8 = 4;

const PUT: u8 = 5;

const CRASH: u8 = 6;

/// A world of databases: the log of each, entry by entry with the offset at which it ends, and all messages that were ever put. Contracts see both
/// lists; there is always a good world that they show.
#[derive(Drop)]
pub struct World {
    histories: Vec<(Name, Seq<(Offset, Entry)>)>,
    messages: Vec<Message>,
}

impl Model for World {
    ghost use Rattle.sr_world_steps.specs.Inner.Shown.{IsShown, Shown};

    ghost Value = { Shown };

    ghost view = { λ w. record { histories = w.histories.items; messages = w.messages.items } };

    ghost invariant = { λ w. IsShown (record { histories = w.histories.items; messages = w.messages.items }) };
}

impl World {
    /// Databases of these names, of which none stands twice, without an entry, and no message.
    pub fn fresh(alloc: Global, names: &[Name]) -> Result<World, NoMemory>
        requires distinct { AreDistinct names.now }
        ensures fresh { IfOk result (λ world. Shows (fresh_world names.now) world) }
    {
        let histories = empty_histories(alloc, names)?;
        Ok(World {
            histories,
            messages: Vec::new(alloc),
        })
    }

    /// Each database with the entries of its log and the offsets at which they end, in the order of the names.
    pub fn histories(&self) -> &[(Name, Seq<(Offset, Entry)>)]
        ensures histories { result.now ≡ self.now.histories }
        ensures shown { IsShown self.now }
    {
        self.histories.as_slice()
    }

    /// All messages that were ever put, in order.
    pub fn messages(&self) -> &[Message]
        ensures messages { result.now ≡ self.now.messages }
        ensures shown { IsShown self.now }
    {
        self.messages.as_slice()
    }

    /// Makes a step, where the world allows it. Then the world behind it is good too, and untouched keys agree there. `Rule` comes exactly where the
    /// world does not allow the step, with the number of its rule. After a refusal all is as it was.
    ///
    /// A commit, a take, a note and a put go through the log of their database, each entry of it in the time of taking effect; a take also through that of
    /// the user, as a scanner does.
    #[tactic(auto, using(crate::proofs::Deciding::was_made, crate::proofs::Deciding::was_refused))]
    pub fn step(&mut self, alloc: Global, step: &WorldStep) -> Result<(), NotAStep>
        ensures stepped { (w : AWorld Recorded) → Shows w self.old → OnOk result (HasStepped w step.now self.new) }
        ensures refused { IfErr result (IsRefusal self.old step.now) }
        ensures same { OnErr result (self.new ≡ self.old) }
    {
        match self.make(alloc, step) {
            Ok(true) => Ok(()),
            Ok(false) => Err(NotAStep::Rule {
                rule: rule_of(step),
            }),
            Err(_) => Err(NotAStep::Memory),
        }
    }

    /// The place of the first database of a name, with its log.
    fn find(&self, at: &Name) -> Option<(usize, &[(Offset, Entry)])>
        ensures there { IfSome result (λ f. StandsAt at.now self.now.histories f.0 f.1.now) }
        ensures none { result ≡ None → NoneIs at.now self.now.histories }
        ensures shown { IsShown self.now }
    {
        found(self.histories.as_slice(), at)
    }

    /// The message at a place of all that were put.
    fn message_at(&self, place: usize) -> Option<&Message>
        ensures there { IfSome result (λ m. slice_get self.now.messages place ≡ Some m.now) }
        ensures none { result ≡ None → slice_get self.now.messages place ≡ None }
        ensures shown { IsShown self.now }
    {
        self.messages.as_slice().get(place)
    }

    /// Makes a step, where the world allows it; else `false`.
    fn make(&mut self, alloc: Global, step: &WorldStep) -> Result<bool, NoMemory>
        ensures made { IfOk result (IsMadeIn self.old step.now self.new) }
        ensures same { result ≡ Ok false → self.new ≡ self.old }
        ensures err { OnErr result (self.new ≡ self.old) }
    {
        match step {
            WorldStep::Commit { at, entry } => self.commit(alloc, at, entry),
            WorldStep::Take { at, user } => self.take(alloc, at, user),
            WorldStep::Note {
                at,
                user,
                note,
                message,
            } => self.note(alloc, at, user, note, *message),
            WorldStep::SentNote { at, user, note } => self.sent_note(alloc, at, user, note),
            WorldStep::Put { at, message } => self.put(alloc, at, message),
            WorldStep::Crash { at } => Ok(self.crash(at)),
        }
    }

    /// A commit.
    #[tactic(auto, using(crate::proofs::Deciding::some_due, crate::proofs::Deciding::none_made, crate::proofs::Deciding::entry_made))]
    fn commit(&mut self, alloc: Global, at: &Name, entry: &Entry) -> Result<bool, NoMemory>
        ensures made { IfOk result (IsMadeIn self.old (asked.Commit at.now entry.now) self.new) }
        ensures same { result ≡ Ok false → self.new ≡ self.old }
        ensures err { OnErr result (self.new ≡ self.old) }
    {
        let Some((place, end)) = self.committed(alloc, at, entry)? else {
            return Ok(false);
        };
        let entry = entry.copy(alloc)?;
        self.append(place, end, entry)?;
        Ok(true)
    }

    /// The place of the log to which a commit appends its entry, and where that ends.
    #[tactic(auto, using(crate::proofs::Deciding::commit_not_there, crate::proofs::Deciding::some_log, crate::proofs::Deciding::commit_none, crate::proofs::Deciding::commit_some))]
    fn committed(
        &self,
        alloc: Global,
        at: &Name,
        entry: &Entry,
    ) -> Result<Option<(usize, u64)>, NoMemory>
        ensures found { IfOk result (IsFoundIn self.now (asked.Commit at.now entry.now) at.now entry.now) }
        ensures shown { IsShown self.now }
    {
        let Some((place, log)) = self.find(at) else {
            return Ok(None);
        };
        let Some(end) = commit_end(alloc, at, log, entry)? else {
            return Ok(None);
        };
        Ok(Some((place, end)))
    }

    /// A take.
    #[tactic(auto, using(crate::proofs::Allowed::took_due, crate::proofs::Allowed::none_took, crate::proofs::Allowed::take_made))]
    fn take(&mut self, alloc: Global, at: &Name, user: &Name) -> Result<bool, NoMemory>
        ensures made { IfOk result (IsMadeIn self.old (asked.Take at.now user.now) self.new) }
        ensures same { result ≡ Ok false → self.new ≡ self.old }
        ensures err { OnErr result (self.new ≡ self.old) }
    {
        let Some((place, end, entry)) = self.taken(alloc, at, user)? else {
            return Ok(false);
        };
        self.append(place, end, entry)?;
        Ok(true)
    }

    /// The place of the log to which a take appends its entry, where that ends, and the entry. What the window has it reads from the log of the user, since
    /// the messages of a good world have nothing else.
    #[tactic(auto, using(crate::proofs::Allowed::took_not_there, crate::proofs::Allowed::took_of_nobody, crate::proofs::Deciding::some_log, crate::proofs::Deciding::some_lawful_log, crate::proofs::Allowed::took_none, crate::proofs::Allowed::took_some))]
    fn taken(
        &self,
        alloc: Global,
        at: &Name,
        user: &Name,
    ) -> Result<Option<(usize, u64, Entry)>, NoMemory>
        ensures found { IfOk result (IsTookIn self.now at.now user.now) }
        ensures shown { IsShown self.now }
    {
        let Some((place, log)) = self.find(at) else {
            return Ok(None);
        };
        let Some((_, theirs)) = self.find(user) else {
            return Ok(None);
        };
        let Some((end, entry)) = take_end(alloc, self.messages(), at, log, user, theirs)? else {
            return Ok(None);
        };
        Ok(Some((place, end, entry)))
    }

    /// A note.
    #[tactic(auto, using(crate::proofs::Deciding::some_due, crate::proofs::Deciding::none_made, crate::proofs::Deciding::entry_made))]
    fn note(
        &mut self,
        alloc: Global,
        at: &Name,
        user: &Name,
        note: &Note,
        message: usize,
    ) -> Result<bool, NoMemory>
        ensures made { IfOk result (IsMadeIn self.old (asked.Note at.now user.now note.now message) self.new) }
        ensures same { result ≡ Ok false → self.new ≡ self.old }
        ensures err { OnErr result (self.new ≡ self.old) }
    {
        let Some((place, end)) = self.noted(alloc, at, user, note, message)? else {
            return Ok(false);
        };
        let user = user.copy(alloc)?;
        let entry = Entry::Note { user, note: *note };
        self.append(place, end, entry)?;
        Ok(true)
    }

    /// The place of the log to which a note is appended, and where it ends.
    #[tactic(auto, using(crate::proofs::Deciding::no_message, crate::proofs::Deciding::note_not_there, crate::proofs::Deciding::some_log, crate::proofs::Deciding::note_none, crate::proofs::Deciding::note_some))]
    fn noted(
        &self,
        alloc: Global,
        at: &Name,
        user: &Name,
        note: &Note,
        message: usize,
    ) -> Result<Option<(usize, u64)>, NoMemory>
        ensures found { IfOk result (IsFoundIn self.now (asked.Note at.now user.now note.now message) at.now (NoteEntry user.now note.now)) }
        ensures shown { IsShown self.now }
    {
        let Some(message) = self.message_at(message) else {
            return Ok(None);
        };
        let Some((place, log)) = self.find(at) else {
            return Ok(None);
        };
        let Some(end) = note_end(alloc, at, log, user, note, message)? else {
            return Ok(None);
        };
        Ok(Some((place, end)))
    }

    /// A note of messages that were sent.
    #[tactic(auto, using(crate::proofs::Deciding::some_due, crate::proofs::Deciding::none_made, crate::proofs::Deciding::entry_made))]
    fn sent_note(
        &mut self,
        alloc: Global,
        at: &Name,
        user: &Name,
        note: &Note,
    ) -> Result<bool, NoMemory>
        ensures made { IfOk result (IsMadeIn self.old (asked.SentNote at.now user.now note.now) self.new) }
        ensures same { result ≡ Ok false → self.new ≡ self.old }
        ensures err { OnErr result (self.new ≡ self.old) }
    {
        let Some((place, end)) = self.sent(alloc, at, user, note)? else {
            return Ok(false);
        };
        let user = user.copy(alloc)?;
        let entry = Entry::Note { user, note: *note };
        self.append(place, end, entry)?;
        Ok(true)
    }

    /// The place of the log to which such a note is appended, and where it ends.
    #[tactic(auto, using(crate::proofs::Deciding::sent_not_there, crate::proofs::Deciding::some_log, crate::proofs::Deciding::sent_none, crate::proofs::Deciding::sent_some))]
    fn sent(
        &self,
        alloc: Global,
        at: &Name,
        user: &Name,
        note: &Note,
    ) -> Result<Option<(usize, u64)>, NoMemory>
        ensures found { IfOk result (IsFoundIn self.now (asked.SentNote at.now user.now note.now) at.now (NoteEntry user.now note.now)) }
        ensures shown { IsShown self.now }
    {
        let Some((place, log)) = self.find(at) else {
            return Ok(None);
        };
        let Some(end) = sent_end(alloc, self.messages(), at, log, user, note)? else {
            return Ok(None);
        };
        Ok(Some((place, end)))
    }

    /// Adds an entry to the log at a place. For want of memory all stays as it was.
    #[tactic(auto, using(crate::proofs::Deciding::due_within, crate::proofs::Deciding::due_shown))]
    fn append(&mut self, place: usize, end: u64, entry: Entry) -> Result<(), NoMemory>
        requires due { IsDue self.old entry place end }
        ensures ok { OnOk result (self.new ≡ record self.old { histories = with_entry place (offset_from end, entry) self.old.histories }) }
        ensures err { OnErr result (self.new ≡ self.old) }
    {
        push_entry(&mut self.histories, place, (Offset(end), entry))?;
        Ok(())
    }

    /// A put.
    #[tactic(auto, using(crate::proofs::Deciding::some_put, crate::proofs::Deciding::no_put, crate::proofs::Deciding::put_made))]
    fn put(&mut self, alloc: Global, at: &Name, message: &Message) -> Result<bool, NoMemory>
        ensures made { IfOk result (IsMadeIn self.old (asked.Put at.now message.now) self.new) }
        ensures same { result ≡ Ok false → self.new ≡ self.old }
        ensures err { OnErr result (self.new ≡ self.old) }
    {
        if !self.is_put(alloc, at, message)? {
            return Ok(false);
        }
        let message = message.copy(alloc)?;
        self.push_message(at, message)?;
        Ok(true)
    }

    /// Whether the world allows a put.
    #[tactic(auto, using(crate::proofs::Deciding::put_not_there, crate::proofs::Deciding::some_lawful_log, crate::proofs::Deciding::put_found))]
    fn is_put(&self, alloc: Global, at: &Name, message: &Message) -> Result<bool, NoMemory>
        ensures may { IfOk result (TellsPutIn self.now at.now message.now) }
        ensures shown { IsShown self.now }
    {
        let Some((_, log)) = self.find(at) else {
            return Ok(false);
        };
        let may = may_put(alloc, at, log, message)?;
        Ok(may)
    }

    /// Adds a message. For want of memory all stays as it was.
    fn push_message(&mut self, at: &Name, message: Message) -> Result<(), NoMemory>
        requires allowed { IsPutDue self.old at.now message }
        ensures ok { OnOk result (self.new ≡ record self.old { messages = self.old.messages ++ message ∷ [] }) }
        ensures err { OnErr result (self.new ≡ self.old) }
    {
        push_to(&mut self.messages, message)?;
        Ok(())
    }

    /// A crash: nothing changes. Whether the database is there.
    #[tactic(auto, using(crate::proofs::Deciding::crash_not_there, crate::proofs::Deciding::crash_made))]
    fn crash(&self, at: &Name) -> bool
        ensures made { IsMadeIn self.now (asked.Crash at.now) self.now result }
    {
        match self.find(at) {
            Some((_place, _log)) => true,
            None => false,
        }
    }
}

/// The number of a step's rule.
fn rule_of(step: &WorldStep) -> u8
    ensures rule { result ≡ rule_of step.now }
{
    match step {
        WorldStep::Commit { .. } => COMMIT,
        WorldStep::Take { .. } => TAKE,
        WorldStep::Note { .. } => NOTE,
        WorldStep::SentNote { .. } => SENT_NOTE,
        WorldStep::Put { .. } => PUT,
        WorldStep::Crash { .. } => CRASH,
    }
}

/// Adds a message behind all others. For want of memory all stays as it was.
fn push_to(messages: &mut Vec<Message>, message: Message) -> Result<(), NoMemory>
    ensures ok { OnOk result (messages.new.items ≡ messages.old.items ++ message ∷ []) }
    ensures err { OnErr result (messages.new.items ≡ messages.old.items) }
{
    match messages.push(message) {
        Ok(()) => Ok(()),
        Err(_) => Err(AllocError),
    }
}

/// Databases of these names without an entry.
fn empty_histories(alloc: Global, names: &[Name]) -> Result<Vec<History>, NoMemory>
    ensures empty { IfOk result (λ histories. histories.items ≡ map (λ name. (name, [])) names.now) }
{
    let mut histories = Vec::new(alloc);
    let mut left = names;
    'names: while let Some((name, rest)) = left.split_first() {
        let name = name.copy(alloc)?;
        push_empty(alloc, &mut histories, name)?;
        left = rest;
    }
    Ok(histories)
}

/// Adds a database without an entry.
fn push_empty(alloc: Global, histories: &mut Vec<History>, name: Name) -> Result<(), NoMemory>
    ensures pushed { OnOk result (histories.new.items ≡ histories.old.items ++ (name, []) ∷ []) }
{
    match histories.push((name, Seq::empty(alloc))) {
        Ok(()) => Ok(()),
        Err(_) => Err(AllocError),
    }
}
