//! Transactions cut into messages one by one.

ghost use Rattle.std.specs.Prelude.{◌≡◌, ◌+◌, ◌++◌, ◌≤◌, ◌<◌, false, IsTrue, List, [], ◌∷◌, length, IfOk, IfErr, OnOk, OnErr};
ghost use Rattle.sr_base.specs.declared.offset.Offset.{Offset as Place};
ghost use Rattle.sr_logform.specs.declared.op.Transaction.{Transaction as ATransaction};
ghost use Rattle.sr_logform.specs.Ops.{transaction_spelling};
ghost use Rattle.sr_logform.specs.Inner.Ops.{IsShortTransaction};
ghost use Rattle.sr_logform.specs.Limits.{longest_transaction};
ghost use Rattle.sr_mail_cut.specs.Cuts.{Cutting, HasGiven, AreCut, file_length};
ghost use Rattle.sr_mail_cut.specs.Inner.Cuts.{AreOfHeldAndParted, CutCause, messages_held, IsMessageLimit};
ghost use Rattle.sr_msgform.specs.declared.message.Message.{Message as AMessage};

use crate::encoded::Encoded;
use crate::encoding::encoded_of;
use crate::fragments::{Span, add_messages, message_of, room};
use crate::head::Head;
use crate::too_long::TooLong;
use sr_base::{Copied, NoMemory, Offset, Seq};
use sr_logform::{LONGEST_TRANSACTION, Transaction};
use sr_msgform::Message;
use std::alloc::Global;
use std::marker::Model;

/// Cuts transactions into messages as they come, and holds of them at most what one message carries.
///
/// The messages that all `push`es and a `finish` give, one after the other, are the one cut of the transactions that were pushed.
#[derive(Drop)]
pub struct Cutter {
    head: Head,
    /// The bytes that a message file may have.
    limit: u32,
    /// The window that is being filled begins here,
    prev: Offset,
    /// and ends here so far.
    upto: Offset,
    /// Its body so far.
    body: Vec<u8>,
}

impl Model for Cutter {
    ghost use Rattle.std.specs.Prelude.{◌≤◌, length};
    ghost use Rattle.sr_mail_cut.specs.Cuts.{Cutting, file_length};
    ghost use Rattle.sr_mail_cut.specs.Inner.Cuts.{IsMessageLimit};

    ghost Value = { Cutting };

    ghost view = { λ c. record { head = c.head; limit = c.limit; prev = c.prev; upto = c.upto; body = c.body.items } };

    ghost invariant = { λ c. IsMessageLimit c.limit × (file_length c.head (length c.body.items) ≤ c.limit) };
}

impl Cutter {
    /// A cutter of messages of at most `length` bytes whose first window begins at `prev`.
    pub fn new(alloc: Global, head: &Head, prev: Offset, length: u32) -> Result<Cutter, NoMemory>
        requires limit { IsMessageLimit length }
        ensures made { IfOk result (λ cutter. cutter ≡ record { head = head.now; limit = length; prev = prev; upto = prev; body = [] }) }
        ensures begins { IfOk result (λ cutter. HasGiven cutter prev [] []) }
    {
        Ok(Cutter {
            head: head.copy(alloc)?,
            limit: length,
            prev,
            upto: prev,
            body: Vec::new(alloc),
        })
    }

    /// The messages that this transaction closes. It takes a time linear in the transaction and in what they carry, and beside what is
    /// held and these messages hardly more memory than one fragment.
    ///
    /// `TooLong::Transaction { need }` comes exactly where its encoding is longer than 64 MiB; `need` is its number of bytes. After a
    /// refusal the cutter is unchanged.
    pub fn push(
        &mut self,
        alloc: Global,
        transaction: &Transaction,
    ) -> Result<Vec<Message>, TooLong>
        requires { IsShortTransaction transaction.now }
        ensures given { IfOk result (λ messages. (first : Place) (pushed : List ATransaction) (before : List AMessage) → HasGiven self.old first pushed before → HasGiven self.new first (pushed ++ transaction.now ∷ []) (before ++ messages.items)) }
        ensures fits { OnOk result (length (transaction_spelling transaction.now) ≤ longest_transaction) }
        ensures cause { IfErr result (CutCause (transaction.now ∷ [])) }
        ensures same { OnOk result ((self.new.head ≡ self.old.head) × (self.new.limit ≡ self.old.limit)) }
        ensures held { OnOk result (length self.new.body ≤ self.new.limit) }
        ensures err { OnErr result (self.new ≡ self.old) }
    {
        let encoded = encoded_of(alloc, transaction, self.room())?;
        let need = encoded.size()?;
        if need > LONGEST_TRANSACTION {
            return Err(TooLong::Transaction { need });
        }
        if !encoded.is_one() {
            return Ok(self.send(alloc, transaction.at, need as u32, encoded)?);
        }
        let bytes = encoded.into_bytes();
        if self.fits(bytes.len()) {
            self.join(transaction.at, bytes.as_slice())?;
            return Ok(Vec::new(alloc));
        }
        Ok(self.hold(alloc, transaction.at, bytes)?)
    }

    /// How many bytes a message carries.
    fn room(&self) -> u32
        ensures room { file_length self.now.head result ≡ self.now.limit }
        ensures some { 9000 ≤ result }
    {
        room(&self.head, self.limit)
    }

    /// Whether the message of what is held has room for so many bytes more.
    fn fits(&self, more: usize) -> bool
        ensures fits { IsTrue result → file_length self.now.head (length self.now.body + more) ≤ self.now.limit }
        ensures full { result ≡ false → self.now.limit < file_length self.now.head (length self.now.body + more) }
    {
        more <= room(&self.head, self.limit) as usize - self.body.len()
    }

    /// Takes an encoded transaction to what is held.
    fn join(&mut self, at: Offset, encoded: &[u8]) -> Result<(), NoMemory>
        requires { file_length self.old.head (length self.old.body + length encoded.now) ≤ self.old.limit }
        ensures ok { OnOk result (self.new ≡ record { head = self.old.head; limit = self.old.limit; prev = self.old.prev; upto = at; body = self.old.body ++ encoded.now }) }
        ensures err { OnErr result (self.new ≡ self.old) }
    {
        self.body.extend_from_slice(encoded)?;
        self.upto = at;
        Ok(())
    }

    /// The message of what is held; an encoded transaction is held in its place.
    fn hold(
        &mut self,
        alloc: Global,
        at: Offset,
        encoded: Vec<u8>,
    ) -> Result<Vec<Message>, NoMemory>
        requires { file_length self.old.head (length encoded.items) ≤ self.old.limit }
        ensures messages { IfOk result (λ messages. messages.items ≡ messages_held self.old.head self.old.prev self.old.upto self.old.body) }
        ensures ok { OnOk result (self.new ≡ record { head = self.old.head; limit = self.old.limit; prev = self.old.upto; upto = at; body = encoded.items }) }
        ensures err { OnErr result (self.new ≡ self.old) }
    {
        let mut messages = Vec::new(alloc);
        self.add_held(alloc, &mut messages)?;
        self.prev = self.upto;
        self.body = encoded;
        self.upto = at;
        Ok(messages)
    }

    /// The message of what is held, and those of an encoded transaction that does not fit one; nothing is held then.
    fn send(
        &mut self,
        alloc: Global,
        at: Offset,
        total: u32,
        encoded: Encoded,
    ) -> Result<Vec<Message>, NoMemory>
        requires some { 0 < total }
        requires total { total ≡ length encoded.bytes }
        requires room { file_length self.old.head encoded.room ≡ self.old.limit }
        ensures messages { IfOk result (λ messages. AreOfHeldAndParted self.old at total encoded.bytes messages.items) }
        ensures ok { OnOk result (self.new ≡ record { head = self.old.head; limit = self.old.limit; prev = at; upto = at; body = [] }) }
        ensures err { OnErr result (self.new ≡ self.old) }
    {
        let fragments = encoded.into_fragments()?;
        let mut messages = Vec::new(alloc);
        self.add_held(alloc, &mut messages)?;
        let span = Span {
            prev: self.upto,
            upto: at,
            total,
        };
        add_messages(alloc, &self.head, &span, fragments, &mut messages)?;
        self.prev = at;
        self.upto = at;
        self.body.clear();
        Ok(messages)
    }

    /// The messages of what is held, after which nothing is held and a new series begins; none where nothing is held. After want of
    /// memory the cutter is unchanged.
    pub fn finish(&mut self, alloc: Global) -> Result<Vec<Message>, NoMemory>
        ensures cut { IfOk result (λ messages. (first : Place) (pushed : List ATransaction) (before : List AMessage) → HasGiven self.old first pushed before → AreCut self.old.head first pushed self.old.limit (before ++ messages.items)) }
        ensures after { OnOk result (self.new ≡ record { head = self.old.head; limit = self.old.limit; prev = self.old.upto; upto = self.old.upto; body = [] }) }
        ensures begins { OnOk result (HasGiven self.new self.old.upto [] []) }
        ensures err { OnErr result (self.new ≡ self.old) }
    {
        let mut messages = Vec::new(alloc);
        self.add_held(alloc, &mut messages)?;
        self.prev = self.upto;
        self.body.clear();
        Ok(messages)
    }

    /// How many bytes of encoded transactions are held.
    pub fn held(&self) -> u32
        ensures held { result ≡ length self.now.body }
        ensures few { result ≤ self.now.limit }
    {
        self.body.len() as u32
    }

    /// Adds the message of what is held, if anything is.
    fn add_held(&self, alloc: Global, messages: &mut Vec<Message>) -> Result<(), NoMemory>
        ensures { OnOk result (messages.new.items ≡ messages.old.items ++ messages_held self.now.head self.now.prev self.now.upto self.now.body) }
    {
        if self.body.is_empty() {
            return Ok(());
        }
        let span = Span {
            prev: self.prev,
            upto: self.upto,
            total: self.body.len() as u32,
        };
        let body = Seq::from_vec(Vec::from_slice(alloc, self.body.as_slice())?);
        messages.push(message_of(alloc, &self.head, &span, 0, body)?)?;
        Ok(())
    }
}
