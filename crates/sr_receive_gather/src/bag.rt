//! What is kept of the mail.

ghost use Rattle.std.specs.Prelude.{◌≡◌, ◌++◌, ◌∷◌, [], IfOk, OnOk};
ghost use Rattle.sr_mail.specs.Inboxes.{is_dropped};
ghost use Rattle.sr_mail.specs.Inner.Inboxes.{Adds};
ghost use Rattle.sr_mail.specs.Seen.{piece_of};
ghost use Rattle.sr_mail.specs.declared.window.Window.{Window as AWindow};
ghost use Rattle.sr_receive_gather.specs.Bags.{filed_of, IsPartnerMail};

use sr_base::{Copied, Name, NoMemory, Offset, Text};
use sr_mail::Inbox;
use sr_msgform::Message;
use std::alloc::Global;
use std::marker::Model;

/// A message file: its name, the end of its window, and what it confirms and asks for.
#[derive(Drop)]
pub struct Filed {
    pub(crate) name: Text,
    pub(crate) upto: Offset,
    pub(crate) confirm: Offset,
    pub(crate) ask_count: u64,
    pub(crate) ask_offset: Offset,
}

/// What came from one partner.
#[derive(Drop)]
pub struct PartnerMail {
    pub user: Name,
    pub inbox: Inbox,
    pub files: Vec<Filed>,
}

/// What came from each partner. The bodies of messages are not kept: their files are fetched again when their window is taken.
#[derive(Drop)]
pub struct Bag {
    pub(crate) partner_mails: Vec<PartnerMail>,
}

impl Model for Bag {
    ghost use Rattle.std.specs.Prelude.{List};
    ghost use Rattle.sr_receive_gather.specs.declared.bag.PartnerMail.{PartnerMail as APartnerMail};

    ghost Value = { List APartnerMail };

    ghost view = { λ b. b.partner_mails.items };
}

impl PartnerMail {
    /// Nothing came from a user.
    pub fn of(alloc: Global, user: &Name) -> Result<PartnerMail, NoMemory>
        ensures user { IfOk result (λ partner_mail. partner_mail.user ≡ user.now) }
        ensures empty { IfOk result (IsPartnerMail [] []) }
    {
        Ok(PartnerMail {
            user: user.copy(alloc)?,
            inbox: Inbox::new(alloc),
            files: Vec::new(alloc),
        })
    }

    /// A message file comes.
    pub(crate) fn add(
        &mut self,
        alloc: Global,
        name: &Text,
        message: &Message,
    ) -> Result<(), NoMemory>
        ensures user { self.new.user ≡ self.old.user }
        ensures files { OnOk result (self.new.files.items ≡ self.old.files.items ++ filed_of (name.now, message.now) ∷ []) }
        ensures inbox { OnOk result (Adds self.old.inbox (piece_of name.now message.now) self.new.inbox) }
        ensures dropped { OnOk result ((w : AWindow) → is_dropped self.new.inbox w ≡ is_dropped self.old.inbox w) }
    {
        let file = kept_of(alloc, name, message)?;
        let kept = name.copy(alloc)?;
        self.files.push(file)?;
        self.inbox.add(alloc, kept, message)?;
        Ok(())
    }
}

/// What is kept of a message file beside its piece.
fn kept_of(alloc: Global, name: &Text, message: &Message) -> Result<Filed, NoMemory>
    ensures { IfOk result (λ filed. filed ≡ filed_of (name.now, message.now)) }
{
    Ok(Filed {
        name: name.copy(alloc)?,
        upto: message.upto,
        confirm: message.confirm,
        ask_count: message.ask_count,
        ask_offset: message.ask_offset,
    })
}
