//! The partner mails of a bag, by their users.

ghost use Rattle.std.specs.Prelude.{◌≡◌, ◌<◌, ◌∷◌, [], ℕ, List, None, IfOk, IfSome, IfNone, OnOk, length, slice_index_or};
ghost use Rattle.std.specs.Borrow.{sem};
ghost use Rattle.sr_receive_gather.specs.Bags.{partner_mail_of, IsPlaceOf, Has};
ghost use Rattle.sr_receive_gather.specs.MessageFiles.{message_file};
ghost use Rattle.sr_receive_gather.specs.Gathers.{Extends};
ghost use Rattle.sr_receive_gather.specs.Inner.Lending.{LendsPartnerMail};

use crate::bag::{Bag, PartnerMail};
use sr_base::{Copied, Name, NoMemory, Text};
use sr_catalog::User;
use sr_msgform::Message;
use std::alloc::{AllocError, Global};

impl Bag {
    /// A bag with a partner mail for each user, in which nothing came.
    pub(crate) fn of(alloc: Global, users: &[User]) -> Result<Bag, NoMemory>
        ensures empty { IfOk result (λ bag. (user : List ℕ) → Has bag user [] []) }
    {
        let mut partner_mails = Vec::new(alloc);
        let mut left = users;
        'users: while let Some((user, rest)) = left.split_first() {
            let partner_mail = PartnerMail::of(alloc, &user.name)?;
            partner_mails.push(partner_mail)?;
            left = rest;
        }
        Ok(Bag { partner_mails })
    }

    /// A message file goes into the partner mail of its sender. It takes the time of looking through the partners.
    pub(crate) fn add(
        &mut self,
        alloc: Global,
        name: &Text,
        message: &Message,
    ) -> Result<(), NoMemory>
        ensures added { OnOk result (Extends self.old self.new (message_file name.now message.now ∷ [])) }
    {
        let Some(at) = place_of(self.partner_mails.as_slice(), &message.from) else {
            return Err(AllocError);
        };
        self.partner_mails[at].add(alloc, name, message)?;
        Ok(())
    }

    /// The place of a user's partner mail. It takes the time of looking through the partners.
    pub fn place(&self, user: &Name) -> Option<usize>
        ensures found { IfSome result (IsPlaceOf self.now user.now) }
        ensures none { IfNone result (partner_mail_of self.now user.now ≡ None) }
    {
        place_of(self.partner_mails.as_slice(), user)
    }

    /// The partner mail at a place, to be received from.
    pub fn partner_mail_mut(&mut self, at: usize) -> &mut PartnerMail
        requires { at < length self.old }
        ensures value { result.now ≡ slice_index_or self.old at result.now }
        ensures* writes_back { sem 𝓛 (LendsPartnerMail self.entry at result) }
    {
        &mut self.partner_mails[at]
    }
}

/// The place of a user's partner mail.
pub(crate) fn place_of(partner_mails: &[PartnerMail], user: &Name) -> Option<usize>
    ensures found { IfSome result (IsPlaceOf partner_mails.now user.now) }
    ensures none { IfNone result (partner_mail_of partner_mails.now user.now ≡ None) }
{
    let mut at = 0;
    let mut left = partner_mails;
    'partner_mails: while let Some((partner_mail, rest)) = left.split_first() {
        if partner_mail.user.bytes() == user.bytes() {
            return Some(at);
        }
        at += 1;
        left = rest;
    }
    None
}
