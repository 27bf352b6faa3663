//! Messages put as files, one after the other.

ghost use Rattle.std.specs.Prelude.{◌≡◌, ◌≤◌, ◌+◌, ◌∷◌, [], length, IfOk, IfErr, OnOk};
ghost use Rattle.std.specs.List.{AllByRecursion};
ghost use Rattle.sr_msgform.specs.Messages.{IsMessage, KeepsRules, message_length};
ghost use Rattle.sr_send.specs.PutFiles.{put_file, put_files};
ghost use Rattle.sr_send.specs.Posting.{IsSteady};
ghost use Rattle.sr_send.specs.Inner.Posting.{Posted};
ghost use Rattle.sr_send.specs.Inner.Stops.{IsPartPut, IsPartSent};

use crate::aim::Aim;
use crate::fault::SendFault;
use sr_base::Name;
use sr_mail_cut::file_name;
use sr_msgform::{Message, write_message};
use sr_site::Site;
use std::alloc::Global;

/// Puts a message into a folder, under its number.
fn put_one<S: Site>(
    alloc: Global,
    site: &mut S,
    address: &Name,
    number: u64,
    message: &Message,
) -> Result<(), SendFault>
    requires rules { KeepsRules message.now }
    requires file { message_length message.now ≤ 2097152 }
    ensures put { OnOk result (Posted (S.seen site.old) (S.seen site.new) (put_file address.now number message.now ∷ [])) }
    ensures spelled { OnOk result (IsMessage message.now) }
    ensures steady { OnOk result (IsSteady (S.seen site.old) (S.seen site.new)) }
    ensures cause { IfErr result (IsPartPut (S.seen site.old) (S.seen site.new) address.now number message.now) }
{
    let name = file_name(alloc, &message.from, number)?;
    let bytes = write_message(alloc, message)?;
    let outcome = site.put(alloc, address, &name, bytes.as_slice());
    drop(bytes);
    drop(name);
    match outcome {
        Ok(()) => Ok(()),
        Err(fault) => Err(SendFault::from(fault)),
    }
}

/// Puts messages one after the other, of which `put` were put before in this pass; answers how many were put with them.
pub(crate) fn put_all<S: Site>(
    alloc: Global,
    site: &mut S,
    aim: &Aim,
    put: u32,
    messages: &[Message],
) -> Result<u32, SendFault>
    requires each { AllByRecursion (λ m. KeepsRules m × (message_length m ≤ 2097152)) messages.now }
    ensures posted { OnOk result (Posted (S.seen site.old) (S.seen site.new) (put_files aim.now.address (aim.now.count + put) messages.now)) }
    ensures spelled { OnOk result (AllByRecursion IsMessage messages.now) }
    ensures count { IfOk result (λ total. total ≡ put + length messages.now) }
    ensures steady { OnOk result (IsSteady (S.seen site.old) (S.seen site.new)) }
    ensures cause { IfErr result (IsPartSent aim.now (aim.now.count + put) (S.seen site.old) (S.seen site.new) messages.now) }
{
    let mut total = put;
    let mut left = messages;
    'messages: while let Some((message, rest)) = left.split_first() {
        if total == u32::MAX {
            return Err(SendFault::Memory);
        }
        let next = total + 1;
        let number = aim.count.wrapping_add(u64::from(next));
        put_one(alloc, site, &aim.address, number, message)?;
        total = next;
        left = rest;
    }
    Ok(total)
}
