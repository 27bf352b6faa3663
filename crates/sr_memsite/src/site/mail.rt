ghost use Rattle.std.specs.Prelude.{◌≡◌, ◌≤◌, length, take, IsTrue, IfOk, IfSome, OnOk, OnErr, IsErrOf, is_err};
ghost use Rattle.std.specs.Option.{option_map};
ghost use Rattle.sr_site.specs.Listings.{IsListing, Lists};
ghost use Rattle.sr_site.specs.declared.mail.MailFault.TheVariants.{Failed as failed_mail, Memory as no_memory};
ghost use Rattle.sr_memsite_mail.specs.Folders.{place, file_at, after_put, after_remove};
ghost use Rattle.sr_memsite_mail.specs.Inner.Folders.{names_in};

use super::MemorySite;
use sr_base::{Name, Text};
use sr_memsite_mail::SharedMail;
use sr_site::{Listing, Mail, MailFault};
use std::alloc::{AllocError, Global};

impl Mail for MemorySite {
    ghost use Rattle.std.specs.Prelude.{◌≡◌, ◌≤◌, ◌∷◌, length, take, IsTrue, IfOk, IfSome, OnOk, OnErr, IsErrOf, is_ok, is_err};
    ghost use Rattle.std.specs.Option.{option_map};
    ghost use Rattle.std.specs.Result.{result_map_both};
    ghost use Rattle.sr_site.specs.Causes.{MailStays, Rose};
    ghost use Rattle.sr_site.specs.Happenings.{listed, fetched, sent, removed};
    ghost use Rattle.sr_site.specs.Listings.{IsListing, Lists};
    ghost use Rattle.sr_site.specs.declared.mail.MailFault.TheVariants.{Failed as failed_mail, Memory as no_memory};
    ghost use Rattle.sr_memsite.specs.Inner.Meaning.{seen_of, folders_of, numbering_of, wanted_of};
    ghost use Rattle.sr_memsite.specs.Inner.Numbering.{fails, counted};
    ghost use Rattle.sr_memsite_mail.specs.Folders.{place, file_at, after_put, after_remove};
    ghost use Rattle.sr_memsite_mail.specs.Inner.Folders.{names_in};

    fn list(&mut self, alloc: Global, address: &Name) -> Result<Listing, MailFault>
        ensures listing { IfOk result IsListing }
        ensures lists { IfOk result (Lists (names_in (folders_of self.old).files address.now)) }
        ensures folders { folders_of self.new ≡ folders_of self.old }
        ensures listed { (seen_of self.new).happened ≡ listed address.now (names_in (folders_of self.old).files address.now) result ∷ (seen_of self.old).happened }
        ensures stays { MailStays (seen_of self.old) (seen_of self.new) }
        ensures steady { OnOk result ((seen_of self.new).mail_faults ≡ (seen_of self.old).mail_faults) }
        ensures short { IsErrOf result no_memory → (seen_of self.new).mail_faults ≡ (seen_of self.old).mail_faults }
        ensures cause { IsErrOf result failed_mail → Rose (seen_of self.old).mail_faults (seen_of self.new).mail_faults }
        ensures fails { IsTrue (fails (numbering_of self.old)) → IsErrOf result failed_mail }
        ensures only { IsErrOf result failed_mail → IsTrue (fails (numbering_of self.old)) }
        ensures numbering { numbering_of self.new ≡ counted (numbering_of self.old) }
        ensures wanted { wanted_of self.new ≡ wanted_of self.old }
    {
        let fails = self.turns.next_fails();
        let answer = listing(&self.mail, alloc, address, fails);
        self.disk.note_list(address, &self.mail, &answer);
        self.count_mail(fails);
        answer
    }

    fn fetch(
        &mut self,
        alloc: Global,
        address: &Name,
        name: &Text,
        limit: usize,
    ) -> Result<Option<Vec<u8>>, MailFault>
        ensures found { IfOk result (λ found. option_map (λ bytes. bytes.items) found ≡ option_map (take limit) (file_at (folders_of self.old) (place address.now name.now))) }
        ensures within { IfOk result (λ found. IfSome found (λ bytes. length bytes.items ≤ limit)) }
        ensures folders { folders_of self.new ≡ folders_of self.old }
        ensures fetched { (seen_of self.new).happened ≡ fetched address.now name.now limit (result_map_both (option_map (λ bytes. bytes.items)) (λ fault. fault) result) ∷ (seen_of self.old).happened }
        ensures stays { MailStays (seen_of self.old) (seen_of self.new) }
        ensures steady { OnOk result ((seen_of self.new).mail_faults ≡ (seen_of self.old).mail_faults) }
        ensures short { IsErrOf result no_memory → (seen_of self.new).mail_faults ≡ (seen_of self.old).mail_faults }
        ensures cause { IsErrOf result failed_mail → Rose (seen_of self.old).mail_faults (seen_of self.new).mail_faults }
        ensures fails { IsTrue (fails (numbering_of self.old)) → IsErrOf result failed_mail }
        ensures only { IsErrOf result failed_mail → IsTrue (fails (numbering_of self.old)) }
        ensures numbering { numbering_of self.new ≡ counted (numbering_of self.old) }
        ensures wanted { wanted_of self.new ≡ wanted_of self.old }
    {
        let fails = self.turns.next_fails();
        let answer = found(&self.mail, alloc, address, name, limit, fails);
        self.disk.note_fetch(address, name, limit, &answer);
        self.count_mail(fails);
        answer
    }

    fn put(
        &mut self,
        alloc: Global,
        address: &Name,
        name: &Text,
        bytes: &[u8],
    ) -> Result<(), MailFault>
        ensures folders { OnOk result (folders_of self.new ≡ after_put (folders_of self.old) (place address.now name.now) bytes.now) }
        ensures folders_err { OnErr result (folders_of self.new ≡ folders_of self.old) }
        ensures put { (seen_of self.new).happened ≡ sent address.now name.now bytes.now (is_ok result) ∷ (seen_of self.old).happened }
        ensures stays { MailStays (seen_of self.old) (seen_of self.new) }
        ensures steady { OnOk result ((seen_of self.new).mail_faults ≡ (seen_of self.old).mail_faults) }
        ensures short { IsErrOf result no_memory → (seen_of self.new).mail_faults ≡ (seen_of self.old).mail_faults }
        ensures cause { IsErrOf result failed_mail → Rose (seen_of self.old).mail_faults (seen_of self.new).mail_faults }
        ensures fails { IsTrue (fails (numbering_of self.old)) → IsErrOf result failed_mail }
        ensures only { IsErrOf result failed_mail → IsTrue (fails (numbering_of self.old)) }
        ensures numbering { numbering_of self.new ≡ counted (numbering_of self.old) }
        ensures wanted { wanted_of self.new ≡ wanted_of self.old }
    {
        let fails = self.turns.next_fails();
        let answer = lay(&mut self.mail, alloc, address, name, bytes, fails);
        self.disk.note_put(address, name, bytes, answer.is_ok());
        self.count_mail(fails);
        answer
    }

    /// It takes no memory.
    fn remove(&mut self, _alloc: Global, address: &Name, name: &Text) -> Result<(), MailFault>
        ensures folders { OnOk result (folders_of self.new ≡ after_remove (folders_of self.old) (place address.now name.now)) }
        ensures folders_err { OnErr result (folders_of self.new ≡ folders_of self.old) }
        ensures removed { (seen_of self.new).happened ≡ removed address.now name.now (is_ok result) ∷ (seen_of self.old).happened }
        ensures stays { MailStays (seen_of self.old) (seen_of self.new) }
        ensures steady { OnOk result ((seen_of self.new).mail_faults ≡ (seen_of self.old).mail_faults) }
        ensures short { IsErrOf result no_memory → (seen_of self.new).mail_faults ≡ (seen_of self.old).mail_faults }
        ensures cause { IsErrOf result failed_mail → Rose (seen_of self.old).mail_faults (seen_of self.new).mail_faults }
        ensures exact { is_err result ≡ fails (numbering_of self.old) }
        ensures fails { IsTrue (fails (numbering_of self.old)) → IsErrOf result failed_mail }
        ensures only { IsErrOf result failed_mail → IsTrue (fails (numbering_of self.old)) }
        ensures numbering { numbering_of self.new ≡ counted (numbering_of self.old) }
        ensures wanted { wanted_of self.new ≡ wanted_of self.old }
    {
        let fails = self.turns.next_fails();
        let answer = take_away(&mut self.mail, address, name, fails);
        self.disk.note_remove(address, name, answer.is_ok());
        self.count_mail(fails);
        answer
    }
}

/// The names in a folder, where the call is not to fail.
fn listing(
    mail: &SharedMail,
    alloc: Global,
    address: &Name,
    fails: bool,
) -> Result<Listing, MailFault>
    ensures listing { IfOk result IsListing }
    ensures lists { IfOk result (Lists (names_in mail.now.files address.now)) }
    ensures fails { IsTrue fails → IsErrOf result failed_mail }
    ensures only { IsErrOf result failed_mail → IsTrue fails }
{
    if fails {
        return Err(MailFault::Failed);
    }
    mail.list(alloc, address).map_err(no_memory)
}

/// The front of a file, where the call is not to fail.
fn found(
    mail: &SharedMail,
    alloc: Global,
    address: &Name,
    name: &Text,
    limit: usize,
    fails: bool,
) -> Result<Option<Vec<u8>>, MailFault>
    ensures found { IfOk result (λ found. option_map (λ bytes. bytes.items) found ≡ option_map (take limit) (file_at mail.now (place address.now name.now))) }
    ensures within { IfOk result (λ found. IfSome found (λ bytes. length bytes.items ≤ limit)) }
    ensures fails { IsTrue fails → IsErrOf result failed_mail }
    ensures only { IsErrOf result failed_mail → IsTrue fails }
{
    if fails {
        return Err(MailFault::Failed);
    }
    mail.fetch(alloc, address, name, limit).map_err(no_memory)
}

/// Puts a file, where the call is not to fail.
fn lay(
    mail: &mut SharedMail,
    alloc: Global,
    address: &Name,
    name: &Text,
    bytes: &[u8],
    fails: bool,
) -> Result<(), MailFault>
    ensures ok { OnOk result (mail.new ≡ after_put mail.old (place address.now name.now) bytes.now) }
    ensures err { OnErr result (mail.new ≡ mail.old) }
    ensures fails { IsTrue fails → IsErrOf result failed_mail }
    ensures only { IsErrOf result failed_mail → IsTrue fails }
{
    if fails {
        return Err(MailFault::Failed);
    }
    mail.put(alloc, address, name, bytes).map_err(no_memory)
}

/// Takes a file away, where the call is not to fail.
fn take_away(
    mail: &mut SharedMail,
    address: &Name,
    name: &Text,
    fails: bool,
) -> Result<(), MailFault>
    ensures ok { OnOk result (mail.new ≡ after_remove mail.old (place address.now name.now)) }
    ensures err { OnErr result (mail.new ≡ mail.old) }
    ensures exact { is_err result ≡ fails }
    ensures fails { IsTrue fails → IsErrOf result failed_mail }
    ensures only { IsErrOf result failed_mail → IsTrue fails }
{
    if fails {
        return Err(MailFault::Failed);
    }
    mail.remove(address, name);
    Ok(())
}

/// The mail fault for want of memory.
fn no_memory(_: AllocError) -> MailFault
    ensures memory { result ≡ MailFault.Memory }
{
    MailFault::Memory
}
