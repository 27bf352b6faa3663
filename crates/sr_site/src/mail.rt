ghost use Rattle.std.specs.Prelude.{◌≡◌, ◌∷◌, ℕ, List, ◌≤◌, length, IsTrue, IfOk, IfSome, OnOk, IsErrOf, is_ok};
ghost use Rattle.std.specs.Option.{option_map};
ghost use Rattle.std.specs.Result.{result_map_both};
ghost use Rattle.sr_site.specs.Causes.{DiskStays, MailStays, Rose};
ghost use Rattle.sr_site.specs.Happenings.{attached, listed, fetched, sent, removed};
ghost use Rattle.sr_site.specs.Listings.{IsListing, Lists};
ghost use Rattle.sr_site.specs.declared.mail.MailFault.TheVariants.{Failed as failed_mail, Memory as no_memory};

use crate::disk::Disk;
use crate::held::Held;
use sr_base::{Name, Seq, Text};
use std::alloc::Global;

/// The names of the files in a folder.
#[derive(Drop)]
pub struct Listing {
    /// The first 65,536 names in byte order.
    pub names: Seq<Text>,
    /// There are others.
    pub more: bool,
}

/// Why a call of the mail gave nothing. After `Failed` the count of mail faults has risen.
#[derive(Clone, Copy, PartialEq, Eq)]
pub enum MailFault {
    Failed,
    Memory,
}

/// A folder of message files for each address. It belongs to nobody: files come, go and come back between the calls.
///
/// Each call happens, whether it succeeds or fails, with that outcome: a put or a removal that failed may have been done or not. Only a call
/// that answers `Failed` raises the count of mail faults: one that succeeds leaves it, and so does one that had no memory.
pub trait Mail: Held {
    /// The names of the files in the folder of `address`: none where there is no such folder, else the first 65,536 in byte order.
    fn list(&mut self, alloc: Global, address: &Name) -> Result<Listing, MailFault>
        ensures listing { IfOk result IsListing }
        ensures listed { IsTrue (Self.seen self.old).observable → (folder : List (List ℕ)) × ((Self.seen self.new).happened ≡ listed address.now folder result ∷ (Self.seen self.old).happened) × IfOk result (Lists folder) }
        ensures stays { MailStays (Self.seen self.old) (Self.seen self.new) }
        ensures steady { OnOk result ((Self.seen self.new).mail_faults ≡ (Self.seen self.old).mail_faults) }
        ensures short { IsErrOf result no_memory → (Self.seen self.new).mail_faults ≡ (Self.seen self.old).mail_faults }
        ensures cause { IsErrOf result failed_mail → Rose (Self.seen self.old).mail_faults (Self.seen self.new).mail_faults };

    /// At most `limit` first bytes of the file, or `None` where it is not there.
    fn fetch(
        &mut self,
        alloc: Global,
        address: &Name,
        name: &Text,
        limit: usize,
    ) -> Result<Option<Vec<u8>>, MailFault>
        ensures within { IfOk result (λ found. IfSome found (λ bytes. length bytes.items ≤ limit)) }
        ensures fetched { IsTrue (Self.seen self.old).observable → (Self.seen self.new).happened ≡ fetched address.now name.now limit (result_map_both (option_map (λ bytes. bytes.items)) (λ fault. fault) result) ∷ (Self.seen self.old).happened }
        ensures stays { MailStays (Self.seen self.old) (Self.seen self.new) }
        ensures steady { OnOk result ((Self.seen self.new).mail_faults ≡ (Self.seen self.old).mail_faults) }
        ensures short { IsErrOf result no_memory → (Self.seen self.new).mail_faults ≡ (Self.seen self.old).mail_faults }
        ensures cause { IsErrOf result failed_mail → Rose (Self.seen self.old).mail_faults (Self.seen self.new).mail_faults };

    /// Puts a file of these bytes into the folder of `address`, in place of one of this name. It is there whole or not at all.
    fn put(
        &mut self,
        alloc: Global,
        address: &Name,
        name: &Text,
        bytes: &[u8],
    ) -> Result<(), MailFault>
        ensures put { IsTrue (Self.seen self.old).observable → (Self.seen self.new).happened ≡ sent address.now name.now bytes.now (is_ok result) ∷ (Self.seen self.old).happened }
        ensures stays { MailStays (Self.seen self.old) (Self.seen self.new) }
        ensures steady { OnOk result ((Self.seen self.new).mail_faults ≡ (Self.seen self.old).mail_faults) }
        ensures short { IsErrOf result no_memory → (Self.seen self.new).mail_faults ≡ (Self.seen self.old).mail_faults }
        ensures cause { IsErrOf result failed_mail → Rose (Self.seen self.old).mail_faults (Self.seen self.new).mail_faults };

    /// Removes the file. That it is not there is no fault.
    fn remove(&mut self, alloc: Global, address: &Name, name: &Text) -> Result<(), MailFault>
        ensures removed { IsTrue (Self.seen self.old).observable → (Self.seen self.new).happened ≡ removed address.now name.now (is_ok result) ∷ (Self.seen self.old).happened }
        ensures stays { MailStays (Self.seen self.old) (Self.seen self.new) }
        ensures steady { OnOk result ((Self.seen self.new).mail_faults ≡ (Self.seen self.old).mail_faults) }
        ensures short { IsErrOf result no_memory → (Self.seen self.new).mail_faults ≡ (Self.seen self.old).mail_faults }
        ensures cause { IsErrOf result failed_mail → Rose (Self.seen self.old).mail_faults (Self.seen self.new).mail_faults };
}

/// A database's files and its mail, under one clock.
pub trait Site: Disk + Mail {
    /// Names the database's files and the mail folder, and asks for the files' lock. It changes no content. `Failed` raises the count of disk
    /// faults, and no other answer does. For a command without a mail folder `mail` is the empty text.
    fn attach(&mut self, alloc: Global, name: &Text, mail: &Text) -> Result<(), MailFault>
        ensures files { IsTrue (Self.seen self.old).observable → (Self.seen self.new).files ≡ (Self.seen self.old).files }
        ensures attached { IsTrue (Self.seen self.old).observable → (Self.seen self.new).happened ≡ attached name.now mail.now (is_ok result) ∷ (Self.seen self.old).happened }
        ensures stays { DiskStays (Self.seen self.old) (Self.seen self.new) }
        ensures steady { OnOk result ((Self.seen self.new).disk_faults ≡ (Self.seen self.old).disk_faults) }
        ensures short { IsErrOf result no_memory → (Self.seen self.new).disk_faults ≡ (Self.seen self.old).disk_faults }
        ensures cause { IsErrOf result failed_mail → Rose (Self.seen self.old).disk_faults (Self.seen self.new).disk_faults };
}
