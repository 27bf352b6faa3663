ghost use Rattle.std.specs.Prelude.{◌≡◌, [], IfOk, OnOk, OnErr, length, take, nat_lt, is_some};
ghost use Rattle.std.specs.Option.{option_map, option_copied};
ghost use Rattle.sr_site.specs.Listings.{IsListing, Lists};
ghost use Rattle.sr_memsite_mail.specs.Folders.{place, without_file, stored_file_at, file_at, with_file, after_put, after_remove};
ghost use Rattle.sr_memsite_mail.specs.Inner.Folders.{with_copy, held_back, released, is_in, names_in};

use crate::file::MailFile;
use crate::place::{Place, Sought};
use sr_base::{Copied, Name, NoMemory, Seq, Text};
use sr_site::Listing;
use std::alloc::Global;
use std::collections::BTreeMap;
use std::marker::Model;

/// How many names a listing has at most.
const MOST_NAMES: usize = 65536;

/// The message files of all folders. It is handed from site to site, so that what one puts another one fetches.
#[derive(Drop)]
pub struct SharedMail {
    files: BTreeMap<Place, MailFile>,
    puts: Vec<(Name, Text)>,
}

impl Model for SharedMail {
    ghost use Rattle.sr_memsite_mail.specs.Folders.{Folders};

    ghost Value = { Folders };

    ghost view = { λ m. record { files = m.files.entries; puts = m.puts.items } };
}

impl SharedMail {
    /// No file in any folder, and no put so far. It takes no memory.
    pub fn new(alloc: Global) -> SharedMail
        ensures empty { result ≡ record { files = []; puts = [] } }
    {
        SharedMail {
            files: BTreeMap::new(alloc),
            puts: Vec::new(alloc),
        }
    }

    /// The address and the name of every put, the oldest first.
    pub fn puts(&self) -> &[(Name, Text)]
        ensures puts { result.now ≡ self.now.puts }
    {
        self.puts.as_slice()
    }

    /// The bytes of a file, or `None` where there is no such file to the mail.
    pub fn file(&self, address: &Name, name: &Text) -> Option<&[u8]>
        ensures file { option_copied result ≡ file_at self.now (place address.now name.now) }
    {
        match self.files.get(Sought { address, name }) {
            Some(file) => {
                if file.held() {
                    return None;
                }
                Some(file.bytes())
            }
            None => None,
        }
    }

    /// Lays a file into the folder of `address`, as something other than the program may do: it is no put.
    pub fn lay(
        &mut self,
        alloc: Global,
        address: &Name,
        name: &Text,
        bytes: Vec<u8>,
    ) -> Result<(), NoMemory>
        ensures ok { OnOk result (self.new ≡ with_file self.old (place address.now name.now) bytes.items) }
        ensures err { OnErr result (self.new ≡ self.old) }
    {
        let at = Place::of(alloc, address, name)?;
        self.files.insert(at, MailFile::of(bytes))?;
        Ok(())
    }

    /// Loses a file on its way, held back or not. `false` says that there is no such file.
    pub fn lose(&mut self, address: &Name, name: &Text) -> bool
        ensures there { result ≡ is_some (stored_file_at self.old (place address.now name.now)) }
        ensures lost { self.new ≡ without_file self.old (place address.now name.now) }
    {
        self.files.remove(Sought { address, name }).is_some()
    }

    /// Lays a copy of a file, held back or not, into its folder under another name, in place of one of that name: it is no put.
    /// `false` says that there is no such file.
    pub fn repeat(
        &mut self,
        alloc: Global,
        address: &Name,
        name: &Text,
        as_name: &Text,
    ) -> Result<bool, NoMemory>
        ensures there { IfOk result (λ there. there ≡ is_some (stored_file_at self.old (place address.now name.now))) }
        ensures repeated { OnOk result (self.new ≡ with_copy self.old (place address.now as_name.now) (stored_file_at self.old (place address.now name.now))) }
        ensures err { OnErr result (self.new ≡ self.old) }
    {
        let Some(file) = self.files.get(Sought { address, name }) else {
            return Ok(false);
        };
        let bytes = Vec::from_slice(alloc, file.bytes())?;
        let at = Place::of(alloc, address, as_name)?;
        self.files.insert(at, MailFile::of(bytes))?;
        Ok(true)
    }

    /// Holds a file back: to the mail it is not there until `release`, and one that is put under its name takes its place.
    /// `false` says that there is no such file; of one that is held back already it is `true`.
    pub fn hold(&mut self, address: &Name, name: &Text) -> bool
        ensures there { result ≡ is_some (stored_file_at self.old (place address.now name.now)) }
        ensures held { self.new ≡ held_back self.old (place address.now name.now) }
    {
        match self.files.get_mut(Sought { address, name }) {
            Some(file) => {
                file.hold();
                true
            }
            None => false,
        }
    }

    /// Holds no file back any more. It looks at each file once.
    pub fn release(&mut self)
        ensures released { self.new ≡ released self.old }
    {
        self.files.retain(|_, file| {
            file.let_go();
            true
        });
    }

    /// Lays a copy of `bytes` into the folder of `address`, and notes the put.
    pub fn put(
        &mut self,
        alloc: Global,
        address: &Name,
        name: &Text,
        bytes: &[u8],
    ) -> Result<(), NoMemory>
        ensures ok { OnOk result (self.new ≡ after_put self.old (place address.now name.now) bytes.now) }
        ensures err { OnErr result (self.new ≡ self.old) }
    {
        let at = Place::of(alloc, address, name)?;
        let note = noted(alloc, address, name)?;
        let bytes = Vec::from_slice(alloc, bytes)?;
        self.puts.push(note)?;
        match self.files.insert(at, MailFile::of(bytes)) {
            Ok(_) => Ok(()),
            Err(refused) => {
                self.puts.pop();
                Err(refused.into())
            }
        }
    }

    /// A copy of the first `limit` bytes of a file, or `None` where there is no such file to the mail.
    pub fn fetch(
        &self,
        alloc: Global,
        address: &Name,
        name: &Text,
        limit: usize,
    ) -> Result<Option<Vec<u8>>, NoMemory>
        ensures fetched { IfOk result (λ found. option_map (λ bytes. bytes.items) found ≡ option_map (take limit) (file_at self.now (place address.now name.now))) }
    {
        match self.file(address, name) {
            Some(bytes) => {
                let (prefix, _) = bytes.split_at(bytes.len().min(limit));
                Ok(Some(Vec::from_slice(alloc, prefix)?))
            }
            None => Ok(None),
        }
    }

    /// Takes a file away, where it is there to the mail.
    pub fn remove(&mut self, address: &Name, name: &Text)
        ensures removed { self.new ≡ after_remove self.old (place address.now name.now) }
    {
        if self.file(address, name).is_some() {
            self.files.remove(Sought { address, name });
        }
    }

    /// The names of the files in the folder of `address` that are not held back.
    pub fn list(&self, alloc: Global, address: &Name) -> Result<Listing, NoMemory>
        ensures listing { IfOk result IsListing }
        ensures lists { IfOk result (Lists (names_in self.now.files address.now)) }
    {
        let mut names = Vec::new(alloc);
        let mut more = false;
        'files: for (place, file) in self.files.iter() {
            if is_listed(place, file, address) {
                if names.len() < MOST_NAMES {
                    names.push(place.name.copy(alloc)?)?;
                } else {
                    more = true;
                }
            }
        }
        Ok(Listing {
            names: Seq::from_vec(names),
            more,
        })
    }
}

/// Whether a file lies in the folder of `address` and is not held back.
fn is_listed(place: &Place, file: &MailFile, address: &Name) -> bool
    ensures listed { result ≡ is_in address.now (place.now, file.now) }
{
    place.address.bytes().cmp(address.bytes()).is_eq() && !file.held()
}

/// The note of a put.
fn noted(alloc: Global, address: &Name, name: &Text) -> Result<(Name, Text), NoMemory>
    ensures note { IfOk result (λ note. note ≡ (address.now, name.now)) }
{
    Ok((address.copy(alloc)?, name.copy(alloc)?))
}
