//! What becomes of files on their way while the site stands over their folders, as somebody else may do it between two calls. No call of the
//! site happens by it.

use super::MemorySite;
use sr_base::{Name, NoMemory, Text};
use std::alloc::Global;

impl MemorySite {
    ghost use Rattle.std.specs.Prelude.{◌≡◌, IfOk, OnOk, OnErr, is_some};
    ghost use Rattle.sr_memsite.specs.Inner.Meaning.{seen_of, folders_of, numbering_of, wanted_of};
    ghost use Rattle.sr_memsite_mail.specs.Folders.{place, without_file, stored_file_at};
    ghost use Rattle.sr_memsite_mail.specs.Inner.Folders.{with_copy};

    /// Loses a file, held back or not. `false` says that there is no such file.
    pub fn lose(&mut self, address: &Name, name: &Text) -> bool
        ensures there { result ≡ is_some (stored_file_at (folders_of self.old) (place address.now name.now)) }
        ensures folders { folders_of self.new ≡ without_file (folders_of self.old) (place address.now name.now) }
        ensures seen { seen_of self.new ≡ seen_of self.old }
        ensures numbering { numbering_of self.new ≡ numbering_of self.old }
        ensures wanted { wanted_of self.new ≡ wanted_of self.old }
    {
        self.mail.lose(address, name)
    }

    /// Lays a copy of a file, held back or not, into its folder under another name, in place of one of that name. `false` says that there is no
    /// such file.
    pub fn repeat(
        &mut self,
        alloc: Global,
        address: &Name,
        name: &Text,
        as_name: &Text,
    ) -> Result<bool, NoMemory>
        ensures there { IfOk result (λ there. there ≡ is_some (stored_file_at (folders_of self.old) (place address.now name.now))) }
        ensures folders { OnOk result (folders_of self.new ≡ with_copy (folders_of self.old) (place address.now as_name.now) (stored_file_at (folders_of self.old) (place address.now name.now))) }
        ensures err { OnErr result (folders_of self.new ≡ folders_of self.old) }
        ensures seen { seen_of self.new ≡ seen_of self.old }
        ensures numbering { numbering_of self.new ≡ numbering_of self.old }
        ensures wanted { wanted_of self.new ≡ wanted_of self.old }
    {
        self.mail.repeat(alloc, address, name, as_name)
    }
}
