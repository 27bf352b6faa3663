use crate::named::HasName;
use sr_base::{Copied, Name, NoMemory};
use std::alloc::Global;

/// A partner: above where it was granted CONSOLIDATE, below where it was granted REMOTE; its address names its folder.
#[derive(Drop)]
pub struct User {
    pub name: Name,
    pub above: bool,
    pub address: Name,
}

impl HasName for User {
    ghost name_of = { λ u. u.name };

    fn name(&self) -> &Name {
        &self.name
    }
}

impl Copied for User {
    fn copy(&self, alloc: Global) -> Result<User, NoMemory> {
        Ok(User {
            name: self.name.copy(alloc)?,
            above: self.above,
            address: self.address.copy(alloc)?,
        })
    }
}
