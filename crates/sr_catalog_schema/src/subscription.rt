use sr_base::{Copied, Name, NoMemory, Value};
use std::alloc::Global;

/// A subscription: the publication, the value where it has one, the user, and whether it was started.
#[derive(Drop)]
pub struct Subscription {
    pub publication: Name,
    pub value: Option<Value>,
    pub user: Name,
    pub started: bool,
}

impl Copied for Subscription {
    fn copy(&self, alloc: Global) -> Result<Subscription, NoMemory> {
        Ok(Subscription {
            publication: self.publication.copy(alloc)?,
            user: self.user.copy(alloc)?,
            value: self.value.copy(alloc)?,
            started: self.started,
        })
    }
}
