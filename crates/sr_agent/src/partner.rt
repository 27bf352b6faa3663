ghost use Rattle.std.specs.Prelude.{◌≡◌, map, IfOk};
ghost use Rattle.sr_catalog_schema.specs.Members.{user_name};
ghost use Rattle.sr_agent.specs.Runs.{quiet};

use sr_base::{Copied, Name, NoMemory};
use sr_catalog::User;
use std::alloc::Global;

/// A partner as the send pass finds him: whether he is asked for what is missing.
#[derive(Drop)]
pub(crate) struct Partner {
    pub user: Name,
    pub ask: bool,
}

/// The names of users, in order.
pub(crate) fn names_of(alloc: Global, users: &[User]) -> Result<Vec<Name>, NoMemory>
    ensures names { IfOk result (λ names. names.items ≡ map user_name users.now) }
{
    let mut names = Vec::new(alloc);
    let mut left = users;
    'users: while let Some((user, rest)) = left.split_first() {
        names.push(user.name.copy(alloc)?)?;
        left = rest;
    }
    Ok(names)
}

/// Partners of whom nothing is asked.
pub(crate) fn quiet_partners(alloc: Global, names: &[Name]) -> Result<Vec<Partner>, NoMemory>
    ensures partners { IfOk result (λ partners. partners.items ≡ map quiet names.now) }
{
    let mut partners = Vec::new(alloc);
    let mut left = names;
    'names: while let Some((name, rest)) = left.split_first() {
        partners.push(Partner {
            user: name.copy(alloc)?,
            ask: false,
        })?;
        left = rest;
    }
    Ok(partners)
}
