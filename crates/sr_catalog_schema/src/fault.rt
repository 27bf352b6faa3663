ghost use Rattle.std.specs.Prelude.{◌≡◌, option_map};
ghost use Rattle.sr_catalog_schema.specs.declared.fault.DdlFault.TheVariants.{Missing, TooMany};

use sr_base::{Copied, Key, Name, NoMemory};
use std::alloc::{AllocError, Global};

/// Why a statement that changes the catalog is refused. Where several apply, the first in this order is answered.
#[derive(Drop)]
pub enum DdlFault {
    /// The created name is taken in its kind; a column, or a table among articles, is named twice; a user is the publisher; a
    /// second CONSOLIDATE is granted.
    Exists { name: Name },
    /// What is named is not there; the subscription is not started; the user is not REMOTE.
    Missing { name: Name },
    /// A wrong class, or what may not stand in an article, in a subscription, in a trigger or as an address.
    BadType { name: Name },
    /// The table has no primary key.
    NoKey { table: Name },
    /// An article's columns lack a column of the key.
    KeyNotInArticle { table: Name, column: Name },
    /// START would put a table for this user into a second publication with started subscriptions.
    TwiceSubscribed { user: Name, table: Name },
    /// A publication or trigger names the table, or a subscription the publication.
    InUse { name: Name },
    /// The kind already has its limit of members.
    TooMany { limit: u64 },
    /// There is no memory.
    Memory,
}

/// What is named and not there, as a fault.
pub fn missing_fault(name: Option<Name>) -> Option<DdlFault>
    ensures { result ≡ option_map Missing name }
{
    match name {
        Some(name) => Some(DdlFault::Missing { name }),
        None => None,
    }
}

/// A limit that is reached, as a fault.
pub fn too_many_fault(limit: Option<u64>) -> Option<DdlFault>
    ensures { result ≡ option_map TooMany limit }
{
    match limit {
        Some(limit) => Some(DdlFault::TooMany { limit }),
        None => None,
    }
}

/// Why a statement on rows is refused. Where several apply, the first in this order is answered.
#[derive(Drop)]
pub enum DmlFault {
    /// The table is not there.
    NoTable { name: Name },
    /// The column is not there.
    NoColumn { name: Name },
    /// A wrong class, a wrong count of values, a column that is named twice, or a value that does not fit its column. The name is
    /// the column, or the table where no column is assigned.
    BadValue { name: Name },
    /// A NULL in a NOT NULL column.
    Null { name: Name },
    /// Two rows would hold the key.
    Duplicate { key: Key },
    /// A number past its type's end.
    Overflow,
    /// There is no memory.
    Memory,
}

impl From<AllocError> for DdlFault {
    ghost use Rattle.std.specs.Prelude.{◌≡◌};
    ghost use Rattle.sr_catalog_schema.specs.declared.fault.DdlFault.TheVariants.{Memory};

    ghost from_gives = { λ _ e. e ≡ Memory };

    fn from(_refused: AllocError) -> DdlFault {
        DdlFault::Memory
    }
}

impl From<AllocError> for DmlFault {
    ghost use Rattle.std.specs.Prelude.{◌≡◌};
    ghost use Rattle.sr_catalog_schema.specs.declared.fault.DmlFault.TheVariants.{Memory};

    ghost from_gives = { λ _ e. e ≡ Memory };

    fn from(_refused: AllocError) -> DmlFault {
        DmlFault::Memory
    }
}

impl Copied for DdlFault {
    fn copy(&self, alloc: Global) -> Result<DdlFault, NoMemory> {
        match self {
            DdlFault::Exists { name } => Ok(DdlFault::Exists {
                name: name.copy(alloc)?,
            }),
            DdlFault::Missing { name } => Ok(DdlFault::Missing {
                name: name.copy(alloc)?,
            }),
            DdlFault::BadType { name } => Ok(DdlFault::BadType {
                name: name.copy(alloc)?,
            }),
            DdlFault::NoKey { table } => Ok(DdlFault::NoKey {
                table: table.copy(alloc)?,
            }),
            DdlFault::KeyNotInArticle { table, column } => Ok(DdlFault::KeyNotInArticle {
                table: table.copy(alloc)?,
                column: column.copy(alloc)?,
            }),
            DdlFault::TwiceSubscribed { user, table } => Ok(DdlFault::TwiceSubscribed {
                user: user.copy(alloc)?,
                table: table.copy(alloc)?,
            }),
            DdlFault::InUse { name } => Ok(DdlFault::InUse {
                name: name.copy(alloc)?,
            }),
            DdlFault::TooMany { limit } => Ok(DdlFault::TooMany { limit: *limit }),
            DdlFault::Memory => Ok(DdlFault::Memory),
        }
    }
}

impl Copied for DmlFault {
    fn copy(&self, alloc: Global) -> Result<DmlFault, NoMemory> {
        match self {
            DmlFault::NoTable { name } => Ok(DmlFault::NoTable {
                name: name.copy(alloc)?,
            }),
            DmlFault::NoColumn { name } => Ok(DmlFault::NoColumn {
                name: name.copy(alloc)?,
            }),
            DmlFault::BadValue { name } => Ok(DmlFault::BadValue {
                name: name.copy(alloc)?,
            }),
            DmlFault::Null { name } => Ok(DmlFault::Null {
                name: name.copy(alloc)?,
            }),
            DmlFault::Duplicate { key } => Ok(DmlFault::Duplicate {
                key: key.copy(alloc)?,
            }),
            DmlFault::Overflow => Ok(DmlFault::Overflow),
            DmlFault::Memory => Ok(DmlFault::Memory),
        }
    }
}
