//! Whether users are granted.

ghost use Rattle.std.specs.Prelude.{◌↔◌, IsSome, IsTrue};
ghost use Rattle.std.specs.List.{AllByRecursion};
ghost use Rattle.sr_catalog_schema.specs.Members.{user_name};
ghost use Rattle.sr_catalog_schema.specs.Names.{named};

use sr_base::Name;
use sr_catalog::Catalog;

/// Whether the user is granted. It takes constant time.
pub(crate) fn knows(catalog: &Catalog, user: &Name) -> bool
    ensures { IsTrue result ↔ IsSome (named user_name user.now catalog.now.users) }
{
    catalog.user(user).is_some()
}

/// Whether all of them are granted.
pub(crate) fn knows_all(catalog: &Catalog, users: &[Name]) -> bool
    ensures { IsTrue result ↔ AllByRecursion (λ user. IsSome (named user_name user catalog.now.users)) users.now }
{
    let mut left = users;
    'users: while let Some((user, rest)) = left.split_first() {
        if !knows(catalog, user) {
            return false;
        }
        left = rest;
    }
    true
}
