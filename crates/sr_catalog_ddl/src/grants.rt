//! What speaks against a GRANT and against PASSTHROUGH FOR, the user that is made, and where a user stands.

ghost use Rattle.std.specs.Prelude.{◌≡◌, ◌&&◌, not, nat_le, length, IfOk, bytes_eq};
ghost use Rattle.std.specs.Option.{option_copied};
ghost use Rattle.std.specs.List.{list_any};
ghost use Rattle.sr_catalog_schema.specs.Causes.{first_fault};
ghost use Rattle.sr_catalog_schema.specs.Firsts.{first_among, where_true};
ghost use Rattle.sr_catalog_schema.specs.Names.{named};
ghost use Rattle.sr_catalog_schema.specs.Members.{user_name};
ghost use Rattle.sr_catalog_ddl.specs.Users.{is_taken, is_bad_address, address_of, user_of, is_remote, stands_above, grant_causes, passthrough_causes};

use sr_ast::Grant;
use sr_base::{BadName, Copied, Name, NoMemory, Text, name_of};
use sr_catalog_schema::{
    DdlFault, Schema, User, is_full, limit_where, missing_fault, owned, too_many_fault, where_true,
};
use std::alloc::{AllocError, Global};

/// The fault that refuses GRANT REMOTE, or GRANT CONSOLIDATE where `above`. Each is looked for where those before do not hold.
#[tactic(auto, unfolding(crate::specs::Users::grant_causes, sr_catalog_schema::specs::Causes::first_fault))]
pub fn grant_fault(
    schema: &Schema,
    alloc: Global,
    above: bool,
    grant: &Grant,
) -> Result<Option<DdlFault>, NoMemory>
    ensures { IfOk result (λ fault. fault ≡ first_fault (grant_causes schema.now above grant.now)) }
{
    if let Some(name) = exists(schema, alloc, above, &grant.user)? {
        return Ok(Some(DdlFault::Exists { name }));
    }
    if let Some(name) = bad_address(alloc, grant)? {
        return Ok(Some(DdlFault::BadType { name }));
    }
    Ok(too_many_fault(too_many(schema)))
}

fn exists(
    schema: &Schema,
    alloc: Global,
    above: bool,
    user: &Name,
) -> Result<Option<Name>, NoMemory>
    ensures { IfOk result (λ found. found ≡ where_true (is_taken schema.now above user.now) user.now) }
{
    let taken = is_taken(schema, above, user);
    owned(alloc, where_true(taken, user))
}

fn bad_address(alloc: Global, grant: &Grant) -> Result<Option<Name>, NoMemory>
    ensures { IfOk result (λ found. found ≡ where_true (is_bad_address grant.now.address) grant.now.user) }
{
    let bad = is_bad_address(alloc, &grant.address)?;
    owned(alloc, where_true(bad, &grant.user))
}

/// 1,024 users already.
fn too_many(schema: &Schema) -> Option<u64>
    ensures { result ≡ where_true (nat_le 1024 (length schema.now.users)) 1024 }
{
    limit_where(is_full(schema.users().len(), 1024), 1024)
}

/// Whether the user is there, is the publisher, or would be the second above.
fn is_taken(schema: &Schema, above: bool, user: &Name) -> bool
    ensures { result ≡ is_taken schema.now above user.now }
{
    let known = schema.has_user(user);
    let own = is_publisher(schema, user);
    let second = is_second_above(schema, above);
    known || (own || second)
}

fn is_publisher(schema: &Schema, user: &Name) -> bool
    ensures { result ≡ bytes_eq user.now schema.now.publisher }
{
    user.bytes() == schema.publisher().bytes()
}

fn is_second_above(schema: &Schema, above: bool) -> bool
    ensures { result ≡ (above && list_any (λ u. u.above) schema.now.users) }
{
    above && has_one_above(schema.users())
}

fn has_one_above(users: &[User]) -> bool
    ensures { result ≡ list_any (λ u. u.above) users.now }
{
    users.iter().any(|user| user.above)
}

fn is_bad_address(alloc: Global, address: &Option<Text>) -> Result<bool, NoMemory>
    ensures { IfOk result (λ bad. bad ≡ is_bad_address address.now) }
{
    match address {
        None => Ok(false),
        Some(text) => match name_of(alloc, text.bytes()) {
            Ok(_) => Ok(false),
            Err(BadName::NotAName) => Ok(true),
            Err(BadName::Memory) => Err(AllocError),
        },
    }
}

/// The user that a GRANT makes.
#[tactic(auto, unfolding(crate::specs::Users::user_of))]
pub fn user_of(alloc: Global, above: bool, grant: &Grant) -> Result<User, NoMemory>
    ensures { IfOk result (λ user. user ≡ user_of above grant.now) }
{
    Ok(User {
        name: grant.user.copy(alloc)?,
        above,
        address: address_of(alloc, &grant.user, &grant.address)?,
    })
}

fn address_of(alloc: Global, user: &Name, address: &Option<Text>) -> Result<Name, NoMemory>
    ensures { IfOk result (λ name. name ≡ address_of user.now address.now) }
{
    match address {
        None => user.copy(alloc),
        Some(text) => match name_of(alloc, text.bytes()) {
            Ok(name) => Ok(name),
            Err(_) => Err(AllocError),
        },
    }
}

/// The fault that refuses PASSTHROUGH FOR.
#[tactic(auto, unfolding(crate::specs::Users::passthrough_causes, sr_catalog_schema::specs::Causes::first_fault))]
pub fn passthrough_fault(
    schema: &Schema,
    alloc: Global,
    users: &[Name],
) -> Result<Option<DdlFault>, NoMemory>
    ensures { IfOk result (λ fault. fault ≡ first_fault (passthrough_causes schema.now users.now)) }
{
    Ok(missing_fault(owned(alloc, first_not_remote(schema, users))?))
}

fn first_not_remote<'a>(schema: &Schema, users: &'a [Name]) -> Option<&'a Name>
    ensures { option_copied result ≡ first_among (λ n. where_true (not (is_remote (named user_name n schema.now.users))) n) users.now }
{
    let mut rest = users;
    'users: while let Some((name, after)) = rest.split_first() {
        if !is_remote(schema.user(name)) {
            return Some(name);
        }
        rest = after;
    }
    None
}

/// Whether a user is there, and below.
pub fn is_remote(user: Option<&User>) -> bool
    ensures { result ≡ is_remote (option_copied user.entry) }
{
    match user {
        None => false,
        Some(user) => !user.above,
    }
}

/// Whether a user is there, and above.
pub fn stands_above(user: Option<&User>) -> bool
    ensures { result ≡ stands_above (option_copied user.entry) }
{
    match user {
        None => false,
        Some(user) => user.above,
    }
}
