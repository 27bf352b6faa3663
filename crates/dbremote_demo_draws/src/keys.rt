//! The keys that a database's own transactions name.

ghost use Rattle.std.specs.Prelude.{◌≡◌, ◌++◌, ◌∷◌, [], IfOk, OnOk};
ghost use Rattle.dbremote_demo_draws.specs.Agreement.{is_among};
ghost use Rattle.dbremote_demo_draws.specs.Inner.Agreement.{IsSetOf};
ghost use Rattle.dbremote_demo_draws.specs.Counts.{change_keys, either_row, entry_keys, key_in, keys_in, own_keys};

use sr_base::{Copied, Key, NoMemory, Row};
use sr_catalog_schema::Table;
use sr_logform::{Change, Entry};
use sr_publish::values_at;
use std::alloc::Global;
use std::collections::BTreeSet;
use std::marker::Model;

/// Keys of a table. One is found in few steps, however many there are.
#[derive(Drop)]
pub struct Keys {
    keys: Vec<Key>,
    set: BTreeSet<Key>,
}

impl Model for Keys {
    ghost use Rattle.std.specs.Prelude.{List};
    ghost use Rattle.sr_base.specs.declared.value.Value.{Value as Cell};
    ghost use Rattle.dbremote_demo_draws.specs.Inner.Agreement.{IsSetOf};

    ghost Value = { List (List Cell) };

    ghost view = { λ k. k.keys.items };

    ghost invariant = { λ k. IsSetOf k.set k.keys.items };
}

impl Keys {
    /// The keys of a table that the own transactions among entries name.
    pub fn of(alloc: Global, table: &Table, entries: &[Entry]) -> Result<Keys, NoMemory>
        ensures keys { IfOk result (λ keys. keys ≡ own_keys table.now entries.now) }
    {
        let mut keys = Vec::new(alloc);
        add_own(alloc, &mut keys, table, entries)?;
        let set = set_of(alloc, keys.as_slice())?;
        Ok(Keys { keys, set })
    }

    /// No keys. It takes no memory.
    pub fn none(alloc: Global) -> Keys
        ensures none { result ≡ [] }
    {
        Keys {
            keys: Vec::new(alloc),
            set: BTreeSet::new(alloc),
        }
    }

    /// Whether a key is one of them.
    pub fn has(&self, key: &Key) -> bool
        ensures has { result ≡ is_among self.now key.now }
    {
        self.set.contains(key)
    }
}

/// The keys as a set.
fn set_of(alloc: Global, keys: &[Key]) -> Result<BTreeSet<Key>, NoMemory>
    ensures { IfOk result (λ set. IsSetOf set keys.now) }
{
    let mut set = BTreeSet::new(alloc);
    let mut left = keys;
    'keys: while let Some((key, rest)) = left.split_first() {
        set.insert(key.copy(alloc)?)?;
        left = rest;
    }
    Ok(set)
}

/// Appends the keys that the own transactions among entries name.
fn add_own(
    alloc: Global,
    keys: &mut Vec<Key>,
    table: &Table,
    entries: &[Entry],
) -> Result<(), NoMemory>
    ensures ok { OnOk result (keys.new.items ≡ keys.old.items ++ own_keys table.now entries.now) }
{
    let mut left = entries;
    'entries: while let Some((entry, rest)) = left.split_first() {
        add_entry(alloc, keys, table, entry)?;
        left = rest;
    }
    Ok(())
}

/// Appends the keys that an entry names, where it is an own transaction.
fn add_entry(
    alloc: Global,
    keys: &mut Vec<Key>,
    table: &Table,
    entry: &Entry,
) -> Result<(), NoMemory>
    ensures ok { OnOk result (keys.new.items ≡ keys.old.items ++ entry_keys table.now entry.now) }
{
    match entry {
        Entry::Own(changes) => add_changes(alloc, keys, table, changes.as_slice()),
        Entry::From { .. }
        | Entry::Ddl(_)
        | Entry::Sync { .. }
        | Entry::Pass { .. }
        | Entry::Note { .. } => Ok(()),
    }
}

/// Appends the keys of changes.
fn add_changes(
    alloc: Global,
    keys: &mut Vec<Key>,
    table: &Table,
    changes: &[Change],
) -> Result<(), NoMemory>
    ensures ok { OnOk result (keys.new.items ≡ keys.old.items ++ change_keys table.now changes.now) }
{
    let mut left = changes;
    'changes: while let Some((change, rest)) = left.split_first() {
        add_change(alloc, keys, table, change)?;
        left = rest;
    }
    Ok(())
}

/// Appends the key of a change, where it is one of the table.
fn add_change(
    alloc: Global,
    keys: &mut Vec<Key>,
    table: &Table,
    change: &Change,
) -> Result<(), NoMemory>
    ensures ok { OnOk result (keys.new.items ≡ keys.old.items ++ key_in table.now change.now) }
{
    if table.name.bytes() != change.table.bytes() {
        return Ok(());
    }
    match (&change.before, &change.after) {
        (Some(row), _) => push_key(alloc, keys, table, row),
        (None, Some(row)) => push_key(alloc, keys, table, row),
        (None, None) => Ok(()),
    }
}

/// Appends the key of a row.
fn push_key(alloc: Global, keys: &mut Vec<Key>, table: &Table, row: &Row) -> Result<(), NoMemory>
    ensures ok { OnOk result (keys.new.items ≡ keys.old.items ++ keys_in table.now.key (row.now ∷ [])) }
{
    let values = values_at(alloc, table.key.as_slice(), row.values())?;
    keys.push(Key::new(alloc, values)?)?;
    Ok(())
}
