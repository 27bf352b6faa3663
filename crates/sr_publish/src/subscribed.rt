//! The values of a user's started subscriptions to a publication.

ghost use Rattle.std.specs.Prelude.{◌≡◌, ◌++◌, ◌∷◌, [], IfOk, OnOk, filter_map};
ghost use Rattle.std.specs.Option.{option_copied};
ghost use Rattle.std.specs.List.{list_any};
ghost use Rattle.sr_publish.specs.Inner.Numbers.{widened};
ghost use Rattle.sr_publish.specs.SubscribedTables.{value_in};
ghost use Rattle.sr_publish.specs.Inner.Subscribed.{IsSetOf};
ghost use Rattle.sr_publish.specs.Views.{equals};

use crate::articles::is_live;
use sr_base::{Copied, Name, NoMemory, Seq, Value};
use sr_catalog_schema::Subscription;
use std::alloc::Global;
use std::collections::BTreeSet;
use std::marker::Model;

/// The values of subscriptions, in order of creation. One is found in few steps, however many there are.
#[derive(Drop)]
pub(crate) struct Subscribed {
    values: Seq<Value>,
    set: BTreeSet<Value>,
}

impl Model for Subscribed {
    ghost use Rattle.std.specs.Prelude.{List};
    ghost use Rattle.sr_base.specs.declared.value.Value.{Value as Cell};

    ghost Value = { List Cell };

    ghost view = { λ s. s.values };

    ghost use Rattle.sr_publish.specs.Inner.Subscribed.{IsSetOf};

    ghost invariant = { λ s. IsSetOf s.set s.values };
}

impl Subscribed {
    /// The values of the started subscriptions of a user to a publication. It takes one pass over the subscriptions.
    pub(crate) fn of(
        alloc: Global,
        user: &Name,
        publication: &Name,
        subscriptions: &[Subscription],
    ) -> Result<Subscribed, NoMemory>
        ensures values { IfOk result (λ s. s ≡ filter_map (value_in user.now publication.now) subscriptions.now) }
    {
        let values = values_of(alloc, user, publication, subscriptions)?;
        match set_of(alloc, values.as_slice()) {
            Ok(set) => Ok(Subscribed { values, set }),
            Err(lack) => {
                drop(values);
                Err(lack)
            }
        }
    }

    /// Whether one of the values is equal to this one, as a comparison says. It takes logarithmic time, and no memory.
    #[tactic(auto, using(crate::proofs::Equalities::has_widened, crate::proofs::Equalities::has_null))]
    pub(crate) fn has(&self, value: &Value) -> bool
        ensures has { result ≡ list_any (equals value.now) self.now }
    {
        match value {
            Value::Null => false,
            Value::Int(number) => self.set.contains(&Value::Big(i64::from(*number))),
            Value::Big(_) | Value::Str(_) | Value::Date(_) => self.set.contains(value),
        }
    }
}

/// The values, in order of creation.
fn values_of(
    alloc: Global,
    user: &Name,
    publication: &Name,
    subscriptions: &[Subscription],
) -> Result<Seq<Value>, NoMemory>
    ensures { IfOk result (λ values. values ≡ filter_map (value_in user.now publication.now) subscriptions.now) }
{
    let mut values = Vec::new(alloc);
    let mut rest = subscriptions;
    'subscriptions: while let Some((subscription, after)) = rest.split_first() {
        if let Some(value) = value_in(user, publication, subscription) {
            add_copy(alloc, value, &mut values)?;
        }
        rest = after;
    }
    Ok(Seq::from_vec(values))
}

fn add_copy(alloc: Global, value: &Value, values: &mut Vec<Value>) -> Result<(), NoMemory>
    ensures added { OnOk result (values.new.items ≡ values.old.items ++ value.now ∷ []) }
{
    values.push(value.copy(alloc)?)?;
    Ok(())
}

/// The value of a started subscription of the user to the publication.
fn value_in<'a>(
    user: &Name,
    publication: &Name,
    subscription: &'a Subscription,
) -> Option<&'a Value>
    ensures { option_copied result ≡ value_in user.now publication.now subscription.now }
{
    if is_live(user, subscription) && publication.bytes() == subscription.publication.bytes() {
        subscription.value.as_ref()
    } else {
        None
    }
}

/// The values as a set, each INTEGER as a BIGINT.
fn set_of(alloc: Global, values: &[Value]) -> Result<BTreeSet<Value>, NoMemory>
    ensures { IfOk result (λ set. IsSetOf set values.now) }
{
    let mut set = BTreeSet::new(alloc);
    let mut rest = values;
    'values: while let Some((value, after)) = rest.split_first() {
        set.insert(widened(alloc, value)?)?;
        rest = after;
    }
    Ok(set)
}

/// The value, an INTEGER as a BIGINT.
fn widened(alloc: Global, value: &Value) -> Result<Value, NoMemory>
    ensures { IfOk result (λ wide. wide ≡ widened value.now) }
{
    match value {
        Value::Int(number) => Ok(Value::Big(i64::from(*number))),
        Value::Null | Value::Big(_) | Value::Str(_) | Value::Date(_) => value.copy(alloc),
    }
}
