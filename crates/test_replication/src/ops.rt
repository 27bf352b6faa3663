//! Whether ops are equal.

use sr_base::{Name, Value};
use sr_logform::Op;

pub(crate) fn are_ops(found: &[Op], wanted: &[Op]) -> bool {
    found.len() == wanted.len() && found.iter().zip(wanted).all(|(a, b)| is_op(a, b))
}

fn is_op(found: &Op, wanted: &Op) -> bool {
    match found {
        Op::Insert { table, values } => match wanted {
            Op::Insert {
                table: other,
                values: others,
            } => is_name(table, other) && are_columns(values.as_slice(), others.as_slice()),
            _ => false,
        },
        Op::Remove { table, key } => match wanted {
            Op::Remove {
                table: other,
                key: others,
            } => is_name(table, other) && are_columns(key.as_slice(), others.as_slice()),
            _ => false,
        },
        Op::Set {
            table,
            key,
            columns,
        } => match wanted {
            Op::Set {
                table: other,
                key: others,
                columns: updates,
            } => {
                is_name(table, other)
                    && are_columns(key.as_slice(), others.as_slice())
                    && are_updates(columns.as_slice(), updates.as_slice())
            }
            _ => false,
        },
        Op::Clear { table } => match wanted {
            Op::Clear { table: other } => is_name(table, other),
            _ => false,
        },
        Op::Exec { text } => match wanted {
            Op::Exec { text: other } => text.bytes() == other.bytes(),
            _ => false,
        },
    }
}

fn is_name(found: &Name, wanted: &Name) -> bool {
    found.bytes() == wanted.bytes()
}

fn is_value(found: &Value, wanted: &Value) -> bool {
    found.cmp(wanted).is_eq()
}

fn are_columns(found: &[(Name, Value)], wanted: &[(Name, Value)]) -> bool {
    found.len() == wanted.len() && found.iter().zip(wanted).all(|(a, b)| is_column(a, b))
}

fn is_column(found: &(Name, Value), wanted: &(Name, Value)) -> bool {
    is_name(&found.0, &wanted.0) && is_value(&found.1, &wanted.1)
}

fn are_updates(found: &[(Name, Value, Value)], wanted: &[(Name, Value, Value)]) -> bool {
    found.len() == wanted.len() && found.iter().zip(wanted).all(|(a, b)| is_update(a, b))
}

fn is_update(found: &(Name, Value, Value), wanted: &(Name, Value, Value)) -> bool {
    is_name(&found.0, &wanted.0) && is_value(&found.1, &wanted.1) && is_value(&found.2, &wanted.2)
}
