//! Values, names, offsets and lists: the data that every other crate speaks of, and the bytes that stand for it.
//!
//! It stands on nothing of this repository. The contract that matters most is that of the fields: a value has one spelling,
//! `write_` calls append exactly it, and `read_` calls answer the one value whose spelling stands at the front.
#![tactic(auto)]

mod broken;
mod copied;
mod day;
mod field;
mod field_lists;
mod field_numbers;
mod field_parts;
mod field_texts;
mod field_values;
mod from_bytes;
mod key;
mod laws;
mod name;
mod name_bytes;
mod offset;
mod ordering;
mod reading;
mod refusals;
mod row;
mod row_block;
mod seq;
mod text;
mod value;
mod writing;

pub use broken::{Bad, Broken};
pub use copied::{Copied, NoMemory};
pub use day::Day;
pub use field::Field;
pub use field_parts::{write_pair, write_triple};
pub use from_bytes::{name_of, text_of};
pub use key::Key;
pub use laws::{no_spelling_begins_another, what_is_read_is_spelled_so, what_is_spelled_is_read};
pub use name::Name;
pub use offset::{FARTHEST_OFFSET, Offset};
pub use ordering::{compare, order};
pub use reading::{read_name, read_prefix, read_row, read_text, read_u32, read_u64, read_value};
pub use refusals::{BadName, NotUtf8};
pub use row::Row;
pub use row_block::RowBlock;
pub use seq::Seq;
pub use text::Text;
pub use value::{Kind, Value};
pub use writing::{write_name, write_row, write_text, write_u32, write_u64, write_value};
