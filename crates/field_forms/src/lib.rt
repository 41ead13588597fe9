//! How the fields of a store are written as bytes, and how they are read off the front of bytes.
//! `Field` is the trait of the types that have a form; the `put` calls add a value's bytes at the
//! end of a list, and the `get` calls read the value at a place.
//! What matters: `Field::sound` and src/laws.rt: bytes spell at most one value, and a value has one
//! spelling; and `decode_whole`, clause of specs/Spellings.antt.
//! The meaning: the tables at the head of specs/Numbers, Fields, Values, Records (docs/FORMATS).
//! What a checkpoint or a journal holds is left to the crates above.
#![tactic(auto)]

mod field;
mod form_of;
mod gets;
mod laws;
mod lists;
mod numbers;
mod options;
mod puts;
mod records;
mod runs;
mod unread;
mod unreadable;
mod values;
mod whole;

pub use field::Field;
pub use form_of::{FormOf, OwnForm};
pub use gets::{
    get_i64, get_i128, get_moment, get_text, get_u8, get_u16, get_u32, get_u64, get_value,
};
pub use laws::bytes_spell_one_value;
pub use lists::{append_list, take_list};
pub use options::{append_option, take_option};
pub use puts::{put_i64, put_i128, put_moment, put_u8, put_u16, put_u32, put_u64};
pub use runs::RunForm;
pub use unread::Unread;
pub use unreadable::Unreadable;
pub use values::{put_text, put_value};
pub use whole::{decode_whole, encode_whole, put_whole};
