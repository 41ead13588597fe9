//! Values as texts and back: casts between kinds, the numbers that texts spell, printed rows.
//! `cast` gives a value as one of another kind; `print_row` and `push_dropped` write a row and a
//! dropped record as JSON objects.
//! What matters: `cast`, clause of specs/Casts.antt, and `print_row`, clause of specs/Printed.antt;
//! the numbers of texts stand in specs/Numbers.antt.
//! It reads no file and judges no record.
#![tactic(auto)]

mod casts;
mod numbers;
mod print;
mod print_value;

pub use casts::cast;
pub use numbers::{fixed_value, whole_value};
pub use print::{print_row, push_dropped, push_number, push_row};
pub use print_value::{push_text, push_value};
