//! The text of a preview: each output with its rows, and then the dropped records.
//! `print_preview` makes it whole.
//! What matters: its clause. The meaning: specs/PreviewText.antt, over event_value's specs/Printed.antt.
//! It computes no row: query_meaning does.
#![tactic(auto)]

mod printing;

pub use printing::print_preview;
