//! What inputs documents are answered with, and the items of files of text, worked out by hand.
//! Tests alone.
//! What matters: the tables in documents/keys.rt and documents/references.rt (the first cause of
//! refusal and its key), files/json_files.rt and files/csv_files.rt (the items of a file).
//! It gives no function: those that it calls are input_book's and arrival_text's.
#![tactic(auto)]

#[cfg(test)]
mod documents;
#[cfg(test)]
mod files;
