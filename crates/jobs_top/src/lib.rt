//! The program, over files and a sink that are handed in.
//! `top` reads the words of the command line, carries out the command, writes its text or the line that
//! says why not, and answers the `Status` that the process ends with.
//! What matters: the clauses of `top`, a group for each status. The meaning: specs/Answers.antt over
//! specs/Documents.antt (which documents are accepted) and specs/Texts.antt (the text of a command).
//! It opens no file and no stream: jobs_cli hands in those of the system.
#![tactic(auto)]

mod acceptance;
mod commands;
mod documents;
mod failure;
mod labels;
mod laws;
mod preview;
mod refusal_lines;
mod status;
mod status_lines;
mod texts;
mod words;

pub use commands::top;
pub use laws::accepted_documents_are_not_refused;
pub use status::Status;
