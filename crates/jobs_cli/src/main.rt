//! The program: it makes the files and the sink of the system, hands them to `top` with the words of
//! the command line, and ends with the number of its status.
#![tactic(auto)]

mod output;
mod system_files;
#[cfg(test)]
mod tests;

use event_value::{Memory, Seq, Text};
use jobs_top::{Status, top};
use output::Output;
use std::alloc::Global;
use std::process::ExitCode;
use std::rt::Env;
use std::{env, io};
use system_files::SystemFiles;

fn main(rt: HostRuntime) -> ExitCode {
    let Ok(words) = words_of(&rt, rt.alloc()) else {
        return ExitCode::from(Status::Memory.number());
    };
    let mut files = SystemFiles::of(&rt);
    let mut out = Output::of(io::writer(&rt));
    let status = top(rt.alloc(), words.items(), &mut files, &mut out);
    ExitCode::from(status.number())
}

/// The program's words, without its own name; none where one of them isn't text, which `top` refuses
/// like every command line that it doesn't know.
fn words_of(rt: &(impl Env + AllocGlobal), alloc: Global) -> Result<Seq<Text>, Memory> {
    match env::args(rt) {
        Ok(args) => texts_of(alloc, args),
        Err(_) => Ok(Seq::empty(alloc)),
    }
}

fn texts_of(alloc: Global, args: env::Args) -> Result<Seq<Text>, Memory> {
    let mut words = Seq::empty(alloc);
    for arg in args.skip(1) {
        words.push(Text::of(alloc, arg.as_bytes())?)?;
    }
    Ok(words)
}
