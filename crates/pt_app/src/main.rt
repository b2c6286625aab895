//! The program `desk`: its words, standard input and standard output.
#![tactic(auto)]

use pt_app_command_line::matches_in;
pub use pt_app_command_line::{Line, line};
use pt_app_commands::{Ending, ending_of_refusal, ending_of_task, exit_status};
use pt_app_files::do_words;
pub use pt_app_serve::serve_one;
use pt_base_values::{Cause, Fault};
use sqlite_std_file::Unknown;
use std::io::ErrorKind;
use std::process::ExitCode;
use std::{env, io};

/// The words of the program's command line, its own name first.
///
/// The library returns words as text. A word that is not UTF-8 is an error, so a key is always text.
fn given_words(rt: &HostRuntime) -> io::Result<Vec<String>> {
    let words = env::args(rt)?.collect(rt.alloc())?;
    Ok(words)
}

/// Prints what is wrong with refused words, or the help or the version that they ask for.
fn refuse(rt: &HostRuntime, words: &[String]) -> Ending {
    match matches_in(rt.alloc(), words) {
        Ok(_) => {
            let _shown = eprintln!(rt;
                "error: a word is not the number or the day that its place asks for"
            );
            Ending::WrongWords
        }
        Err(refusal) => {
            let is_shown = refusal.print(rt).is_ok();
            ending_of_refusal(refusal.kind(), is_shown)
        }
    }
}

/// Does the task that the words name.
fn do_line(rt: &HostRuntime, words: &[String]) -> Ending {
    match do_words(rt, Unknown, words) {
        Ok(done) => ending_of_task(done),
        Err(fault) if fault.code == Cause::WrongWords.code() => refuse(rt, words),
        Err(fault) => Ending::Failed(fault),
    }
}

fn run(rt: &HostRuntime) -> Ending {
    match given_words(rt) {
        Ok(words) => do_line(rt, words.as_slice()),
        Err(error) if error.kind() == ErrorKind::OutOfMemory => Ending::Failed(Fault::of(
            Cause::Memory,
        )),
        Err(_) => {
            let _shown = eprintln!(rt; "error: a word is not UTF-8");
            Ending::WrongWords
        }
    }
}

fn main(rt: HostRuntime) -> ExitCode {
    let ending = run(&rt);
    if let Ending::Failed(fault) = ending {
        let _shown = eprintln!(rt; "{fault}");
    }
    ExitCode::from(exit_status(ending))
}
