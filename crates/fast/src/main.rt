//! The program: its words, the files that they name and the standard output go to the top call, whose status is the exit
//! code.
//!
//! It promises nothing itself: that the words are the command line's, that files hold what they hold and that lines
//! reach the terminal is outside every contract. All else is the clause of `fast_tool::run`.
#![tactic(auto)]

use fast_fault::{FileTexts, WriterSink};
use fast_tool::run;
use std::process::ExitCode;
use std::rt::{Env, Files};
use std::{env, io};

/// The exit code for want of memory.
const NO_MEMORY: u8 = 7;

/// The exit code where the system refuses the words.
const NO_WORDS: u8 = 8;

/// Obeys the command line and gives the exit code.
fn obey<R: Files + Env + Print + AllocGlobal>(rt: &R) -> u8 {
    let mut words = Vec::new(rt.alloc());
    match env::args(rt) {
        Ok(given) => {
            for word in given.skip(1) {
                if words.push(word).is_err() {
                    return NO_MEMORY;
                }
            }
        }
        Err(refused) => {
            return if refused.kind() == io::ErrorKind::OutOfMemory {
                NO_MEMORY
            } else {
                NO_WORDS
            };
        }
    }
    let mut texts = FileTexts::new(rt);
    let mut sink = WriterSink::new(io::writer(rt));
    run(rt.alloc(), &words, &mut texts, &mut sink).code()
}

fn main(rt: HostRuntime) -> ExitCode {
    ExitCode::from(obey(&rt))
}
