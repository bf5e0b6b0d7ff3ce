//! The example programs of this crate's folder of data, each of which is run and its report compared with the one that is
//! stored beside it; tables of command lines over small texts, with what they report; and guards, with how they are decided.
//!
//! It promises nothing itself: it shows, each time the gate runs it, that what is stored is what the program writes.
#![tactic(auto)]

mod cases;
mod guards;

use cases::{Tally, run_all};
use fast_fault::{FileTexts, Memory, SureSink, TextSource};
use fast_tool::run;
use guards::decide_all;
use std::io;
use std::rt::Files;

const NAMES: [&str; 12] = [
    "access",
    "compiler",
    "documents",
    "parcels",
    "pipelines",
    "policies",
    "sanitiser",
    "sessions",
    "switches",
    "taggers",
    "terms",
    "typecheck",
];

/// The file of guards and how they are decided.
const GUARDS: &str = "guards.decided";

/// Files of command lines and what they report, and that of guards.
const TABLES: [&str; 9] = [
    "refusals.cases",
    "runs.cases",
    "stops.cases",
    "trees.cases",
    "transformations.cases",
    "compositions.cases",
    "limits.cases",
    "faults.cases",
    GUARDS,
];

/// The most bytes of a stored report or table.
const LONGEST: u64 = 65536;

/// The exit code of the run of an example, where its report is the stored one.
fn shown<R: Files + AllocGlobal>(rt: &R, name: &str) -> Result<Option<u8>, Memory> {
    let alloc = rt.alloc();
    let mut words = Vec::new(alloc);
    words.push(String::from_str(alloc, "run")?)?;
    words.push(format!(in alloc; "{name}.fast")?)?;
    let mut texts = FileTexts::new(rt);
    let mut sink = SureSink::new(alloc);
    let status = run(alloc, &words, &mut texts, &mut sink);
    let report = format!(in alloc; "{name}.report")?;
    match texts.take(alloc, report.as_str(), LONGEST) {
        Ok(stored) if stored.as_slice() == sink.bytes() => Ok(Some(status.code())),
        _ => Ok(None),
    }
}

/// How many command lines of a table report what is written there, or how many guards are decided so, where the file can be
/// read.
fn tallied<R: Files + AllocGlobal>(rt: &R, name: &str) -> Result<Option<Tally>, Memory> {
    let alloc = rt.alloc();
    let mut texts = FileTexts::new(rt);
    let Ok(bytes) = texts.take(alloc, name, LONGEST) else {
        return Ok(None);
    };
    match str::from_utf8(&bytes) {
        Ok(text) if name == GUARDS => Ok(Some(decide_all(alloc, text)?)),
        Ok(text) => Ok(Some(run_all(alloc, text)?)),
        Err(_) => Ok(None),
    }
}

fn main(rt: HostRuntime) -> io::Result<()> {
    for name in NAMES {
        match shown(&rt, name) {
            Ok(Some(code)) => println!(rt; "{name}: status {code}, and the stored report")?,
            Ok(None) => println!(rt; "{name}: another report")?,
            Err(Memory) => println!(rt; "{name}: no memory")?,
        }
    }
    for name in TABLES {
        match tallied(&rt, name) {
            Ok(
                Some(
                    Tally {
                        as_written,
                        otherwise,
                    },
                ),
            ) => println!(rt; "{name}: {as_written} as written, {otherwise} otherwise")?,
            Ok(None) => println!(rt; "{name}: no table")?,
            Err(Memory) => println!(rt; "{name}: no memory")?,
        }
    }
    Ok(())
}
