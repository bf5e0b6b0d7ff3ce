//! Guards that stand in a file, a line for each behind how it is decided.

use crate::cases::Tally;
use fast_fault::{Held, MemTexts, Memory, SureSink, Text};
use fast_tool::run;
use std::alloc::Global;

/// The text of a program that asks twice whether some label satisfies the guard.
fn program(alloc: Global, guard: &str) -> Result<Vec<u8>, Memory> {
    let mut bytes = Vec::new(alloc);
    bytes.extend_from_slice(
        b"type N[a : Int, b : Int, c : Int, d : Int, e : Int, f : Int, g : Int, h : Int]{z(0)}\n",
    )?;
    bytes.extend_from_slice(b"lang p : N { z() where ")?;
    bytes.extend_from_slice(guard.as_bytes())?;
    bytes.extend_from_slice(b" }\nassert-true (is-empty p)\nassert-true (is-empty p)\n")?;
    Ok(bytes)
}

/// What a report of that program says of the guard: that no label satisfies it, that one does, or that a chain of its choices
/// has numbers outside 64 or 128 bits.
fn decided(report: &str) -> &'static str {
    match report {
        "assert 3 pass\nassert 4 pass\n" => "none",
        "refused 31 Width at F:3:1 64\n" => "far",
        "refused 31 Width at F:3:1 128\n" => "wide",
        _ => {
            if report.starts_with("assert 3 fail (z [") && report.contains("\nassert 4 fail (z [") {
                "some"
            } else {
                "otherwise"
            }
        }
    }
}

/// Whether the guard is decided so.
fn is_decided(alloc: Global, guard: &str, so: &str) -> Result<bool, Memory> {
    let mut entries = Vec::new(alloc);
    entries.push(Held {
        name: Text::of(alloc, "F")?,
        bytes: program(alloc, guard)?,
    })?;
    let mut texts = MemTexts::new(entries, Vec::new(alloc));
    let mut sink = SureSink::new(alloc);
    let mut words = Vec::new(alloc);
    words.push(String::from_str(alloc, "run")?)?;
    words.push(String::from_str(alloc, "F")?)?;
    let _status = run(alloc, &words, &mut texts, &mut sink);
    match str::from_utf8(sink.bytes()) {
        Ok(report) => Ok(decided(report) == so),
        Err(_) => Ok(false),
    }
}

/// Decides each guard of the file. Lines without `: ` are remarks.
pub fn decide_all(alloc: Global, file: &str) -> Result<Tally, Memory> {
    let mut tally = Tally {
        as_written: 0,
        otherwise: 0,
    };
    for line in file.split('\n') {
        if let Some((so, guard)) = line.split_once(": ") {
            if is_decided(alloc, guard, so)? {
                tally.as_written = tally.as_written.saturating_add(1);
            } else {
                tally.otherwise = tally.otherwise.saturating_add(1);
            }
        }
    }
    Ok(tally)
}
