//! Runs over texts that stand in a file, and what each must report.

use fast_fault::{CutAt, Held, MemSink, MemTexts, Memory, Text};
use fast_tool::run;
use std::alloc::{AllocError, Global};

/// Command lines over two texts, which of their calls fails, and the exit status and the report of each. The first text is a
/// program that may be that of the case before, and what stands behind it.
#[derive(Drop)]
struct Case<'t> {
    lines: &'t str,
    program: Option<&'t str>,
    behind: &'t str,
    trees: &'t str,
    fails: &'t str,
    status: &'t str,
    report: &'t str,
}

/// The case that is written between two marks.
fn read_case(written: &str) -> Case<'_> {
    let mut case = Case {
        lines: "",
        program: None,
        behind: "",
        trees: "",
        fails: "",
        status: "",
        report: "",
    };
    for (place, part) in written.split("\n--- ").enumerate() {
        let (head, body) = part.split_once('\n').unwrap_or((part, ""));
        if place == 0 {
            case.lines = part;
        } else if head == "F" {
            case.program = Some(body);
        } else if head == "behind" {
            case.behind = body;
        } else if head == "G" {
            case.trees = body;
        } else if head == "fails" {
            case.fails = body;
        } else {
            case.status = head;
            case.report = body;
        }
    }
    case
}

fn words(alloc: Global, line: &str) -> Result<Vec<String>, AllocError> {
    let mut all = Vec::new(alloc);
    for word in line.split(' ') {
        all.push(String::from_str(alloc, word)?)?;
    }
    Ok(all)
}

fn number(word: Option<&str>) -> u64 {
    match word {
        Some(word) => word.parse::<u64>().unwrap_or(0),
        None => 0,
    }
}

/// Adds the text, in which `@4096@more@` stands for 4,096 times `more`.
fn add(bytes: &mut Vec<u8>, written: &str) -> Result<(), Memory> {
    let mut parts = written.split('@');
    while let Some(text) = parts.next() {
        bytes.extend_from_slice(text.as_bytes())?;
        let times = number(parts.next());
        let more = parts.next().unwrap_or("");
        for _ in 0..times {
            bytes.extend_from_slice(more.as_bytes())?;
        }
    }
    Ok(())
}

/// Two texts, held under the names F and G; each has two parts.
fn held(alloc: Global, program: &str, case: &Case<'_>) -> Result<Vec<Held>, Memory> {
    let mut entries = Vec::new(alloc);
    for (name, first, second) in [("F", program, case.behind), ("G", case.trees, "")] {
        let mut bytes = Vec::new(alloc);
        add(&mut bytes, first)?;
        add(&mut bytes, second)?;
        entries.push(Held {
            name: Text::of(alloc, name)?,
            bytes,
        })?;
    }
    Ok(entries)
}

/// The calls that take a text of which the case lets one fail, or none.
fn failing_takes(alloc: Global, case: &Case<'_>) -> Result<Vec<u64>, Memory> {
    let mut calls = Vec::new(alloc);
    if let Some(call) = case.fails.strip_prefix("take ") {
        calls.push(number(Some(call)))?;
    }
    Ok(calls)
}

/// The puts of which the case lets one fail, after so many bytes, or none.
fn failing_puts(alloc: Global, case: &Case<'_>) -> Result<Vec<CutAt>, Memory> {
    let mut calls = Vec::new(alloc);
    if let Some(words) = case.fails.strip_prefix("put ") {
        let mut numbers = words.split(' ');
        calls.push(CutAt {
            call: number(numbers.next()),
            bytes: number(numbers.next()),
        })?;
    }
    Ok(calls)
}

/// The report of the case, whose last line ends unless something fails.
fn report(alloc: Global, case: &Case<'_>) -> Result<Vec<u8>, Memory> {
    let mut report = Vec::new(alloc);
    add(&mut report, case.report)?;
    if case.fails.is_empty() && !case.report.is_empty() {
        report.push(b'\n')?;
    }
    Ok(report)
}

/// Whether a command line over the texts has the status and the report.
fn reports(alloc: Global, line: &str, program: &str, case: &Case<'_>) -> Result<bool, Memory> {
    let mut texts = MemTexts::new(held(alloc, program, case)?, failing_takes(alloc, case)?);
    let mut sink = MemSink::cutting(alloc, failing_puts(alloc, case)?);
    let words = words(alloc, line)?;
    let status = run(alloc, &words, &mut texts, &mut sink);
    let code = format!(in alloc; "{}", status.code())?;
    let report = report(alloc, case)?;
    Ok(code.as_str() == case.status && sink.bytes() == report.as_slice())
}

/// How many command lines report what is written, and how many don't.
#[derive(Drop)]
pub struct Tally {
    pub as_written: u32,
    pub otherwise: u32,
}

/// Runs all that is written in a file, whose cases stand behind its first lines.
pub fn run_all(alloc: Global, file: &str) -> Result<Tally, Memory> {
    let mut tally = Tally {
        as_written: 0,
        otherwise: 0,
    };
    let mut program = "";
    let written = file.strip_suffix('\n').unwrap_or(file);
    for block in written.split("\n=== ").skip(1) {
        let case = read_case(block);
        program = case.program.unwrap_or(program);
        for line in case.lines.split("; ") {
            if reports(alloc, line, program, &case)? {
                tally.as_written = tally.as_written.saturating_add(1);
            } else {
                tally.otherwise = tally.otherwise.saturating_add(1);
            }
        }
    }
    Ok(tally)
}
