//! Reports of which only some of what they say is given: many outputs, and fronts of a program.

use fast_fault::{Held, SureSink, SureTexts, Text};
use fast_tool::run;
use std::alloc::{AllocError, Global};
use std::test::Fail;

/// The exit code and the report of a run.
#[derive(Drop)]
struct Ran {
    code: u8,
    report: String,
}

fn words(alloc: Global, line: &str) -> Result<Vec<String>, AllocError> {
    let mut all = Vec::new(alloc);
    for word in line.split(' ') {
        all.push(String::from_str(alloc, word)?)?;
    }
    Ok(all)
}

/// Runs the words over two texts, held under the names F and G.
fn report_of(alloc: Global, line: &str, program: &str, trees: &str) -> Result<Ran, Fail> {
    let mut entries = Vec::new(alloc);
    for (name, text) in [("F", program), ("G", trees)] {
        entries.push(Held {
            name: Text::of(alloc, name)?,
            bytes: Vec::from_slice(alloc, text.as_bytes())?,
        })?;
    }
    let mut texts = SureTexts::new(entries);
    let mut sink = SureSink::new(alloc);
    let words = words(alloc, line)?;
    let code = run(alloc, &words, &mut texts, &mut sink).code();
    let report = String::from_str(alloc, str::from_utf8(sink.bytes())?)?;
    Ok(Ran { code, report })
}

/// The tags of a document: scripts are dropped, quotes are escaped, and a script that is left is asked for.
const SANITISER: &str = "type HtmlE[tag : String]{nil(0), val(1), attr(2), node(3)}
lang nodeTree : HtmlE { node(x1, x2, x3) given (attrTree x1) (nodeTree x2) (nodeTree x3) | nil() where (tag = \"\") }
lang attrTree : HtmlE { attr(x1, x2) given (valTree x1) (attrTree x2) | nil() where (tag = \"\") }
lang valTree : HtmlE { val(x1) where (tag != \"\") given (valTree x1) | nil() where (tag = \"\") }
trans remScript : HtmlE -> HtmlE { node(x1, x2, x3) where (tag != \"script\") to (node [tag] x1 (remScript x2) (remScript x3)) | node(x1, x2, x3) where (tag = \"script\") to x3 | nil() to (nil [tag]) }
trans esc : HtmlE -> HtmlE { node(x1, x2, x3) to (node [tag] (esc x1) (esc x2) (esc x3)) | attr(x1, x2) to (attr [tag] (esc x1) (esc x2)) | val(x1) where (tag = \"'\" or tag = \"\\\"\") to (val [\"\\\\\"] (val [tag] (esc x1))) | val(x1) where (tag != \"'\" and tag != \"\\\"\") to (val [tag] (esc x1)) | nil() to (nil [tag]) }
lang badOutput : HtmlE { node(x1, x2, x3) where (tag = \"script\") | node(x1, x2, x3) given (badOutput x2) | node(x1, x2, x3) given (badOutput x3) }
def rem_esc : HtmlE -> HtmlE := (compose remScript esc)
def sani : HtmlE -> HtmlE := (restrict rem_esc nodeTree)
def bad_inputs : HtmlE := (pre-image sani badOutput)
assert-true (is-empty bad_inputs)";

/// Each front of a program is a program, or is refused.
#[test]
fn texts_end_anywhere(rt: HostRuntime) -> Result<(), Fail> {
    for (end, _) in SANITISER.char_indices() {
        let front = SANITISER.get(..end).ok_or("no front")?;
        let own = report_of(rt.alloc(), "check F", front, "")?;
        let begins = if own.code == 0 {
            "checked "
        } else {
            "refused "
        };
        assert!(rt; own.code == 0 || own.code == 3, "front of {end} bytes");
        let shown = own.report.strip_suffix('\n').ok_or("no line")?;
        assert!(rt;
            shown.starts_with(begins) && !shown.contains('\n'),
            "front of {end} bytes"
        );
    }
    Ok(())
}

/// A 0 or a 1 in the place of each label.
const CHOICES: &str =
    "type L[x : Int]{nil(0), cons(1)} trans f : L -> L { nil() to (nil [0]) | cons(y) to (cons [0] (f y)) | cons(y) to (cons [1] (f y)) }";

/// A list of 12 nodes with the number, and behind them 0.
fn list_of(alloc: Global, number: &str) -> Result<String, AllocError> {
    let mut text = String::new(alloc);
    for _ in 0..12 {
        text.push_str("(cons [")?;
        text.push_str(number)?;
        text.push_str("] ")?;
    }
    text.push_str("(nil [0])))))))))))))")?;
    Ok(text)
}

#[test]
fn so_many_outputs(rt: HostRuntime) -> Result<(), Fail> {
    let first = list_of(rt.alloc(), "0")?;
    let last = list_of(rt.alloc(), "1")?;
    let own = report_of(rt.alloc(), "apply F f G", CHOICES, &first)?;
    let mut lines = own.report.lines();
    assert_eq!(rt; own.code, 0);
    assert_eq!(rt; lines.next(), Some("input 1 outputs 4096"));
    assert_eq!(rt; own.report.lines().count(), 4097);
    let one = lines.next().ok_or("no output")?;
    assert_eq!(rt; one.strip_prefix("output "), Some(first.as_str()));
    let most = own.report.strip_suffix('\n').ok_or("no line")?;
    assert!(rt; most.ends_with(last.as_str()));
    Ok(())
}
