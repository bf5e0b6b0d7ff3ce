//! Tests of what a session keeps.

use fast_session::{Session, Step};
use program_check::check;
use std::alloc::Global;
use std::test::Fail;
use text_reader::read;

/// How many languages a session built for the text once all its items are done and it says that none is left.
fn languages_built(alloc: Global, text: &[u8]) -> Result<usize, Fail> {
    let program = read(alloc, text).map_err(|_| "no program")?;
    let checked = check(alloc, program).map_err(|_| "not well-formed")?;
    let count = checked.program().items.len();
    let Ok(mut session) = Session::new(alloc, checked, 1000) else {
        return Err("memory".into());
    };
    for _ in 0..count {
        session.step(alloc).map_err(|_| "halted")?;
    }
    let last = session.step(alloc).map_err(|_| "halted at the end")?;
    if !matches!(last, Step::Done) {
        return Err("an item is left".into());
    }
    Ok(session.languages())
}

/// One language for `p`, one for its complement and one for each of ten unions with that.
#[test]
fn a_definition_is_built_once(rt: HostRuntime) -> Result<(), Fail> {
    let first =
        "type B[]{a(0), c(1)} lang p : B { a() | c(x) given (p x) }\ndef d : B := (complement p)\n";
    let mut text = Vec::from_slice(rt.alloc(), first.as_bytes())?;
    for own in 0..10 {
        let line = format!(in rt.alloc();
            "def d{own} : B := (union p d) def e{own} : B := d{own}\n"
        )?;
        text.extend_from_slice(line.as_bytes())?;
    }
    assert_eq!(rt; languages_built(rt.alloc(), &text)?, 12);
    Ok(())
}
