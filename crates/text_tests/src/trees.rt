use fast_fault::{Code, Memory, Text};
use fast_tree::{CtorOf, FieldOf, Signature, Sort};
use std::alloc::Global;
use std::process::Abort;
use std::test::Fail;
use text_reader::ReadStop;
use tree_files::read_typed;

fn constructor(alloc: Global, name: &str, rank: u32) -> Result<CtorOf, Memory> {
    let name = Text::of(alloc, name)?;
    Ok(CtorOf { name, rank })
}

/// `type L[i : Int, s : String]{nil(0), cons(1)}`
fn lists(alloc: Global) -> Result<Signature, Memory> {
    let mut fields = Vec::new(alloc);
    fields.push(FieldOf {
        name: Text::of(alloc, "i")?,
        sort: Sort::Int,
    })?;
    fields.push(FieldOf {
        name: Text::of(alloc, "s")?,
        sort: Sort::Text,
    })?;
    let mut constructors = Vec::new(alloc);
    constructors.push(constructor(alloc, "nil", 0)?)?;
    constructors.push(constructor(alloc, "cons", 1)?)?;
    Ok(Signature {
        name: Text::of(alloc, "L")?,
        fields,
        constructors,
    })
}

/// A file that is refused, with the code and the column.
const REFUSED: [(&str, Code, u32); 10] = [
    ("(nil [0, \"\")", Code::Syntax, 12),
    ("(nul [0, \"\"])", Code::UnknownName, 2),
    ("(nil [0])", Code::WrongRank, 2),
    ("(nil [0, \"\", 1])", Code::WrongRank, 2),
    ("(nil [0, \"\"] (nil [0, \"\"]))", Code::WrongRank, 2),
    ("(cons [0, \"\"])", Code::WrongRank, 2),
    ("(nil [\"\", \"\"])", Code::WrongSort, 7),
    ("(cons [0, \"\"] (nil [0, true]))", Code::WrongSort, 24),
    ("(nil [9223372036854775808, \"\"])", Code::NumberRange, 7),
    ("(nil [-9223372036854775809, 1])", Code::NumberRange, 7),
];

fn is_refused(alloc: Global, text: &str, code: Code, column: u32) -> Result<bool, Memory> {
    let signature = lists(alloc)?;
    match read_typed(alloc, text.as_bytes(), &signature) {
        Err(ReadStop::Refused(refusal)) => {
            Ok(refusal.code == code && refusal.place.column == column)
        }
        _ => Ok(false),
    }
}

#[test]
fn refuses_what_fails(rt: HostRuntime) -> Result<(), Fail> {
    for (text, code, column) in REFUSED {
        let refused = is_refused(rt.alloc(), text, code, column).map_err(|_| "memory")?;
        assert!(rt; refused, "refusal of {text}");
    }
    Ok(())
}

/// How many trees the text is, and where the last one starts.
fn read_places(alloc: Global, text: &str) -> Result<Option<(usize, u32)>, Memory> {
    let signature = lists(alloc)?;
    let Ok(trees) = read_typed(alloc, text.as_bytes(), &signature) else {
        return Ok(None);
    };
    match trees.as_slice() {
        [.., last] => Ok(Some((trees.len(), last.place.column))),
        [] => Ok(None),
    }
}

#[test]
fn reads_trees(rt: HostRuntime) -> Result<(), Fail> {
    let text =
        "(cons [-9223372036854775808, \"a\"] (nil [1, \"\"]))(nil [9223372036854775807, \"b\"])";
    let read = read_places(rt.alloc(), text).map_err(|_| "memory")?;
    assert!(rt; read == Some((2, 49)), "trees of {text}");
    Ok(())
}
