use fast_build::{trans, transformation};
use fast_fault::{Memory, Text};
use program_check::{Checked, check};
use std::alloc::Global;
use std::test::Fail;
use sttr_core::{RuleNo, not_linear};
use text_reader::read;

/// Lists and trees of numbers, some languages of them, and transformations that call each other and themselves.
const PROGRAM: &str = "
type L [i : Int] { nil(0), cons(1) }
type B [i : Int] { leaf(0), both(2) }
lang even : L { nil() | cons(y) where i % 2 = 0 given (even y) }
lang odd : L { cons(y) where i % 2 = 1 given (even y) (odd y) }
lang small : L { nil() where i < 3 }
trans inc : L -> L { nil() to (nil [0]) | cons(y) to (cons [(i + 5) % 26] (inc y)) }
trans drop : L -> L { cons(y) where i > 0 given (odd y) to (inc y) | cons(y) where i <= 0 to (drop y) | nil() to (nil [i]) }
trans keep : L -> L { cons(y) given (small y) to y }
trans twice : L -> B { nil() to (leaf [i]) | cons(y) to (both [0] (last y) (twice y)) }
trans last : L -> B { nil() to (leaf [i + 1]) | cons(y) where i != 7 to (last y) }
";

fn checked(alloc: Global, program: &str) -> Result<Checked, Fail> {
    let program = read(alloc, program.as_bytes()).map_err(|_| "no program")?;
    let checked = check(alloc, program).map_err(|_| "not well-formed")?;
    Ok(checked)
}

#[test]
fn builds_transducers(rt: HostRuntime) -> Result<(), Fail> {
    let checked = checked(rt.alloc(), PROGRAM)?;
    // how many states there are, how many of the lookahead, and the first rule that uses a child twice
    let copying = RuleNo { state: 0, rule: 1 };
    for (name, states, looks, first) in [
        ("inc", 1, 0, None),
        ("drop", 2, 2, None),
        ("keep", 1, 1, None),
        ("twice", 2, 0, Some(copying)),
        ("last", 1, 0, None),
    ] {
        let name = Text::of(rt.alloc(), name)?;
        let Some(_own) = trans(&checked, &name) else {
            return Err("no transformation".into());
        };
        let built = transformation(rt.alloc(), &checked, &name)?;
        assert!(rt; built.trans.sttr.states() == states);
        assert!(rt; built.trans.sttr.lookahead().states() == looks);
        assert!(rt; not_linear(&built.trans.sttr) == first);
    }
    Ok(())
}
