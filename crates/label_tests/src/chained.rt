//! Maps of whole numbers, one after another.

use crate::samples::{MOST, Side, form};
use lin_form::FormStop;
use record_label::{RowEntry, RowMap};
use std::alloc::Global;
use std::test::Fail;

/// A map into whole numbers.
fn numbers(alloc: Global, sides: &[Side]) -> Result<RowMap, FormStop> {
    let mut entries = Vec::new(alloc);
    for side in sides {
        entries.push(RowEntry::Number(form(alloc, *side)?))?;
    }
    let written = Vec::new(alloc);
    Ok(RowMap { entries, written })
}

/// What comes of a map after another one: the map that was expected, another one, or a number outside its range.
#[derive(Clone, Copy, PartialEq, Eq)]
enum Chained {
    Expected,
    Other,
    Outside(i128),
}

fn chain(
    alloc: Global,
    first: &[Side],
    second: &[Side],
    expected: &[Side],
) -> Result<Chained, FormStop> {
    let first = numbers(alloc, first)?;
    match numbers(alloc, second)?.after(alloc, &first) {
        Ok(map) => compared(alloc, &map, expected),
        Err(FormStop::Range(number)) => Ok(Chained::Outside(number)),
        Err(FormStop::Memory) => Err(FormStop::Memory),
    }
}

fn compared(alloc: Global, map: &RowMap, expected: &[Side]) -> Result<Chained, FormStop> {
    if *map == numbers(alloc, expected)? {
        return Ok(Chained::Expected);
    }
    Ok(Chained::Other)
}

#[test]
fn chains_maps(rt: HostRuntime) -> Result<(), Fail> {
    use Side::{Constant, Line, Remainder};
    let alloc = rt.alloc();
    let cases: &[(&str, &[Side], &[Side], &[Side], Chained)] = &[
        (
            "3x at 2x + 1",
            &[Line(1, 2, 0)],
            &[Line(0, 3, 0)],
            &[Line(3, 6, 0)],
            Chained::Expected,
        ),
        (
            "y and x % 3 at 7 and x",
            &[Constant(7), Line(0, 1, 0)],
            &[Line(0, 1, 1), Remainder(0, 3)],
            &[Line(0, 1, 0), Constant(1)],
            Chained::Expected,
        ),
        (
            "x + 1 at 2^63 - 1",
            &[Constant(MOST)],
            &[Line(1, 1, 0)],
            &[],
            Chained::Outside(9223372036854775808),
        ),
        (
            "2x at (2^31 - 1)x",
            &[Line(0, 2147483647, 0)],
            &[Line(0, 2, 0)],
            &[],
            Chained::Outside(4294967294),
        ),
    ];
    for case in cases {
        assert!(rt;
            chain(alloc, case.1, case.2, case.3)? == case.4,
            "{}",
            case.0
        );
    }
    Ok(())
}
