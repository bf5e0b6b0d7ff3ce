//! Class tables of small languages, compared with what is known of these.

use crate::checked;
use fast_fault::Memory;
use flat_label::{BoolAtom, Bools};
use label_core::Formula;
use sta_classes::{ClassStop, classes};
use sta_core::StaRule;
use std::alloc::Global;
use std::test::Fail;

/// A rule for each label.
fn rule(
    alloc: Global,
    constructor: u32,
    demands: Vec<Vec<u64>>,
) -> Result<StaRule<BoolAtom>, Memory> {
    let _ = alloc;
    Ok(StaRule {
        constructor,
        guard: Formula::Yes,
        demands,
    })
}

/// The rule of `cons` whose child is demanded of this state.
fn cons(alloc: Global, state: u64) -> Result<StaRule<BoolAtom>, Memory> {
    let one = vec![in alloc; state]?;
    let demands = vec![in alloc; one]?;
    rule(alloc, 1, demands)
}

/// The rule of a constructor of no children.
fn leaf(alloc: Global, constructor: u32) -> Result<StaRule<BoolAtom>, Memory> {
    rule(alloc, constructor, Vec::new(alloc))
}

/// A rule whose children are demanded of these states, one of each.
fn node(
    alloc: Global,
    constructor: u32,
    left: u64,
    right: u64,
) -> Result<StaRule<BoolAtom>, Memory> {
    let x = vec![in alloc; left]?;
    let y = vec![in alloc; right]?;
    let demands = vec![in alloc; x, y]?;
    rule(alloc, constructor, demands)
}

/// Lists by their lengths in a cycle of five: each state accepts one more than the one before it, and the first accepts
/// the empty list too.
#[test]
fn a_cycle_of_five_languages_has_five_classes(rt: HostRuntime) -> Result<(), Fail> {
    let alloc = rt.alloc();
    let mut rules = Vec::new(alloc);
    let mut first = Vec::new(alloc);
    first.push(leaf(alloc, 0)?)?;
    first.push(cons(alloc, 4)?)?;
    rules.push(first)?;
    for state in 0..4u64 {
        let mut those = Vec::new(alloc);
        those.push(cons(alloc, state)?)?;
        rules.push(those)?;
    }
    let ranks = vec![in alloc; 0, 1]?;
    let theory = Bools::new(0);
    match checked(0, ranks, rules) {
        None => panic!(rt; "does not fit"),
        Some(sta) => {
            let few = classes(&theory, alloc, &sta, 4);
            assert!(rt; matches!(few, Err(ClassStop::Classes)));
            match classes(&theory, alloc, &sta, 5) {
                Err(_) => panic!(rt; "no table"),
                Ok(table) => {
                    assert_eq!(rt; table.len(), 5);
                    for class in 0..5u32 {
                        for state in 0..5u64 {
                            assert_eq!(rt;
                                table.has(class, state),
                                state == class as u64,
                                "class {class}, state {state}"
                            );
                        }
                        match table.witness(&theory, alloc, class)? {
                            None => panic!(rt; "no tree"),
                            Some(tree) => assert!(rt;
                                tree.nodes_up_to(9) == Some(class as u64 + 1)
                            ),
                        }
                    }
                }
            }
        }
    }
    Ok(())
}

/// Two languages demanded of one child that have no tree in common: no class has what demands them.
#[test]
fn demands_on_one_child_hold_together(rt: HostRuntime) -> Result<(), Fail> {
    let alloc = rt.alloc();
    let a = vec![in alloc; leaf(alloc, 0)?]?;
    let b = vec![in alloc; leaf(alloc, 1)?]?;
    let both = vec![in alloc; 0, 1]?;
    let demands = vec![in alloc; both]?;
    let c = vec![in alloc; rule(alloc, 2, demands)?]?;
    let ranks = vec![in alloc; 0, 0, 1]?;
    let rules = vec![in alloc; a, b, c]?;
    let theory = Bools::new(0);
    match checked(0, ranks, rules) {
        None => panic!(rt; "does not fit"),
        Some(sta) => match classes(&theory, alloc, &sta, 1000) {
            Err(_) => panic!(rt; "no table"),
            Ok(table) => {
                assert_eq!(rt; table.len(), 3);
                for class in 0..3u32 {
                    assert!(rt; !table.has(class, 2));
                }
            }
        },
    }
    Ok(())
}

/// Each language of the chain has one tree, over two of the one before it: of 1, 3 and 7 nodes; a tree of 5 nodes is in
/// none.
#[test]
fn least_trees_of_a_doubling_chain(rt: HostRuntime) -> Result<(), Fail> {
    let alloc = rt.alloc();
    let h0 = vec![in alloc; leaf(alloc, 0)?]?;
    let h1 = vec![in alloc; node(alloc, 1, 0, 0)?]?;
    let h2 = vec![in alloc; node(alloc, 1, 1, 1)?]?;
    let ranks = vec![in alloc; 0, 2]?;
    let rules = vec![in alloc; h0, h1, h2]?;
    let theory = Bools::new(0);
    match checked(0, ranks, rules) {
        None => panic!(rt; "does not fit"),
        Some(sta) => match classes(&theory, alloc, &sta, 1000) {
            Err(_) => panic!(rt; "no table"),
            Ok(table) => {
                assert_eq!(rt; table.len(), 4);
                let wanted = [(0, 0, 1), (1, 1, 3), (2, 9, 5), (3, 2, 7)];
                for (class, state, nodes) in wanted {
                    for other in 0..3u64 {
                        assert_eq!(rt;
                            table.has(class, other),
                            other == state,
                            "class {class}, state {other}"
                        );
                    }
                    match table.witness(&theory, alloc, class)? {
                        None => panic!(rt; "no tree"),
                        Some(tree) => assert!(rt; tree.nodes_up_to(9) == Some(nodes)),
                    }
                }
            }
        },
    }
    Ok(())
}

/// What the formula says where the one field has this value.
fn says(formula: &Formula<BoolAtom>, bit: bool) -> bool {
    match formula {
        Formula::Yes => true,
        Formula::No => false,
        Formula::Atom(_) => bit,
        Formula::Not(inner) => !says(inner, bit),
        Formula::And(parts) => {
            let mut all = true;
            for part in parts {
                all = all && says(part, bit);
            }
            all
        }
        Formula::Or(parts) => {
            let mut some = false;
            for part in parts {
                some = some || says(part, bit);
            }
            some
        }
    }
}

/// A leaf is in the language where its field is true: the guard of the class that is in it says just that.
#[test]
fn guards_tell_the_labels_of_a_class(rt: HostRuntime) -> Result<(), Fail> {
    let alloc = rt.alloc();
    let one = StaRule {
        constructor: 0,
        guard: Formula::Atom(BoolAtom { field: 0 }),
        demands: Vec::new(alloc),
    };
    let ranks = vec![in alloc; 0]?;
    let rules = vec![in alloc; vec![in alloc; one]?]?;
    let theory = Bools::new(1);
    match checked(1, ranks, rules) {
        None => panic!(rt; "does not fit"),
        Some(sta) => match classes(&theory, alloc, &sta, 1000) {
            Err(_) => panic!(rt; "no table"),
            Ok(table) => {
                assert_eq!(rt; table.len(), 2);
                for class in 0..2u32 {
                    let inside = table.has(class, 0);
                    let formula = table.guard(&theory, alloc, 0, &[], class)?;
                    assert_eq!(rt; says(&formula, true), inside);
                    assert_eq!(rt; says(&formula, false), !inside);
                }
            }
        },
    }
    Ok(())
}
