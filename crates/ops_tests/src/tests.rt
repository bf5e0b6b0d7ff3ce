//! Tests.

ghost use Rattle.std.specs.Prelude.{IfOk};
ghost use Rattle.ops_tests.specs.Over.{IsOver};

use crate::alphabet::Alphabet;
use crate::rules::Guard::{Each, Never, Where};
use crate::rules::add_rule;
use flat_label::BoolAtom;
use sta_classes::ClassStop;
use sta_core::Lang;
use sta_ops::{Found, Wanted};
use std::alloc::Global;
use std::test::Fail;

/// How many nodes the tree has that is shown, if one is.
fn nodes(found: &Found<Vec<bool>>) -> Option<u64> {
    match found {
        Found::Shown(tree) => tree.nodes_up_to(1_048_576),
        _ => None,
    }
}

/// Chains over a leaf whose length is a multiple of `length`: a state for each remainder.
fn cycle(alloc: Global, alphabet: &Alphabet, length: u64) -> Result<Lang<BoolAtom>, Fail>
    ensures { IfOk result (IsOver alphabet.now.ranks.items alphabet.now.fields) }
{
    let mut rules = Vec::new(alloc);
    add_rule(alloc, (0, 0, Each, &[]), &mut rules)?;
    for state in 0..length {
        let next = if state + 1 == length { 0 } else { state + 1 };
        add_rule(alloc, (state, 1, Each, &[&[next]]), &mut rules)?;
    }
    alphabet.lang_of(rules, 0)
}

/// As many states in the complement, and in the complement of that, as there are remainders, and so many classes.
#[test]
fn the_complement_of_a_cycle_is_as_long(rt: HostRuntime) -> Result<(), Fail> {
    let alphabet = Alphabet::new(rt.alloc(), 0, &[0, 1])?;
    let multiples = cycle(rt.alloc(), &alphabet, 20)?;
    let others = alphabet.complement(&multiples)?;
    let again = alphabet.complement(&others)?;
    assert_eq!(rt; multiples.sta.states(), 20);
    assert_eq!(rt; others.sta.states(), 20);
    assert_eq!(rt; again.sta.states(), 20);
    assert!(rt; matches!(alphabet.telling(&multiples, &again)?, Found::Absent));
    assert_eq!(rt; nodes(&alphabet.telling(&multiples, &others)?), Some(1));
    assert_eq!(rt; nodes(&alphabet.member(&others)?), Some(2));
    assert!(rt; alphabet.complement_within(&multiples, 20).is_ok());
    assert!(rt;
        matches!(
            alphabet.complement_within(&multiples, 19),
            Err(ClassStop::Classes)
        )
    );
    Ok(())
}

/// Where all leaves have the field, some leaf has; a least tree of which some leaf has and not all is of three nodes.
#[test]
fn differences_of_all_and_some(rt: HostRuntime) -> Result<(), Fail> {
    let alphabet = Alphabet::new(rt.alloc(), 1, &[0, 2])?;
    let all = alphabet.lang(&[(0, 0, Where(0), &[]), (0, 1, Each, &[&[0], &[0]])])?;
    let some = alphabet.lang(&[
        (0, 0, Where(0), &[]),
        (0, 1, Each, &[&[0], &[]]),
        (0, 1, Each, &[&[], &[0]]),
    ])?;
    let same = alphabet.difference(&all, &all)?;
    let less = alphabet.difference(&all, &some)?;
    let more = alphabet.difference(&some, &all)?;
    assert!(rt; matches!(alphabet.member(&same)?, Found::Absent));
    assert!(rt; matches!(alphabet.member(&less)?, Found::Absent));
    assert_eq!(rt; nodes(&alphabet.member(&more)?), Some(3));
    let without = alphabet.compared(Wanted::First, &all, &some)?;
    assert!(rt; matches!(without, Found::Absent));
    let with = alphabet.compared(Wanted::First, &some, &all)?;
    assert_eq!(rt; nodes(&with), Some(3));
    let shared = alphabet.compared(Wanted::Both, &all, &some)?;
    assert_eq!(rt; nodes(&shared), Some(1));
    let none = alphabet.compared(Wanted::Both, &more, &all)?;
    assert!(rt; matches!(none, Found::Absent));
    match alphabet.telling(&all, &some)? {
        Found::Shown(tree) => {
            assert_eq!(rt; tree.nodes_up_to(9), Some(3));
            assert!(rt; alphabet.accepts(&some, &tree));
            assert!(rt; !alphabet.accepts(&all, &tree));
        }
        _ => panic!(rt; "no tree"),
    }
    Ok(())
}

/// The full binary tree of so many levels.
fn full(alloc: Global, alphabet: &Alphabet, levels: u64) -> Result<Lang<BoolAtom>, Fail>
    ensures { IfOk result (IsOver alphabet.now.ranks.items alphabet.now.fields) }
{
    let mut rules = Vec::new(alloc);
    add_rule(alloc, (levels, 0, Each, &[]), &mut rules)?;
    for state in 1..levels {
        let below = [state + 1];
        add_rule(alloc, (state, 1, Each, &[&below, &below]), &mut rules)?;
    }
    alphabet.lang_of(rules, 1)
}

/// A full tree of 20 levels has 2^20 - 1 nodes and is shown, and one of 21 levels isn't.
#[test]
fn telling_trees_that_are_too_big(rt: HostRuntime) -> Result<(), Fail> {
    let alphabet = Alphabet::new(rt.alloc(), 0, &[0, 2])?;
    let none = alphabet.lang(&[(0, 0, Never, &[])])?;
    let shown = full(rt.alloc(), &alphabet, 20)?;
    let big = full(rt.alloc(), &alphabet, 21)?;
    assert_eq!(rt; nodes(&alphabet.telling(&shown, &none)?), Some(1_048_575));
    assert!(rt; matches!(alphabet.telling(&big, &none)?, Found::TooBig));
    Ok(())
}

/// Lists whose length has one of two remainders by 5 have five states, of which two are final.
#[test]
fn the_least_automaton_of_two_remainders(rt: HostRuntime) -> Result<(), Fail> {
    let alphabet = Alphabet::new(rt.alloc(), 0, &[0, 1])?;
    let multiples = cycle(rt.alloc(), &alphabet, 5)?;
    let next = alphabet.lang(&[
        (0, 1, Each, &[&[1]]),
        (1, 0, Each, &[]),
        (1, 1, Each, &[&[5]]),
        (2, 1, Each, &[&[1]]),
        (3, 1, Each, &[&[2]]),
        (4, 1, Each, &[&[3]]),
        (5, 1, Each, &[&[4]]),
    ])?;
    let either = alphabet.union(&multiples, &next)?;
    let least = alphabet.minimal(&either)?;
    assert_eq!(rt; least.count, 5);
    assert_eq!(rt; least.lang.sta.states(), 6);
    assert_eq!(rt; least.finals.len(), 2);
    assert!(rt; matches!(alphabet.telling(&either, &least.lang)?, Found::Absent));
    Ok(())
}
