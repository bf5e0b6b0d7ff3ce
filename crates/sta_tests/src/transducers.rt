//! Transducers: which rule is the first that uses a child twice.

use fast_fault::Memory;
use label_core::Formula;
use sta_core::{Sta, StaRule};
use std::alloc::Global;
use std::test::Fail;
use sttr_core::{RuleNo, Sttr, SttrRule, Term, not_linear};

/// A node over calls of state 0 on these children.
fn calls(alloc: Global, children: &[u32]) -> Result<Term<u8>, Memory> {
    let mut parts = Vec::new(alloc);
    for child in children {
        parts.push(Term::Call(0, *child))?;
    }
    Ok(Term::Node(0, 0, parts))
}

/// A rule whose term has a node in a node.
fn rule(alloc: Global, children: &[u32]) -> Result<SttrRule<u8, u8>, Memory> {
    let mut parts = Vec::new(alloc);
    parts.push(Term::Same(0))?;
    parts.push(calls(alloc, children)?)?;
    Ok(SttrRule {
        rule: StaRule {
            constructor: 0,
            guard: Formula::Yes,
            demands: Vec::new(alloc),
        },
        term: Term::Node(0, 0, parts),
    })
}

/// A state with one rule that uses each child once, and one with this rule behind such a one.
fn transducer(alloc: Global, children: &[u32]) -> Result<Sttr<u8, u8>, Memory> {
    let mut first = Vec::new(alloc);
    first.push(rule(alloc, &[2, 1])?)?;
    let mut second = Vec::new(alloc);
    second.push(rule(alloc, &[])?)?;
    second.push(rule(alloc, children)?)?;
    let mut rules = Vec::new(alloc);
    rules.push(first)?;
    rules.push(second)?;
    Ok(Sttr::new(Sta::new(Vec::new(alloc), Vec::new(alloc)), rules))
}

#[test]
fn finds_rules_that_use_a_child_twice(rt: HostRuntime) -> Result<(), Fail> {
    let last = RuleNo { state: 1, rule: 1 };
    let cases = [
        ([1, 2, 3], None),
        ([1, 2, 0], Some(last)),
        ([7, 1, 7], Some(last)),
        ([64, 64, 1], Some(last)),
    ];
    for (children, found) in cases {
        let sttr = transducer(rt.alloc(), &children)?;
        assert!(rt; not_linear(&sttr) == found);
    }
    Ok(())
}
