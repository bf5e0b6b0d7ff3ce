//! Automata and sign rows at concrete theories.

ghost use Rattle.std.specs.Prelude.{◌≡◌, ◌<◌, length, IfOk};
ghost use Rattle.model_tree.specs.Tree.{EveryLabel};
ghost use Rattle.flat_label.specs.Bools.{IsBools, bools_label};
ghost use Rattle.label_core.specs.Pair.{OfAtom};
ghost use Rattle.label_split.specs.Signs.{FormulasFit};
ghost use Rattle.lin_solve.specs.Wholes.{CompareFits};
ghost use Rattle.sta_core.specs.Sta.{AtomsFit};

use fast_fault::Memory;
use fast_tree::Tree;
use flat_label::{BoolAtom, Bools, Never, Texts};
use label_core::{Formula, Pair, PairAtom, Theory, Verdict};
use label_split::{SplitStop, find, split};
use lin_form::Form;
use lin_solve::{Compare, Ints, Memo, Relation};
use sta_core::{Sta, StaRule, accepts};
use sta_marks::{Marks, mark_nodes};
use std::alloc::Global;
use std::test::Fail;

/// Chains of constructor 1 over a leaf of constructor 0 whose field is true.
fn chains(alloc: Global) -> Result<Sta<BoolAtom>, Memory>
    ensures states { IfOk result (λ sta. length sta.rules ≡ 1) }
    ensures fits { IfOk result (AtomsFit (λ a. a.field < 1)) }
{
    let mut demand = Vec::new(alloc);
    demand.push(0)?;
    let mut demands = Vec::new(alloc);
    demands.push(demand)?;
    let mut rules = Vec::new(alloc);
    rules.push(StaRule {
        constructor: 0,
        guard: Formula::Atom(BoolAtom { field: 0 }),
        demands: Vec::new(alloc),
    })?;
    rules.push(StaRule {
        constructor: 1,
        guard: Formula::Yes,
        demands,
    })?;
    let mut states = Vec::new(alloc);
    states.push(rules)?;
    let mut ranks = Vec::new(alloc);
    ranks.push(0)?;
    ranks.push(1)?;
    Ok(Sta::new(ranks, states))
}

/// A chain of so many nodes of constructor 1 over a leaf with this field.
fn chain(alloc: Global, levels: u32, field: bool) -> Result<Tree<Vec<bool>>, Memory>
    ensures { IfOk result (EveryLabel (λ v. IsBools 1 (bools_label v.items))) }
{
    let mut tree = Tree::new(0, vec![in alloc; field; 1]?, Vec::new(alloc));
    'levels: for _ in 0..levels {
        let label = vec![in alloc; false; 1]?;
        let mut children = Vec::new(alloc);
        children.push(tree)?;
        tree = Tree::new(1, label, children);
    }
    Ok(tree)
}

/// Whether such a chain is accepted.
fn accepts_chain(alloc: Global, levels: u32, field: bool) -> Result<bool, Memory> {
    let theory = Bools::new(1);
    let sta = chains(alloc)?;
    let tree = chain(alloc, levels, field)?;
    Ok(accepts(&theory, &sta, 0, &tree))
}

/// The marks of such a chain.
fn marks_of_chain(alloc: Global, levels: u32, field: bool) -> Result<Marks, Memory> {
    let theory = Bools::new(1);
    let sta = chains(alloc)?;
    let tree = chain(alloc, levels, field)?;
    mark_nodes(&theory, alloc, &sta, &tree)
}

/// Two fields as two formulas.
fn two_fields(alloc: Global) -> Result<Vec<Formula<BoolAtom>>, Memory>
    ensures { IfOk result (λ formulas. FormulasFit (λ a. a.field < 2) formulas.items) }
{
    let mut formulas = Vec::new(alloc);
    formulas.push(Formula::Atom(BoolAtom { field: 0 }))?;
    formulas.push(Formula::Atom(BoolAtom { field: 1 }))?;
    Ok(formulas)
}

/// How many rows of signs two fields have.
fn rows_of_two_fields(alloc: Global, most: u32) -> Result<usize, SplitStop<Never>> {
    let theory = Bools::new(2);
    let formulas = two_fields(alloc)?;
    Ok(split(&theory, alloc, &formulas, most)?.len())
}

/// Whether some label has both fields.
fn has_both_fields(alloc: Global) -> Result<bool, Memory> {
    let theory = Bools::new(2);
    let formulas = two_fields(alloc)?;
    Ok(match find(&theory, alloc, &formulas)? {
        Verdict::Sat(_) => true,
        _ => false,
    })
}

/// The left field, and not the right one, as two formulas over pairs.
fn left_alone(alloc: Global) -> Result<Vec<Formula<PairAtom<BoolAtom, BoolAtom>>>, Memory>
    ensures { IfOk result (λ formulas. FormulasFit (OfAtom (λ a. a.field < 1) (λ a. a.field < 1)) formulas.items) }
{
    let right = Formula::Atom(PairAtom::Right(BoolAtom { field: 0 }));
    let mut formulas = Vec::new(alloc);
    formulas.push(Formula::Atom(PairAtom::Left(BoolAtom { field: 0 })))?;
    formulas.push(Formula::Not(Box::new(alloc, right)?))?;
    Ok(formulas)
}

/// Whether some pair has the left field alone.
fn has_left_alone(alloc: Global) -> Result<bool, Memory> {
    let theory = Pair::new(Bools::new(1), Bools::new(1));
    let formulas = left_alone(alloc)?;
    Ok(match find(&theory, alloc, &formulas)? {
        Verdict::Sat(value) => {
            let copy = theory.copy_value(alloc, &value)?;
            copy == value && value.left[..] == [true] && value.right[..] == [false]
        }
        _ => false,
    })
}

/// A field, and not the same field, as two formulas.
fn field_and_not(alloc: Global) -> Result<Vec<Formula<BoolAtom>>, Memory>
    ensures { IfOk result (λ formulas. FormulasFit (λ a. a.field < 1) formulas.items) }
{
    let again = Formula::Atom(BoolAtom { field: 0 });
    let mut formulas = Vec::new(alloc);
    formulas.push(Formula::Atom(BoolAtom { field: 0 }))?;
    formulas.push(Formula::Not(Box::new(alloc, again)?))?;
    Ok(formulas)
}

/// Whether it is found that no label has a field and has it not.
fn finds_none(alloc: Global) -> Result<bool, Memory> {
    let theory = Bools::new(1);
    let formulas = field_and_not(alloc)?;
    Ok(match find(&theory, alloc, &formulas)? {
        Verdict::Unsat => true,
        _ => false,
    })
}

/// That a whole number is above 2^63 - 1.
fn above(alloc: Global) -> Result<Compare, Memory>
    ensures { IfOk result (CompareFits 1) }
{
    Ok(Compare {
        left: Form::number(alloc, 9223372036854775807)?,
        relation: Relation::Less,
        right: Form::field(alloc, 0)?,
    })
}

/// The bits of the chain for a whole number above 2^63 - 1, if one is too wide.
fn width_above(alloc: Global) -> Result<Option<u32>, Memory> {
    let memo = Memo::new(alloc);
    let theory = Ints::new(1, &memo);
    let mut formulas = Vec::new(alloc);
    formulas.push(Formula::Atom(above(alloc)?))?;
    Ok(match find(&theory, alloc, &formulas)? {
        Verdict::Wide(chain) => Some(chain.width.bits()),
        _ => None,
    })
}

/// Whether a far chain is found where both parts of a pair are above 2^63 - 1.
fn both_are_far(alloc: Global) -> Result<bool, Memory> {
    let memo = Memo::new(alloc);
    let theory = Pair::new(Ints::new(1, &memo), Ints::new(1, &memo));
    let mut formulas = Vec::new(alloc);
    formulas.push(Formula::Atom(PairAtom::Left(above(alloc)?)))?;
    formulas.push(Formula::Atom(PairAtom::Right(above(alloc)?)))?;
    Ok(match find(&theory, alloc, &formulas)? {
        Verdict::Wide(chain) => theory.far(&chain),
        _ => false,
    })
}

/// Whether a value of some label has an equal copy.
fn copies_some<T: Theory>(theory: &T, alloc: Global) -> Result<bool, Memory> {
    let formulas = Vec::new(alloc);
    Ok(match find(theory, alloc, &formulas)? {
        Verdict::Sat(value) => theory.copy_value(alloc, &value)? == value,
        _ => false,
    })
}

#[test]
fn values_of_each_theory_are_copied(rt: HostRuntime) -> Result<(), Fail> {
    assert!(rt; copies_some(&Bools::new(2), rt.alloc())?);
    assert!(rt; copies_some(&Texts::new(2), rt.alloc())?);
    let memo = Memo::new(rt.alloc());
    assert!(rt; copies_some(&Ints::new(2, &memo), rt.alloc())?);
    Ok(())
}

#[test]
fn chains_are_accepted_by_their_leaf(rt: HostRuntime) -> Result<(), Fail> {
    let alloc = rt.alloc();
    assert!(rt; accepts_chain(alloc, 0, true).ok().ok_or("memory")?);
    assert!(rt; !accepts_chain(alloc, 0, false).ok().ok_or("memory")?);
    assert!(rt; accepts_chain(alloc, 3, true).ok().ok_or("memory")?);
    assert!(rt; !accepts_chain(alloc, 3, false).ok().ok_or("memory")?);
    Ok(())
}

#[test]
fn a_deep_tree_is_accepted(rt: HostRuntime) -> Result<(), Fail> {
    assert!(rt; accepts_chain(rt.alloc(), 2000, true).ok().ok_or("memory")?);
    Ok(())
}

#[test]
fn each_node_of_a_chain_is_marked(rt: HostRuntime) -> Result<(), Fail> {
    let alloc = rt.alloc();
    let marks = marks_of_chain(alloc, 2, true).ok().ok_or("memory")?;
    assert!(rt; marks.has(0, 0) && marks.has(1, 0) && marks.has(2, 0));
    assert!(rt; !marks.has(3, 0) && !marks.has(0, 1) && !marks.has(0, 64));
    let none = marks_of_chain(alloc, 2, false).ok().ok_or("memory")?;
    assert!(rt; !none.has(0, 0) && !none.has(1, 0) && !none.has(2, 0));
    Ok(())
}

#[test]
fn two_fields_have_four_rows(rt: HostRuntime) -> Result<(), Fail> {
    let alloc = rt.alloc();
    assert!(rt; matches!(rows_of_two_fields(alloc, 4), Ok(4)));
    assert!(rt; matches!(rows_of_two_fields(alloc, 3), Err(SplitStop::TooMany)));
    Ok(())
}

#[test]
fn two_fields_are_satisfiable(rt: HostRuntime) -> Result<(), Fail> {
    assert!(rt; has_both_fields(rt.alloc()).ok().ok_or("memory")?);
    Ok(())
}

#[test]
fn a_pair_has_the_left_field_alone(rt: HostRuntime) -> Result<(), Fail> {
    assert!(rt; has_left_alone(rt.alloc()).ok().ok_or("memory")?);
    Ok(())
}

#[test]
fn none_has_a_field_and_has_it_not(rt: HostRuntime) -> Result<(), Fail> {
    assert!(rt; finds_none(rt.alloc()).ok().ok_or("memory")?);
    Ok(())
}

#[test]
fn numbers_above_the_range_are_too_wide(rt: HostRuntime) -> Result<(), Fail> {
    let width = width_above(rt.alloc()).ok().ok_or("memory")?;
    assert!(rt; width == Some(64));
    assert!(rt; both_are_far(rt.alloc()).ok().ok_or("memory")?);
    Ok(())
}
