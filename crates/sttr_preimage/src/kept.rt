//! Rules of a transducer that are kept, with their demands by the numbers of names, alone or together with those of an
//! automaton.

ghost use Rattle.std.specs.Prelude.{ℕ, ◌≡◌, ◌<◌, ◌++◌, [], ◌∷◌, length, map, get_or, All, IfOk};
ghost use Rattle.model_tree.specs.Formula.{EveryAtom};
ghost use Rattle.label_core.specs.Formula.{plain_formula};
ghost use Rattle.sta_core.specs.Machine.{plain_rule};
ghost use Rattle.sttr_core.specs.Machine.{plain_out};
ghost use Rattle.sttr_core.specs.Terms.{plain_term};
ghost use Rattle.sttr_theory.specs.Triples.{firsts, seconds};
ghost use Rattle.sttr_preimage.specs.Names.{names_in, Numbers};
ghost use Rattle.sttr_preimage.specs.Rules.{AreNumbered, IsMadeOf, both_of};
ghost use Rattle.sttr_preimage.specs.Called.{IsTermCopy};
ghost use Rattle.sttr_preimage.specs.Kept.{IsBelow, joint_demands, AreKept, AreAllKept, AreJoint};

use crate::apart::are_apart;
use crate::image::add_all;
use crate::names::{Name, Side, number_states};
use crate::rules::copied_rule;
use crate::terms::copied;
use fast_fault::Memory;
use indexmap::IndexSet;
use label_core::{Duplicate, Labels, conjunction};
use sta_core::StaRule;
use std::alloc::Global;
use sttr_core::SttrRule;

/// The rules, whose demands are by the numbers of their names.
fn kept_rules<T: Labels>(
    theory: &T,
    alloc: Global,
    rules: &[SttrRule<T::Atom, T::Map>],
    names: &mut IndexSet<Name>,
) -> Result<Vec<SttrRule<T::Atom, T::Map>>, Memory>
    ensures { IfOk result (λ made. (n m : ℕ) → All (λ r. IsBelow n (plain_rule r.rule)) rules.now → AreKept T.make (T.meaning theory.now).has T.Map.eq n m (names_in names.old.keys) (names_in names.new.keys) (map plain_out rules.now) (map plain_out made.items)) }
{
    let mut made = Vec::new(alloc);
    'rules: for rule in rules {
        let term = copied(theory, alloc, &rule.term)?;
        let rule = copied_rule(alloc, Side::First, &rule.rule, names)?;
        made.push(SttrRule { rule, term })?;
    }
    Ok(made)
}

/// The rules of all states.
pub fn kept_states<T: Labels>(
    theory: &T,
    alloc: Global,
    states: &[Vec<SttrRule<T::Atom, T::Map>>],
    names: &mut IndexSet<Name>,
) -> Result<Vec<Vec<SttrRule<T::Atom, T::Map>>>, Memory>
    ensures { IfOk result (λ made. (n m : ℕ) → All (λ those. All (λ r. IsBelow n (plain_rule r.rule)) those.items) states.now → AreAllKept T.make (T.meaning theory.now).has T.Map.eq n m (names_in names.old.keys) (names_in names.new.keys) (map (λ those. map plain_out those.items) states.now) (map (λ those. map plain_out those.items) made.items)) }
{
    let mut made = Vec::new(alloc);
    'states: for rules in states {
        made.push(kept_rules(theory, alloc, rules, names)?)?;
    }
    Ok(made)
}

/// What is demanded of a child.
fn states_at(demands: &[Vec<u64>], child: usize) -> &[u64]
    ensures { result.now ≡ get_or (map (λ d. d.items) demands.now) child [] }
{
    if child >= demands.len() {
        return &[];
    }
    &demands[child]
}

/// The numbers of states of both sides.
fn both_numbers(
    alloc: Global,
    first: &[u64],
    second: &[u64],
    names: &mut IndexSet<Name>,
) -> Result<Vec<u64>, Memory>
    ensures { IfOk result (λ made. Numbers (names_in names.old.keys) (names_in names.new.keys) [] made.items (firsts first.now ++ seconds second.now)) }
{
    let mut made = Vec::new(alloc);
    number_states(Side::First, first, names, &mut made)?;
    number_states(Side::Second, second, names, &mut made)?;
    Ok(made)
}

/// What both rules demand of each child.
fn joint_demands<A>(
    alloc: Global,
    rule: &StaRule<A>,
    other: &StaRule<A>,
    names: &mut IndexSet<Name>,
) -> Result<Vec<Vec<u64>>, Memory>
    ensures { IfOk result (λ made. AreNumbered (names_in names.old.keys) (names_in names.new.keys) (length rule.now.demands.items) (joint_demands (plain_rule rule.now) (plain_rule other.now)) (map (λ d. d.items) made.items)) }
{
    let mut made = Vec::new(alloc);
    'children: for child in 0..rule.demands.len() {
        let second = states_at(&other.demands, child);
        made.push(both_numbers(alloc, &rule.demands[child], second, names)?)?;
    }
    Ok(made)
}

/// A rule that applies where both do.
fn joint_rule<A: Duplicate + Drop>(
    alloc: Global,
    rule: &StaRule<A>,
    other: &StaRule<A>,
    names: &mut IndexSet<Name>,
) -> Result<StaRule<A>, Memory>
    ensures { IfOk result (λ made. IsMadeOf (names_in names.old.keys) (names_in names.new.keys) (plain_rule rule.now) (both_of (plain_formula rule.now.guard) (plain_formula other.now.guard)) (joint_demands (plain_rule rule.now) (plain_rule other.now)) (plain_rule made)) }
{
    let mut guards = Vec::new(alloc);
    guards.push(rule.guard.copy(alloc)?)?;
    guards.push(other.guard.copy(alloc)?)?;
    let demands = joint_demands(alloc, rule, other, names)?;
    let constructor = rule.constructor;
    Ok(StaRule {
        constructor,
        guard: conjunction(guards),
        demands,
    })
}

/// The rule together with each of the others that has its constructor, but for those that are found to apply nowhere.
fn joint_with<T: Labels>(
    theory: &T,
    alloc: Global,
    rule: &SttrRule<T::Atom, T::Map>,
    others: &[StaRule<T::Atom>],
    names: &mut IndexSet<Name>,
) -> Result<Vec<SttrRule<T::Atom, T::Map>>, Memory>
    requires guard { EveryAtom (T.atom_fits theory.now) (plain_formula rule.now.rule.guard) }
    requires guards { All (λ s. EveryAtom (T.atom_fits theory.now) (plain_formula s.guard)) others.now }
    ensures { IfOk result (λ made. (n m : ℕ) → IsBelow n (plain_rule rule.now.rule) → All (λ s. IsBelow m (plain_rule s)) others.now → AreJoint T.make (T.meaning theory.now).has T.Map.eq n m T.atom_holds (names_in names.old.keys) (names_in names.new.keys) (plain_out rule.now ∷ []) (map plain_rule others.now) (map plain_out made.items)) }
{
    let mut made = Vec::new(alloc);
    'others: for other in others {
        if other.constructor != rule.rule.constructor {
            continue;
        }
        if are_apart(theory, alloc, &rule.rule.guard, &other.guard)? {
            continue;
        }
        let term = copied(theory, alloc, &rule.term)?;
        let rule = joint_rule(alloc, &rule.rule, other, names)?;
        made.push(SttrRule { rule, term })?;
    }
    Ok(made)
}

/// A rule for each two of one constructor, but for those that are found to apply nowhere.
pub fn joint_rules<T: Labels>(
    theory: &T,
    alloc: Global,
    rules: &[SttrRule<T::Atom, T::Map>],
    others: &[StaRule<T::Atom>],
    names: &mut IndexSet<Name>,
) -> Result<Vec<SttrRule<T::Atom, T::Map>>, Memory>
    requires own { All (λ r. EveryAtom (T.atom_fits theory.now) (plain_formula r.rule.guard)) rules.now }
    requires guards { All (λ s. EveryAtom (T.atom_fits theory.now) (plain_formula s.guard)) others.now }
    ensures { IfOk result (λ made. (n m : ℕ) → All (λ r. IsBelow n (plain_rule r.rule)) rules.now → All (λ s. IsBelow m (plain_rule s)) others.now → AreJoint T.make (T.meaning theory.now).has T.Map.eq n m T.atom_holds (names_in names.old.keys) (names_in names.new.keys) (map plain_out rules.now) (map plain_rule others.now) (map plain_out made.items)) }
{
    let mut made = Vec::new(alloc);
    'rules: for rule in rules {
        add_all(&mut made, joint_with(theory, alloc, rule, others, names)?)?;
    }
    Ok(made)
}
