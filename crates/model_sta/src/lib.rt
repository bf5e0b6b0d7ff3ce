//! Alternating tree automata of the meaning, as plain data for contracts: rules, acceptance, the set of the states that
//! accept a tree, and classes, which are the sets that trees have, with their least trees; what operations on automata
//! promise, contexts, and when trees are too many or too large.
//!
//! It promises nothing that runs: what it proves is that the definitions agree with each other.
#![tactic(auto)]

ghost use Rattle.model_sta.specs.Together.{BesideIsTogether, EqualTreesAreSame, SetsAreTold, TreesAreOrdered};
ghost use Rattle.model_sta.specs.Laws.{TestIsFact, SetIsAccepted, StepAgrees, SetByChildren, ClosedIsComplete, StepIsReached, LeastBound, HasWitness};

/// The test of acceptance, its reading in words of existence, and the set of accepting states say the same; and that
/// set depends on the constructor, on the guards at the label and on the sets of the children alone.
pub fn laws_of_acceptance<L>()
    ensures test_is_fact { TestIsFact L }
    ensures set_is_accepted { SetIsAccepted L }
    ensures step_agrees { StepAgrees L }
    ensures by_children { SetByChildren L }
{}

/// Which sets of states trees have, and how many nodes the least of these trees have.
pub fn laws_of_classes<L>()
    ensures closed_is_complete { ClosedIsComplete L }
    ensures step_is_reached { StepIsReached L }
    ensures least_bound { LeastBound L }
    ensures has_witness { HasWitness L }
{}

/// Sets are different where states tell their trees apart, and two automata can stand in one list of rules.
pub fn laws_of_told_trees<L>()
    ensures sets_are_told { SetsAreTold L }
    ensures together { BesideIsTogether L }
{}

/// Trees have a total order wherever labels have one.
pub fn laws_of_order<V, L>()
    ensures ordered { TreesAreOrdered V }
    ensures same { EqualTreesAreSame V L }
{}
