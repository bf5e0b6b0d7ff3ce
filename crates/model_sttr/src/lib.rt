//! Tree transducers of the meaning, as plain data for contracts: rules and terms, what states give on trees, cuts, and
//! what operations on transducers promise.
//!
//! It promises nothing that runs: what it proves is that the definitions agree with each other.
#![tactic(auto)]

ghost use Rattle.model_sttr.specs.Cuts.{CutsAreOutputs};
ghost use Rattle.model_sttr.specs.Laws.{CompositionIsFunctional, OutRestrictionIsFunctional, OutputsAreTyped, PlainIsFunctional, RestrictionIsFunctional};

/// The cuts that a state makes of a tree stand for exactly the trees that it gives.
pub fn cuts_are_outputs<L>()
    ensures { CutsAreOutputs L }
{}

/// Outputs have the type that the terms make.
pub fn outputs_are_typed<L>()
    ensures { OutputsAreTyped L }
{}

/// Each state gives at most one tree where rules that meet have the same terms; and what operations promise keeps it so.
pub fn results_are_functional<L>()
    ensures plain { PlainIsFunctional L }
    ensures restriction { RestrictionIsFunctional L }
    ensures out_restriction { OutRestrictionIsFunctional L }
    ensures composition { CompositionIsFunctional L }
{}
