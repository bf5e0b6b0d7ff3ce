//! Linear forms as plain data for contracts: their value, their equality, and the form of each expression.
//!
//! A contract above this crate speaks of these values and never of how a form lies in memory. The crate promises
//! nothing that runs: what it proves is that the definitions agree with each other.
#![tactic(auto)]

ghost use Rattle.model_form.specs.Laws.{SameIsEquivalence, SameInAnyOrder, SameHaveOneValue, ValueOfSum, ValueOfProduct, ValueOfRemainder, ValueAfterPutting, ValueOfSimpler};

/// Equality of forms is an equivalence that sees no order of remainders and keeps the value.
pub fn laws_of_equality()
    ensures equivalence { SameIsEquivalence }
    ensures any_order { SameInAnyOrder }
    ensures one_value { SameHaveOneValue }
{}

/// The form of each expression has the expression's value.
pub fn laws_of_values()
    ensures sum { ValueOfSum }
    ensures product { ValueOfProduct }
    ensures remainder { ValueOfRemainder }
    ensures putting { ValueAfterPutting }
    ensures simpler { ValueOfSimpler }
{}
