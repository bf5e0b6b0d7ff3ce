//! What the names of a program stand for, and what its expressions are, for contracts.
//!
//! What a reader of the product must believe about declarations stands here: which of them counts, which kind an
//! expression has and of which types it is. Nothing here knows how a program is checked.
#![tactic(auto)]

ghost use Rattle.model_names.specs.Examples.{HaveKinds};

/// Some expressions, their kinds and their types.
pub fn examples_have_kinds()
    ensures { HaveKinds }
{}
