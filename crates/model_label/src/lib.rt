//! The value of label expressions, for contracts.
//!
//! What a reader of the product must believe about guards and labels stands here: which value an expression has where
//! the fields have values, and which expressions are texts. Nothing here knows how a guard is decided. Its laws are laws
//! of the definitions.
#![tactic(auto)]

ghost use Rattle.model_label.specs.Examples.{HaveValues};

/// Some expressions and their values.
pub fn examples_have_values()
    ensures { HaveValues }
{}
