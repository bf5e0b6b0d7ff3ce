//! Which programs are well-formed, and what is said of the others, for contracts.
//!
//! What a reader of the product must believe about the check of programs stands here, as conditions that each have a
//! code and a place. Nothing here knows how a program is checked.
#![tactic(auto)]

ghost use Rattle.std.specs.Prelude.{List};
ghost use Rattle.model_grammar.specs.Syntax.{Item};
ghost use Rattle.model_checks.specs.Judged.{AreJudged};
ghost use Rattle.model_checks.specs.Refused.{AreRefusals};
ghost use Rattle.model_checks.specs.Sound.{AreSound, FindsWhatStands};
ghost use Rattle.model_checks.specs.Vectors.{AreRefused};

/// A program for each condition, and its refusal.
pub fn vectors()
    ensures { AreRefused }
{}

/// A program that is well-formed, and programs in which several conditions fail.
pub fn examples_are_judged()
    ensures { AreJudged }
{}

/// What the refusal of a program is.
pub fn refusals_are_first()
    ensures { AreRefusals }
{}

/// What is so of each well-formed program.
pub fn well_formed_is_sound()
    ensures sound { AreSound }
    ensures found { (items : List Item) → FindsWhatStands items }
{}
