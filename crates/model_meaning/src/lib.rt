//! What a program means, for contracts.
//!
//! What a reader of the product must believe about languages, transformations, statements and trees stands here. Nothing
//! here knows how a question is answered: there are no states, no tables and no built rules. Its laws are laws of the
//! definitions.
#![tactic(auto)]

ghost use Rattle.std.specs.Prelude.{List};
ghost use Rattle.fast_fault.specs.declared.place.Pos.{Pos};
ghost use Rattle.model_grammar.specs.Syntax.{X, Item};
ghost use Rattle.model_meaning.specs.Examples.{AreInTheirLanguages};
ghost use Rattle.model_meaning.specs.Related.{HoldOfExamples};
ghost use Rattle.model_meaning.specs.Laws.{AreByRules, AreOperations, AreOutputsTyped, AreTrueWhereNotShown, DefinitionsStandForExpressions, MeaningsSettle, ShownIsFalse, TestsAgreeWithMeaning};

/// Some trees, and the languages that they are in.
pub fn examples_are_in_their_languages()
    ensures { AreInTheirLanguages }
{}

/// Some compositions, pre-images and languages, and what they have.
pub fn examples_are_related()
    ensures { HoldOfExamples }
{}

/// Names that are no definitions mean what their rules say.
pub fn names_are_by_rules()
    ensures { (items : List Item) → AreByRules items }
{}

/// Where no rule demands a definition, tests tell what is in the language of a name, and which rules apply.
pub fn tests_agree_with_meaning()
    ensures { TestsAgreeWithMeaning }
{}

/// The meaning of an expression is the same however much deeper definitions are followed.
pub fn meanings_settle()
    ensures { MeaningsSettle }
{}

/// Operations on languages are those on sets, and operations on transformations those on relations.
pub fn operations_are_those_of_sets()
    ensures { (items : List Item) (place : Pos) (x y : X) → AreOperations items place x y }
{}

/// The outputs of a typed tree are typed.
pub fn outputs_are_typed()
    ensures { AreOutputsTyped }
{}

/// A statement that some tree shows to be false isn't true.
pub fn shown_is_false()
    ensures { ShownIsFalse }
{}

/// A statement that no tree shows to be false is true, where membership in its languages is decided.
pub fn unshown_is_true()
    ensures { AreTrueWhereNotShown }
{}

/// The name of a definition whose expression doesn't depend on itself stands for the expression.
pub fn definitions_stand_for_expressions()
    ensures { DefinitionsStandForExpressions }
{}
