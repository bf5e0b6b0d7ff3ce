//! Laws alone: what the meaning of a well-formed program has.
//!
//! Its promise is that a reader of the meaning needs no more than these laws: names mean what their rules or their
//! expressions do, operations are those of sets, and outputs of typed trees are typed. No crate above unfolds the meaning.
#![tactic(auto)]

ghost use Rattle.meaning_laws.specs.Reaching.{ReachedByLangs, ReachedByTrans};
ghost use Rattle.meaning_laws.specs.Laws.{ProgramsHaveMeaning};
ghost use Rattle.meaning_laws.specs.Shapes.{ExpressionsHaveShapes};

/// In a well-formed program names mean what their rules or their expressions do.
pub fn programs_have_meaning()
    ensures { ProgramsHaveMeaning }
{}

/// In a well-formed program a language reaches languages on its type, and a transformation besides transformations between its types.
pub fn reached_have_types()
    ensures languages { ReachedByLangs }
    ensures transformations { ReachedByTrans }
{}

/// In a well-formed program each expression is made of what its place needs.
pub fn expressions_have_shapes()
    ensures { ExpressionsHaveShapes }
{}
