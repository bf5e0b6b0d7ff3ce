//! Mathematics of operations on tree automata: complement, union, intersection, difference and equality, automata with
//! the reached states alone, and the least deterministic automaton of a language.
//!
//! It promises nothing that runs: its laws say what programs may rest on.
#![tactic(auto)]

ghost use Rattle.sta_theory.specs.Laws.{NotIsComplement, EitherIsUnion, PairedIsIntersection, DifferenceByBoth, EqualByBoth, PartIsSame, RoundsStart, RoundsGoOn, RoundsEnd, BlocksByContexts, NodesBegin, NodesGoOn, OppositesAreMade, RulesAreMade};

/// What automata accept that are made of the states of others.
pub fn operations_are_right<L>()
    ensures complement { NotIsComplement L }
    ensures union { EitherIsUnion L }
    ensures intersection { PairedIsIntersection L }
    ensures difference { DifferenceByBoth L }
    ensures equality { EqualByBoth L }
    ensures part { PartIsSame L }
{}

/// Rounds that split blocks of sets until nothing changes give the least automaton.
pub fn rounds_give_the_least<L>()
    ensures start { RoundsStart L }
    ensures next { RoundsGoOn L }
    ensures end { RoundsEnd L }
    ensures contexts { BlocksByContexts L }
{}

/// The rules that these laws ask for can be made.
pub fn rules_are_made<L, X>()
    ensures begin { NodesBegin L X }
    ensures go_on { NodesGoOn L X }
    ensures opposites { OppositesAreMade L X }
    ensures least { RulesAreMade L }
{}
