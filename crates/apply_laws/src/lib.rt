//! Mathematics of the application of transducers: how the outputs of a call are listed from what is found of the calls
//! on the children, and when they are too many or too large.
//!
//! It promises nothing that runs: its laws say what programs may rest on.
#![tactic(auto)]

ghost use Rattle.apply_laws.specs.Laws.{ListedPassesNone, MoreIsFound, NodesAreFound, PartsAreFound, ReachedIsTooMuch, StatesAreFound};

/// What is found of a call from what is found of the calls on the children, and what it says of loads.
pub fn outputs_are_found<V, L, N>()
    ensures parts { PartsAreFound V L N }
    ensures nodes { NodesAreFound V L N }
    ensures more { MoreIsFound V L N }
    ensures states { StatesAreFound V L N }
    ensures no_load { ListedPassesNone V L N }
    ensures reached { ReachedIsTooMuch L }
{}
