//! Laws of tree transducers: in which ways a second transducer runs over an output term of a first one, and what that
//! makes of the domain, the pre-image, the restrictions and the composition that are built from these ways.
//!
//! It promises nothing that runs. Whoever builds a result state by state, each state by its name, has what the result
//! owes from here.
#![tactic(auto)]

ghost use Rattle.sttr_theory.specs.Results.{BuiltCompositionChainsMaps, BuiltCompositionKeepsGuards, BuiltDomainKeepsGuards, BuiltOutRestrictionKeepsGuards, BuiltOutRestrictionKeepsMaps, BuiltPreImageKeepsGuards, BuiltRestrictionKeepsGuards, BuiltRestrictionKeepsMaps, CompositionFits, CompositionIsExact, CompositionIsLinear, DomainIsExact, OutRestrictionFits, OutRestrictionIsExact, OutRestrictionIsLinear, PreImageFits, PreImageIsExact, RestrictionFits, RestrictionIsExact, RestrictionIsLinear};
ghost use Rattle.sttr_theory.specs.Build.{ClosedIsBuilt};
ghost use Rattle.sttr_theory.specs.Laws.{AskedFit, CalledFit, CalledFitUnchanged, CopiedAreRules, CoversAreWays, ListsAreWays, MadeAreWays, StatesCover};
ghost use Rattle.sttr_theory.specs.Needed.{ConditionIsNeeded};

/// The lists of ways hold one that works for each middle tree, and, where two transducers can be composed, no other. A
/// list that says the same is as good: what holds of no label may be left out, and demanded states count as a set. A
/// state of the second over the tree itself has the second's rules. What ways ask for and call fits.
pub fn laws_of_ways<L>()
    ensures are_ways { ListsAreWays L }
    ensures covers { CoversAreWays L }
    ensures made { MadeAreWays L }
    ensures states { StatesCover L }
    ensures copied { CopiedAreRules L }
    ensures asked_fit { AskedFit L }
    ensures called_fit { CalledFit L }
    ensures called_unchanged { CalledFitUnchanged L }
{}

/// The lists of ways build a transducer, for any names that are closed.
pub fn closed_names_are_built<L>()
    ensures { ClosedIsBuilt L }
{}

/// What is built from ways has exactly the language or relation that it should, and so has each of its states.
pub fn results_are_exact<L>()
    ensures domain { DomainIsExact L }
    ensures pre_image { PreImageIsExact L }
    ensures restriction { RestrictionIsExact L }
    ensures out_restriction { OutRestrictionIsExact L }
    ensures composition { CompositionIsExact L }
{}

/// The rules of results fit, and demand only states of their own, so results may be arguments again.
pub fn results_fit<L>()
    ensures pre_image { PreImageFits L }
    ensures restriction { RestrictionFits L }
    ensures out_restriction { OutRestrictionFits L }
    ensures composition { CompositionFits L }
{}

/// Results of transducers that use no child twice do so neither.
pub fn results_are_linear<L>()
    ensures restriction { RestrictionIsLinear L }
    ensures out_restriction { OutRestrictionIsLinear L }
    ensures composition { CompositionIsLinear L }
{}

/// Guards of results are steady where those of the arguments are, as they are or behind a map; and their maps are maps of
/// the arguments, or one of the first and then one of the second.
pub fn results_keep_guards<L>()
    ensures domain { BuiltDomainKeepsGuards L }
    ensures pre_image { BuiltPreImageKeepsGuards L }
    ensures restriction { BuiltRestrictionKeepsGuards L }
    ensures out_restriction { BuiltOutRestrictionKeepsGuards L }
    ensures composition { BuiltCompositionKeepsGuards L }
    ensures restriction_maps { BuiltRestrictionKeepsMaps L }
    ensures out_restriction_maps { BuiltOutRestrictionKeepsMaps L }
    ensures composition_maps { BuiltCompositionChainsMaps L }
{}

/// The condition of composition can't be dropped.
pub fn condition_is_needed()
    ensures { ConditionIsNeeded }
{}
