//! The ways in which a triple runs over a term.

ghost use Rattle.std.specs.Prelude.{IfOk, IfErr, map, All};
ghost use Rattle.model_sttr.specs.Terms.{with_maps};
ghost use Rattle.model_sttr.specs.Transducer.{Sttr};
ghost use Rattle.model_tree.specs.Label.{Label};
ghost use Rattle.sttr_core.specs.Terms.{plain_term};
ghost use Rattle.sttr_core.specs.Machine.{transducer_of};
ghost use Rattle.sttr_theory.specs.Triples.{AreWays};
ghost use Rattle.sttr_run.specs.Plain.{plain_second, plain_triple, way_at};
ghost use Rattle.sttr_run.specs.Fits.{LooksStand};
ghost use Rattle.sttr_run.specs.Found.{DraftStands, IsFound};
ghost use Rattle.sttr_run.specs.Runs.{CanRun, IsRunStop, WayIsMade};

use crate::drafts::Draft;
use crate::finish::finish;
use crate::picks::Run;
use crate::states::StateSet;
use crate::triples::{Triple, Way};
use fast_fault::Memory;
use label_core::Labels;
use sta_core::Sta;
use std::alloc::{AllocFailed, Global};
use sttr_core::{SttrRule, Term};

/// A number that a put has outside its range, or want of memory.
#[derive(Drop)]
pub enum RunStop {
    Range(i128),
    Memory,
}

impl From<Memory> for RunStop {
    ghost use Rattle.std.specs.Prelude.{◌≡◌};
    ghost use Rattle.sttr_run.specs.declared.running.RunStop.TheVariants as stop;

    ghost from_gives = { λ _ e. e ≡ stop.Memory };

    fn from(_refused: Memory) -> RunStop {
        RunStop::Memory
    }
}

impl<T: Drop> From<AllocFailed<T>> for RunStop {
    ghost use Rattle.std.specs.Prelude.{◌≡◌};
    ghost use Rattle.sttr_run.specs.declared.running.RunStop.TheVariants as stop;

    ghost from_gives = { λ _ e. e ≡ stop.Memory };

    fn from(_refused: AllocFailed<T>) -> RunStop {
        RunStop::Memory
    }
}

/// The lookahead and the rules of the states that run. Without rules, all that runs are demands.
#[derive(Drop)]
pub struct Second<'s, A, M> {
    pub looks: &'s Sta<A>,
    pub rules: &'s [Vec<SttrRule<A, M>>],
}

/// The rules of an automaton demand states that there are. Does nothing.
pub fn looks_stand<A>(looks: &Sta<A>)
    ensures { LooksStand looks.now }
{
    let _rules = looks.rules();
}

impl<'r, T: Labels> Run<'r, T> {
    /// The ways as they are made.
    fn drafts(&self, all: &StateSet) -> Result<Vec<Draft<T::Atom, T::Map>>, RunStop>
        requires can { CanRun T.atom_fits T.map_fits T.map_makes self.now.theory.now (plain_second self.now.second.now) (plain_term self.now.term.now) (plain_triple self.now.triple.now) }
        ensures found { IfOk result (λ ys. IsFound T.atom_holds T.make (T.meaning self.now.theory.now).has (plain_second self.now.second.now) (plain_term self.now.term.now) all.now.states.items (plain_triple self.now.triple.now).second ys.items) }
        ensures made { IfOk result (λ ys. All (DraftStands T.Map.eq T.is_put T.is_chained (T.atom_fits self.now.theory.now) (T.map_fits self.now.theory.now) T.map_makes (plain_second self.now.second.now) (plain_term self.now.term.now) (plain_triple self.now.triple.now).second) ys.items) }
        ensures stop { IfErr result (IsRunStop T.put_outside T.chain_outside (plain_second self.now.second.now) (plain_term self.now.term.now)) }
    {
        match self.triple.second {
            None => self.free(self.term, all),
            Some(head) => self.gives(self.term, all, head),
        }
    }
}

/// All ways in which the triple runs over the term of a rule of its first part.
pub fn ways<T: Labels>(
    theory: &T,
    alloc: Global,
    second: &Second<T::Atom, T::Map>,
    term: &Term<T::Map>,
    triple: &Triple,
) -> Result<Vec<Way<T::Atom, T::Map>>, RunStop>
    requires can { CanRun T.atom_fits T.map_fits T.map_makes theory.now (plain_second second.now) (plain_term term.now) (plain_triple triple.now) }
    ensures ways { IfOk result (λ ys. (f : Sttr Label) → AreWays f (transducer_of T.atom_holds T.make (plain_second second.now)) (T.meaning theory.now).has (with_maps T.make (plain_term term.now)) (plain_triple triple.now) (map (way_at T.atom_holds T.make) ys.items)) }
    ensures made { IfOk result (λ ys. All (WayIsMade T.Map.eq T.is_put T.is_chained (T.atom_fits theory.now) (T.map_fits theory.now) T.map_makes (plain_second second.now) (plain_term term.now) (plain_triple triple.now).second) ys.items) }
    ensures stop { IfErr result (IsRunStop T.put_outside T.chain_outside (plain_second second.now) (plain_term term.now)) }
{
    let run = Run {
        theory,
        alloc,
        second,
        term,
        triple,
    };
    looks_stand(second.looks);
    let all = StateSet::of(alloc, &triple.all)?;
    let drafts = run.drafts(&all)?;
    let ways = finish(alloc, drafts)?;
    Ok(ways)
}
