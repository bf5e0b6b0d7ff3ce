//! The trees that a transducer takes to some tree, and to one of a language.

ghost use Rattle.std.specs.Prelude.{◌<◌, List, [], length, All, IfOk, IfErr, OnOk};
ghost use Rattle.model_sttr.specs.Transducer.{SttrFits};
ghost use Rattle.sta_core.specs.Sta.{automaton_of};
ghost use Rattle.sttr_core.specs.Fits.{LabelsFit};
ghost use Rattle.sttr_core.specs.Machine.{transducer_of};
ghost use Rattle.sttr_theory.specs.Triples.{LookName};
ghost use Rattle.sttr_theory.specs.Results.{IsBuiltPreImage};
ghost use Rattle.sttr_run.specs.Fits.{SttrStands};
ghost use Rattle.sttr_preimage.specs.Results.{HasDomain, HasPreImage, MakesAsked, MakesSome, StandsUnchanged, IsLanguageFrom, IsImageStop, trans_at, auto_at};

use crate::image::{Image, copied_ranks, looks_of, rules_stand};
use crate::names::{Name, number};
use fast_fault::Memory;
use indexmap::IndexSet;
use label_core::Labels;
use sta_core::{Lang, Sta};
use std::alloc::Global;
use sttr_core::Trans;
use sttr_run::{RunStop, Second};

/// The trees for which the transducer has an output in all of these states.
fn image<T: Labels>(
    theory: &T,
    alloc: Global,
    trans: &Trans<T::Atom, T::Map>,
    asked: &Sta<T::Atom>,
    all: Vec<u64>,
) -> Result<Lang<T::Atom>, RunStop>
    requires stands { SttrStands trans.now.sttr }
    requires start { trans.now.state < length trans.now.sttr.rules }
    requires labels { LabelsFit (T.atom_fits theory.now) (T.map_fits theory.now) trans.now.sttr }
    requires makes { MakesAsked T.atom_fits T.map_makes trans.now.sttr asked.now }
    requires unchanged { StandsUnchanged (T.atom_fits theory.now) trans.now.sttr asked.now }
    requires states { All (λ s. s < length asked.now.rules) all.items }
    ensures fits { OnOk result (SttrFits (transducer_of T.atom_holds T.make trans.now.sttr) trans.now.sttr.looks.ranks) }
    ensures built { IfOk result (λ c. (names : List LookName) × IsBuiltPreImage trans.now.sttr.looks.ranks (T.meaning theory.now).has (trans_at T.atom_holds T.make trans.now) (automaton_of T.atom_holds asked.now) all.items names (auto_at T.atom_holds c)) }
    ensures made { IfOk result (IsLanguageFrom T.is_put (T.meaning theory.now) (T.atom_fits theory.now) trans.now.sttr asked.now.rules) }
    ensures stop { IfErr result (IsImageStop T.put_outside trans.now.sttr asked.now.rules) }
{
    let looks = looks_of(&trans.sttr);
    rules_stand(asked);
    let image = Image {
        theory,
        alloc,
        sttr: &trans.sttr,
        second: Second {
            looks: asked,
            rules: &[],
        },
    };
    let mut names = IndexSet::new(alloc);
    let state = number(&mut names, Name::Middle(trans.state, all))?;
    let rules = image.rows(&mut names)?;
    let ranks = copied_ranks(alloc, looks)?;
    let sta = Sta::new(ranks, rules);
    Ok(Lang { sta, state })
}

/// The trees with an output.
pub fn domain<T: Labels>(
    theory: &T,
    alloc: Global,
    trans: &Trans<T::Atom, T::Map>,
) -> Result<Lang<T::Atom>, Memory>
    requires stands { SttrStands trans.now.sttr }
    requires start { trans.now.state < length trans.now.sttr.rules }
    requires labels { LabelsFit (T.atom_fits theory.now) (T.map_fits theory.now) trans.now.sttr }
    requires makes { MakesSome T.map_makes trans.now.sttr }
    ensures language { IfOk result (HasDomain T.make (T.meaning theory.now) trans.now) }
    ensures made { IfOk result (IsLanguageFrom T.is_put (T.meaning theory.now) (T.atom_fits theory.now) trans.now.sttr []) }
{
    let nothing = Sta::new(
        copied_ranks(alloc, trans.sttr.lookahead())?,
        Vec::new(alloc),
    );
    match image(theory, alloc, trans, &nothing, Vec::new(alloc)) {
        Ok(lang) => Ok(lang),
        Err(RunStop::Memory) => Err(Memory),
        // nothing is asked of outputs
        Err(RunStop::Range(_)) => unreachable!(),
    }
}

/// The trees with an output in the language.
pub fn preimage<T: Labels>(
    theory: &T,
    alloc: Global,
    trans: &Trans<T::Atom, T::Map>,
    lang: &Lang<T::Atom>,
) -> Result<Lang<T::Atom>, RunStop>
    requires stands { SttrStands trans.now.sttr }
    requires start { trans.now.state < length trans.now.sttr.rules }
    requires state { lang.now.state < length lang.now.sta.rules }
    requires labels { LabelsFit (T.atom_fits theory.now) (T.map_fits theory.now) trans.now.sttr }
    requires makes { MakesAsked T.atom_fits T.map_makes trans.now.sttr lang.now.sta }
    requires unchanged { StandsUnchanged (T.atom_fits theory.now) trans.now.sttr lang.now.sta }
    ensures language { IfOk result (HasPreImage T.make (T.meaning theory.now) trans.now lang.now) }
    ensures made { IfOk result (IsLanguageFrom T.is_put (T.meaning theory.now) (T.atom_fits theory.now) trans.now.sttr lang.now.sta.rules) }
    ensures stop { IfErr result (IsImageStop T.put_outside trans.now.sttr lang.now.sta.rules) }
{
    let mut all = Vec::new(alloc);
    all.push(lang.state)?;
    image(theory, alloc, trans, &lang.sta, all)
}
