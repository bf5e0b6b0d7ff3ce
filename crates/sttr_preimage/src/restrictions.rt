//! Transducers for some of their inputs, or for some of their outputs.

ghost use Rattle.std.specs.Prelude.{◌<◌, ◌≡◌, [], ◌∷◌, length, map, get_or, All, IfOk, OnOk, IfErr};
ghost use Rattle.sta_core.specs.Sta.{AtomsFit};
ghost use Rattle.sttr_core.specs.Fits.{LabelsFit};
ghost use Rattle.sttr_core.specs.Machine.{plain_out};
ghost use Rattle.sttr_run.specs.Fits.{RuleStands, SttrStands};
ghost use Rattle.sttr_preimage.specs.Names.{names_in};
ghost use Rattle.sttr_preimage.specs.Kept.{AreRestricted};
ghost use Rattle.model_sttr.specs.Transducer.{identity};
ghost use Rattle.sttr_preimage.specs.Called.{plain_called, through};
ghost use Rattle.sttr_preimage.specs.Results.{IsRestricted, IsOutRestricted, MakesAsked, StandsUnchanged, IsTransFrom, IsTransPutFrom, IsImageStop};

use crate::called::Called;
use crate::image::{Image, copied_ranks, looks_of, rules_stand};
use crate::kept::{joint_rules, kept_states};
use crate::names::Name;
use fast_fault::Memory;
use indexmap::IndexSet;
use label_core::Labels;
use sta_core::{Lang, Sta};
use std::alloc::Global;
use sttr_core::{Sttr, SttrRule, Trans};
use sttr_run::{Head, RunStop, Second};

/// The transducer on the inputs that are in the language.
pub fn restrict<T: Labels>(
    theory: &T,
    alloc: Global,
    trans: &Trans<T::Atom, T::Map>,
    lang: &Lang<T::Atom>,
) -> Result<Trans<T::Atom, T::Map>, Memory>
    requires stands { SttrStands trans.now.sttr }
    requires start { trans.now.state < length trans.now.sttr.rules }
    requires state { lang.now.state < length lang.now.sta.rules }
    requires ranks { lang.now.sta.ranks ≡ trans.now.sttr.looks.ranks }
    requires labels { LabelsFit (T.atom_fits theory.now) (T.map_fits theory.now) trans.now.sttr }
    requires fit { AtomsFit (T.atom_fits theory.now) lang.now.sta }
    ensures relation { IfOk result (IsRestricted T.make (T.meaning theory.now) trans.now lang.now) }
    ensures made { IfOk result (IsTransFrom T.Map.eq (T.meaning theory.now) (T.atom_fits theory.now) (T.map_fits theory.now) T.map_makes trans.now.sttr lang.now.sta.rules) }
{
    let looks = looks_of(&trans.sttr);
    rules_stand(&lang.sta);
    let image = Image {
        theory,
        alloc,
        sttr: &trans.sttr,
        second: Second {
            looks: &lang.sta,
            rules: &[],
        },
    };
    let mut names = IndexSet::new(alloc);
    let rules = restricted_rules(theory, alloc, trans, lang, &mut names)?;
    let rows = image.side_rows(&mut names)?;
    let looks = Sta::new(copied_ranks(alloc, looks)?, rows);
    Ok(Trans {
        sttr: Sttr::new(looks, rules),
        state: trans.sttr.states(),
    })
}

/// The rules of all states, and of one more that has those of the transducer's state together with those of the language's.
fn restricted_rules<T: Labels>(
    theory: &T,
    alloc: Global,
    trans: &Trans<T::Atom, T::Map>,
    lang: &Lang<T::Atom>,
    names: &mut IndexSet<Name>,
) -> Result<Vec<Vec<SttrRule<T::Atom, T::Map>>>, Memory>
    requires stands { SttrStands trans.now.sttr }
    requires start { trans.now.state < length trans.now.sttr.rules }
    requires state { lang.now.state < length lang.now.sta.rules }
    requires labels { LabelsFit (T.atom_fits theory.now) (T.map_fits theory.now) trans.now.sttr }
    requires fit { AtomsFit (T.atom_fits theory.now) lang.now.sta }
    ensures rules { IfOk result (λ made. AreRestricted T.make (T.meaning theory.now).has T.Map.eq (length trans.now.sttr.looks.rules) (length lang.now.sta.rules) T.atom_holds (names_in names.old.keys) (names_in names.new.keys) trans.now.sttr.rules trans.now.state (get_or lang.now.sta.rules lang.now.state []) (map (λ those. map plain_out those.items) made.items)) }
    ensures others { OnOk result (All (RuleStands lang.now.sta.ranks (length lang.now.sta.rules)) (get_or lang.now.sta.rules lang.now.state [])) }
{
    let others = lang.sta.rules_of(lang.state);
    let mut rules = kept_states(theory, alloc, trans.sttr.rules(), names)?;
    let own = trans.sttr.rules_of(trans.state);
    rules.push(joint_rules(theory, alloc, own, others, names)?)?;
    Ok(rules)
}

/// The transducer where its outputs are in the language.
pub fn restrict_out<T: Labels>(
    theory: &T,
    alloc: Global,
    trans: &Trans<T::Atom, T::Map>,
    lang: &Lang<T::Atom>,
) -> Result<Trans<T::Atom, T::Map>, RunStop>
    requires stands { SttrStands trans.now.sttr }
    requires start { trans.now.state < length trans.now.sttr.rules }
    requires state { lang.now.state < length lang.now.sta.rules }
    requires labels { LabelsFit (T.atom_fits theory.now) (T.map_fits theory.now) trans.now.sttr }
    requires makes { MakesAsked T.atom_fits T.map_makes trans.now.sttr lang.now.sta }
    requires unchanged { StandsUnchanged (T.atom_fits theory.now) trans.now.sttr lang.now.sta }
    ensures relation { IfOk result (IsOutRestricted T.make (T.meaning theory.now) trans.now lang.now) }
    ensures made { IfOk result (IsTransPutFrom T.Map.eq T.is_put (T.meaning theory.now) (T.atom_fits theory.now) (T.map_fits theory.now) T.map_makes trans.now.sttr lang.now.sta.rules) }
    ensures stop { IfErr result (IsImageStop T.put_outside trans.now.sttr lang.now.sta.rules) }
{
    let _looks = looks_of(&trans.sttr);
    rules_stand(&lang.sta);
    let image = Image {
        theory,
        alloc,
        sttr: &trans.sttr,
        second: Second {
            looks: &lang.sta,
            rules: &[],
        },
    };
    image.trans_for(start_called(alloc, trans.state, lang.state)?)
}

/// The transducer's state, where its outputs are in the language.
fn start_called(alloc: Global, state: u64, of: u64) -> Result<Called, Memory>
    ensures { IfOk result (λ made. plain_called made ≡ through state (of ∷ []) identity) }
{
    let mut all = Vec::new(alloc);
    all.push(of)?;
    Ok(Called::Through(state, all, Head::Same))
}
