//! One transducer in place of two that run one after the other.

ghost use Rattle.std.specs.Prelude.{◌≡◌, ◌<◌, length, All, IfOk, IfErr};
ghost use Rattle.sttr_core.specs.Fits.{LabelsFit};
ghost use Rattle.sttr_run.specs.Fits.{RuleStands, SttrStands};
ghost use Rattle.sttr_run.specs.Plain.{plain_second};
ghost use Rattle.sttr_run.specs.Sources.{GivesChild};
ghost use Rattle.sttr_compose.specs.Results.{MakesFor, SpeaksOfFirst, CanCompose, IsComposed, IsTransThrough, IsComposeStop};

use label_core::Labels;
use std::alloc::Global;
use sttr_core::Trans;
use sttr_preimage::{Called, Image, looks_of};
use sttr_run::{Head, RunStop, Second};

/// The transducer that gives what the second gives on what the first gives.
pub fn compose<T: Labels>(
    theory: &T,
    alloc: Global,
    first: &Trans<T::Atom, T::Map>,
    second: &Trans<T::Atom, T::Map>,
) -> Result<Trans<T::Atom, T::Map>, RunStop>
    requires first_stands { SttrStands first.now.sttr }
    requires first_start { first.now.state < length first.now.sttr.rules }
    requires second_stands { SttrStands second.now.sttr }
    requires second_start { second.now.state < length second.now.sttr.rules }
    requires labels { LabelsFit (T.atom_fits theory.now) (T.map_fits theory.now) first.now.sttr }
    requires makes { MakesFor T.atom_fits T.map_fits T.map_makes first.now.sttr second.now.sttr }
    requires unchanged { GivesChild first.now.sttr → SpeaksOfFirst (T.atom_fits theory.now) (T.map_fits theory.now) first.now.sttr second.now.sttr }
    requires can { CanCompose T.atom_holds T.make (T.meaning theory.now).has first.now.sttr second.now.sttr }
    ensures relation { IfOk result (IsComposed T.make (T.meaning theory.now) first.now second.now) }
    ensures made { IfOk result (IsTransThrough T.Map.eq T.is_put T.is_chained (T.meaning theory.now) (T.atom_fits theory.now) (T.map_fits theory.now) T.map_makes first.now.sttr second.now.sttr) }
    ensures stop { IfErr result (IsComposeStop T.put_outside T.chain_outside first.now.sttr second.now.sttr) }
{
    let _looks = looks_of(&first.sttr);
    let image = Image {
        theory,
        alloc,
        sttr: &first.sttr,
        second: as_second(second),
    };
    let all = Vec::new(alloc);
    let start = Called::Through(first.state, all, Head::Run(second.state));
    image.trans_for(start)
}

/// The transducer, to run over outputs of another one.
fn as_second<A, M>(trans: &Trans<A, M>) -> Second<A, M>
    ensures same { plain_second result ≡ trans.now.sttr }
    ensures stand { All (All (RuleStands trans.now.sttr.looks.ranks (length trans.now.sttr.looks.rules))) trans.now.sttr.looks.rules }
{
    let looks = looks_of(&trans.sttr);
    let rules = trans.sttr.rules();
    Second { looks, rules }
}
