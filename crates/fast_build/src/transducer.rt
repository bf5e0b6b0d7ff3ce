//! The transducer of a transformation.

ghost use Rattle.std.specs.Prelude.{◌≡◌, ℕ, IfOk, List, true, is_some};
ghost use Rattle.model_program.specs.Syntax.{Name};
ghost use Rattle.model_grammar.specs.Syntax.{named};
ghost use Rattle.fast_tree.specs.Signatures.{plain_signature};
ghost use Rattle.model_meaning.specs.Types.{input_of, output_of};
ghost use Rattle.model_run.specs.Parts.{IsFrom};
ghost use Rattle.fast_build.specs.Items.{items_of};
ghost use Rattle.fast_build.specs.Transformations.{find_trans};
ghost use Rattle.fast_build.specs.Transducer.{IsTransducerOf};
ghost use Rattle.fast_build.specs.CarriedTrans.{IsBuiltTransFor};

use crate::automaton::{ranks_of, states_for};
use crate::called::reach_calls;
use crate::looked::{gather, looked};
use crate::named::trans;
use crate::out_rules::out_states_for;
use fast_fault::{Memory, Text};
use fast_tree::Signature;
use indexmap::IndexSet;
use program_check::Checked;
use record_label::{RowAtom, RowMap};
use sta_core::Sta;
use std::alloc::Global;
use sttr_core::{Sttr, Trans};

/// The transducer of a transformation, and for each of its states the name of the transformation that it stands for.
#[derive(Drop)]
pub struct BuiltTrans {
    pub trans: Trans<RowAtom, RowMap>,
    pub names: IndexSet<Text>,
}

/// The transducer of the transformation of this name, between these types.
fn transducer(
    alloc: Global,
    checked: &Checked,
    from: &Signature,
    into: &Signature,
    name: &Text,
) -> Result<BuiltTrans, Memory>
    requires there { is_some (find_trans (items_of checked.now) name.now) ≡ true }
    requires begins { input_of (items_of checked.now) name.now ≡ plain_signature from.now }
    requires ends { output_of (items_of checked.now) name.now ≡ plain_signature into.now }
    ensures start { IfOk result (λ b. b.trans.state ≡ 0) }
    ensures transducer { IfOk result (λ b. IsTransducerOf (items_of checked.now) name.now b.names.keys b.trans.sttr) }
{
    let called = reach_calls(alloc, checked, name)?;
    let seeds = looked(alloc, &called.transformations)?;
    let looks = gather(alloc, checked, seeds)?;
    let ranks = ranks_of(alloc, &from.constructors)?;
    let states = states_for(alloc, from, &looks)?;
    let rules = out_states_for(alloc, from, into, &looks.names, &called)?;
    let sttr = Sttr::new(Sta::new(ranks, states), rules);
    Ok(BuiltTrans {
        trans: Trans { sttr, state: 0 },
        names: called.names,
    })
}

/// The transducer of the transformation of this name, with a state for each transformation that it reaches, and a lookahead
/// with a state for each language that their rules reach.
pub fn transformation(alloc: Global, checked: &Checked, name: &Text) -> Result<BuiltTrans, Memory>
    requires there { is_some (find_trans (items_of checked.now) name.now) ≡ true }
    ensures start { IfOk result (λ b. b.trans.state ≡ 0) }
    ensures transducer { IfOk result (λ b. IsTransducerOf (items_of checked.now) name.now b.names.keys b.trans.sttr) }
    ensures carried { IfOk result (λ b. (n : Name) (from into : List ℕ) → n.text ≡ name.now → IsFrom (items_of checked.now) (named n) from into → IsBuiltTransFor (items_of checked.now) n from into b.names.keys b.trans.sttr b.trans.state) }
{
    let Some(own) = trans(checked, name) else {
        unreachable!()
    };
    let Some(from) = checked.signature(&own.from.text) else {
        unreachable!()
    };
    let Some(into) = checked.signature(&own.into.text) else {
        unreachable!()
    };
    let built = transducer(alloc, checked, from, into, name)?;
    Ok(built)
}
