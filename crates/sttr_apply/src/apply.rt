//! The outputs of a transducer on a tree.

ghost use Rattle.std.specs.Prelude.{◌≡◌, ◌≤◌, true, map, None, IfOk, IfErr};
ghost use Rattle.model_tree.specs.Tree.{relabel, EveryLabel};
ghost use Rattle.label_core.specs.Meaning.{KeepsValue};
ghost use Rattle.fast_cut.specs.Cuts.{plain_cut};
ghost use Rattle.sttr_core.specs.Fits.{LabelsFit};
ghost use Rattle.sttr_core.specs.Machine.{transducer_of};
ghost use Rattle.apply_laws.specs.Listing.{all_kept};
ghost use Rattle.sttr_apply.specs.Labels.{keeps};
ghost use Rattle.sttr_apply.specs.Outputs.{AreOutputs, IsRefused, IsFarStop};
ghost use Rattle.sta_core.specs.Sta.{automaton_of};
ghost use Rattle.sta_marks.specs.Nodes.{nodes_of};
ghost use Rattle.sttr_apply.specs.Plain.{out_cut};
ghost use Rattle.sttr_apply.specs.Sizes.{StandsAt, IsScene};

use crate::calls::{Ask, Entry};
use crate::outs::{Listing, MOST_NODES, Out};
use crate::scene::Scene;
use crate::sizes::measure;
use crate::stop::ApplyStop;
use fast_cut::Cut;
use fast_tree::Tree;
use label_core::Labels;
use sta_marks::mark_nodes;
use std::alloc::Global;
use sttr_core::Trans;

/// The cuts of a list, if all outputs are kept.
fn cuts_of<'t, V: Drop>(
    alloc: Global,
    listing: Listing<'t, V>,
) -> Result<Vec<Cut<'t, V>>, ApplyStop>
    ensures cuts { IfOk result (λ cuts. map plain_cut cuts.items ≡ map out_cut listing.entry.outs.items) }
    ensures none { IfOk result (λ _. listing.entry.far ≡ None) }
    ensures stop { IfErr result (IsFarStop listing.entry.far) }
{
    let Listing { outs, far } = listing;
    match far {
        Some(number) => return Err(ApplyStop::Range(number)),
        None => {}
    }
    let mut cuts = Vec::with_capacity(alloc, outs.len())?;
    'outs: for out in outs {
        let Out { cut, .. } = out;
        cuts.push(cut)?;
    }
    Ok(cuts)
}

impl<'a, 'r, T: Labels> Scene<'a, 'r, T> {
    /// The outputs of a state on a tree that stands at this number.
    fn outputs_of<'t>(
        &self,
        tree: &'t Tree<T::Value>,
        number: u32,
        state: u64,
    ) -> Result<Vec<Cut<'t, T::Value>>, ApplyStop>
        requires fits { LabelsFit (T.atom_fits self.now.theory.now) (T.map_fits self.now.theory.now) self.now.sttr.now }
        requires scene { IsScene T.label_of (automaton_of T.atom_holds self.now.sttr.now.looks) self.now.root.now self.now.sizes.now self.now.marks.now.rows }
        requires placed { StandsAt number (nodes_of tree.now) (nodes_of self.now.root.now) }
        requires kept { all_kept keeps (relabel T.label_of tree.now) ≡ true }
        requires values { EveryLabel (KeepsValue (T.meaning self.now.theory.now)) tree.now }
        ensures outputs { IfOk result (λ cuts. AreOutputs T.label_of T.Value.cmp (transducer_of T.atom_holds T.make self.now.sttr.now) state tree.now (map plain_cut cuts.items)) }
        ensures stop { IfErr result (IsRefused (transducer_of T.atom_holds T.make self.now.sttr.now) state (relabel T.label_of tree.now)) }
    {
        let mut asks = Vec::with_capacity(self.alloc, 1)?;
        asks.push(Ask { state, uses: 1 })?;
        let mut entries = self.solve(tree, number, &asks)?;
        match entries.pop() {
            Some(entry) => {
                let Entry { listing, .. } = entry;
                let cuts = cuts_of(self.alloc, listing)?;
                Ok(cuts)
            }
            None => Err(ApplyStop::Memory),
        }
    }
}

/// The outputs of the transducer on the tree, each once and in order. What is given unchanged is lent. A tree of more than
/// 1,048,576 nodes, which no text of trees has, counts as one for which there is no memory.
pub fn outputs<'x, 't: 'x, T: Labels>(
    theory: &'x T,
    alloc: Global,
    trans: &'x Trans<T::Atom, T::Map>,
    tree: &'t Tree<T::Value>,
) -> Result<Vec<Cut<'t, T::Value>>, ApplyStop>
    requires fits { LabelsFit (T.atom_fits theory.now) (T.map_fits theory.now) trans.now.sttr }
    requires labels { EveryLabel (KeepsValue (T.meaning theory.now)) tree.now }
    requires kept { all_kept keeps (relabel T.label_of tree.now) ≡ true }
    ensures outputs { IfOk result (λ cuts. AreOutputs T.label_of T.Value.cmp (transducer_of T.atom_holds T.make trans.now.sttr) trans.now.state tree.now (map plain_cut cuts.items)) }
    ensures stop { IfErr result (IsRefused (transducer_of T.atom_holds T.make trans.now.sttr) trans.now.state (relabel T.label_of tree.now)) }
{
    let sttr = &trans.sttr;
    let marks = mark_nodes(theory, alloc, sttr.lookahead(), tree)?;
    let mut sizes = Vec::new(alloc);
    let size = measure(tree, &mut sizes)?;
    if u64::from(size.nodes) > MOST_NODES {
        return Err(ApplyStop::Memory);
    }
    let scene = Scene {
        theory,
        alloc,
        sttr,
        root: tree,
        marks: &marks,
        sizes: &sizes,
    };
    let cuts = scene.outputs_of(tree, 0, trans.state)?;
    Ok(cuts)
}
