//! What is found of calls on a tree, each once, from the leaves up.

ghost use Rattle.std.specs.Prelude.{◌≡◌, ◌<◌, true, map, All, IfOk, IfErr};
ghost use Rattle.model_tree.specs.Tree.{relabel, relabel_all, label_of, children_of, EveryLabel, EveryLabelOfAll};
ghost use Rattle.model_sttr.specs.Terms.{with_maps};
ghost use Rattle.model_sttr.specs.Transducer.{out_rules};
ghost use Rattle.label_core.specs.Meaning.{KeepsValue};
ghost use Rattle.sta_core.specs.Sta.{automaton_of};
ghost use Rattle.sttr_core.specs.Fits.{EveryMap, LabelsFit};
ghost use Rattle.sttr_core.specs.Machine.{transducer_of};
ghost use Rattle.sttr_core.specs.Terms.{plain_term};
ghost use Rattle.sta_marks.specs.Nodes.{nodes_of, nodes_of_all};
ghost use Rattle.apply_laws.specs.Listing.{all_kept, each_kept};
ghost use Rattle.apply_laws.specs.Reached.{terms_of};
ghost use Rattle.sttr_apply.specs.Calls.{calls_each, used, asks_in, uses_in};
ghost use Rattle.sttr_apply.specs.Labels.{keeps};
ghost use Rattle.sttr_apply.specs.Sizes.{StandsAt, IsScene};
ghost use Rattle.sttr_apply.specs.Solve.{IsStop, IsStopBelow, IsEntry};
ghost use Rattle.sttr_apply.specs.Tables.{IsTable, HasUses, lists_in};

use crate::calls::{Ask, Entry, asks_on};
use crate::outs::Found;
use crate::scene::Scene;
use crate::stop::ApplyStop;
use crate::terms::Place;
use fast_fault::Memory;
use fast_tree::Tree;
use label_core::Labels;
use sttr_core::Term;

impl<'a, 'r, T: Labels> Scene<'a, 'r, T> {
    /// The terms of the rules that apply, for each of the states that are asked.
    fn all_terms(
        &self,
        first: u32,
        tree: &Tree<T::Value>,
        asks: &[Ask],
    ) -> Result<Vec<Vec<&'a Term<T::Map>>>, Memory>
        requires fits { LabelsFit (T.atom_fits self.now.theory.now) (T.map_fits self.now.theory.now) self.now.sttr.now }
        requires scene { IsScene T.label_of (automaton_of T.atom_holds self.now.sttr.now.looks) self.now.root.now self.now.sizes.now self.now.marks.now.rows }
        requires placed { StandsAt first (nodes_of_all (children_of tree.now)) (nodes_of self.now.root.now) }
        requires value { KeepsValue (T.meaning self.now.theory.now) (label_of tree.now) }
        ensures terms { IfOk result (λ lists. map (λ those. map (λ t. with_maps T.make (plain_term t.now)) those.items) lists.items ≡ map (λ a. terms_of (automaton_of T.atom_holds self.now.sttr.now.looks) (relabel T.label_of tree.now) (out_rules (transducer_of T.atom_holds T.make self.now.sttr.now) a.state)) asks.now) }
        ensures maps { IfOk result (λ lists. All (λ those. All (λ t. EveryMap (T.map_fits self.now.theory.now) (plain_term t.now)) those.items) lists.items) }
    {
        let mut lists = Vec::with_capacity(self.alloc, asks.len())?;
        'asks: for ask in asks {
            lists.push(self.terms_at(first, tree, ask.state)?)?;
        }
        Ok(lists)
    }

    /// What is found of the calls that are asked, over that of the calls on the children.
    fn entries<'t>(
        &self,
        place: &Place<'t, T::Value>,
        asks: &[Ask],
        lists: &[Vec<&Term<T::Map>>],
        table: &mut Vec<Vec<Entry<'t, T::Value>>>,
    ) -> Result<Vec<Entry<'t, T::Value>>, ApplyStop>
        requires scene { IsScene T.label_of (automaton_of T.atom_holds self.now.sttr.now.looks) self.now.root.now self.now.sizes.now self.now.marks.now.rows }
        requires placed { StandsAt place.now.first (nodes_of_all (children_of place.now.tree.now)) (nodes_of self.now.root.now) }
        requires kept { each_kept keeps (relabel_all T.label_of (children_of place.now.tree.now)) ≡ true }
        requires value { KeepsValue (T.meaning self.now.theory.now) (label_of place.now.tree.now) }
        requires some { All (λ a. 0 < a.uses) asks.now }
        requires terms { map (λ those. map (λ t. with_maps T.make (plain_term t.now)) those.items) lists.now ≡ map (λ a. terms_of (automaton_of T.atom_holds self.now.sttr.now.looks) (relabel T.label_of place.now.tree.now) (out_rules (transducer_of T.atom_holds T.make self.now.sttr.now) a.state)) asks.now }
        requires maps { All (λ those. All (λ t. EveryMap (T.map_fits self.now.theory.now) (plain_term t.now)) those.items) lists.now }
        requires table { IsTable T.label_of T.Value.cmp (transducer_of T.atom_holds T.make self.now.sttr.now) place.now.tree.now (lists_in table.old.items) }
        requires uses { HasUses (lists_in table.old.items) (λ q k. calls_each q k (map (λ those. map (λ t. plain_term t.now) those.items) lists.now)) }
        ensures entries { IfOk result (λ entries. All (IsEntry (transducer_of T.atom_holds T.make self.now.sttr.now) T.label_of T.Value.cmp place.now.tree.now) entries.items) }
        ensures uses { IfOk result (λ entries. uses_in entries.items ≡ asks_in asks.now) }
        ensures stop { IfErr result (IsStop (transducer_of T.atom_holds T.make self.now.sttr.now) (used (asks_in asks.now)) (relabel T.label_of place.now.tree.now)) }
    {
        let mut entries = Vec::with_capacity(self.alloc, asks.len())?;
        let mut i = 0;
        'asks: for ask in asks {
            match self.terms_found(place, &lists[i], table)? {
                Found::TooMuch(load) => return Err(ApplyStop::Load(load)),
                Found::Listed(listing) => entries.push(Entry {
                    state: ask.state,
                    uses: ask.uses,
                    listing,
                })?,
            }
            i += 1;
        }
        Ok(entries)
    }

    /// What is found of the calls on the children.
    #[cycle(solve)]
    fn below<'t>(
        &self,
        place: &Place<'t, T::Value>,
        lists: &[Vec<&Term<T::Map>>],
    ) -> Result<Vec<Vec<Entry<'t, T::Value>>>, ApplyStop>
        requires fits { LabelsFit (T.atom_fits self.now.theory.now) (T.map_fits self.now.theory.now) self.now.sttr.now }
        requires scene { IsScene T.label_of (automaton_of T.atom_holds self.now.sttr.now.looks) self.now.root.now self.now.sizes.now self.now.marks.now.rows }
        requires placed { StandsAt place.now.first (nodes_of_all (children_of place.now.tree.now)) (nodes_of self.now.root.now) }
        requires kept { each_kept keeps (relabel_all T.label_of (children_of place.now.tree.now)) ≡ true }
        requires values { EveryLabelOfAll (KeepsValue (T.meaning self.now.theory.now)) (children_of place.now.tree.now) }
        ensures table { IfOk result (λ table. IsTable T.label_of T.Value.cmp (transducer_of T.atom_holds T.make self.now.sttr.now) place.now.tree.now (lists_in table.items)) }
        ensures uses { IfOk result (λ table. HasUses (lists_in table.items) (λ q k. calls_each q k (map (λ those. map (λ t. plain_term t.now) those.items) lists.now))) }
        ensures stop { IfErr result (IsStopBelow (transducer_of T.atom_holds T.make self.now.sttr.now) (λ q k. calls_each q k (map (λ those. map (λ t. plain_term t.now) those.items) lists.now)) (relabel_all T.label_of (children_of place.now.tree.now))) }
    {
        let mut table = Vec::new(self.alloc);
        let mut number = place.first;
        let mut i: u32 = 0;
        'children: for child in place.tree.children() {
            let asks = asks_on(self.alloc, lists, i)?;
            table.push(self.solve(child, number, &asks)?)?;
            number += self.sizes[number as usize].nodes;
            i += 1;
        }
        Ok(table)
    }

    /// What is found of the calls of states on the tree.
    #[cycle(solve)]
    pub fn solve<'t>(
        &self,
        tree: &'t Tree<T::Value>,
        number: u32,
        asks: &[Ask],
    ) -> Result<Vec<Entry<'t, T::Value>>, ApplyStop>
        requires fits { LabelsFit (T.atom_fits self.now.theory.now) (T.map_fits self.now.theory.now) self.now.sttr.now }
        requires scene { IsScene T.label_of (automaton_of T.atom_holds self.now.sttr.now.looks) self.now.root.now self.now.sizes.now self.now.marks.now.rows }
        requires placed { StandsAt number (nodes_of tree.now) (nodes_of self.now.root.now) }
        requires kept { all_kept keeps (relabel T.label_of tree.now) ≡ true }
        requires values { EveryLabel (KeepsValue (T.meaning self.now.theory.now)) tree.now }
        requires some { All (λ a. 0 < a.uses) asks.now }
        ensures entries { IfOk result (λ entries. All (IsEntry (transducer_of T.atom_holds T.make self.now.sttr.now) T.label_of T.Value.cmp tree.now) entries.items) }
        ensures uses { IfOk result (λ entries. uses_in entries.items ≡ asks_in asks.now) }
        ensures stop { IfErr result (IsStop (transducer_of T.atom_holds T.make self.now.sttr.now) (used (asks_in asks.now)) (relabel T.label_of tree.now)) }
    {
        if asks.len() == 0 {
            return Ok(Vec::new(self.alloc));
        }
        let first = number + 1;
        let lists = self.all_terms(first, tree, asks)?;
        let place = Place { tree, first };
        let mut table = self.below(&place, &lists)?;
        let entries = self.entries(&place, asks, &lists, &mut table)?;
        Ok(entries)
    }
}
