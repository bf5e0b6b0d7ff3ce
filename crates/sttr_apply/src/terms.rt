//! What is found of terms at a node, over what is found of the calls on its children.

ghost use Rattle.std.specs.Prelude.{◌≡◌, ◌≤◌, ℕ, true, [], ◌∷◌, map, length, All, None, IfOk, OnOk};
ghost use Rattle.model_tree.specs.Limits.{most_nodes};
ghost use Rattle.model_tree.specs.Tree.{label_of, children_of, relabel_all};
ghost use Rattle.model_sttr.specs.Terms.{on, with_maps};
ghost use Rattle.model_sttr.specs.Transducer.{identity, run};
ghost use Rattle.label_core.specs.Meaning.{KeepsValue};
ghost use Rattle.sta_core.specs.Sta.{automaton_of};
ghost use Rattle.sttr_core.specs.Fits.{EveryMap};
ghost use Rattle.sttr_core.specs.Machine.{transducer_of};
ghost use Rattle.sttr_core.specs.Terms.{plain_term};
ghost use Rattle.sta_marks.specs.Nodes.{nodes_of, nodes_of_all};
ghost use Rattle.apply_laws.specs.Listing.{each_kept};
ghost use Rattle.apply_laws.specs.Found.{listed};
ghost use Rattle.apply_laws.specs.Terms.{IsTermFound, ArePartsFound, AreTermsFound, IsCallFoundAt};
ghost use Rattle.sttr_apply.specs.Calls.{called, calls, calls_of};
ghost use Rattle.sttr_apply.specs.Labels.{keeps, Outside};
ghost use Rattle.sttr_apply.specs.Plain.{out_cut, found_of, rows_found};
ghost use Rattle.sttr_apply.specs.Sizes.{StandsAt, IsScene};
ghost use Rattle.sttr_apply.specs.Tables.{IsTable, HasUses, KeepsUses, lists_in, parts_in};

use crate::calls::{Entry, take};
use crate::merge::join;
use crate::nodes::build;
use crate::outs::{Found, FoundRows, Listing, Load, MOST_LEVELS, Out, Row, RowListing};
use crate::products::combine;
use crate::scene::Scene;
use fast_cut::Cut;
use fast_fault::Memory;
use fast_tree::Tree;
use label_core::Labels;
use std::alloc::Global;
use sttr_core::Term;

/// A tree whose root is at work, and the number of its first child's node.
#[derive(Drop)]
pub struct Place<'t, V> {
    pub tree: &'t Tree<V>,
    pub first: u32,
}

/// Nothing at all.
fn nothing<'t, V>(alloc: Global) -> Listing<'t, V>
    ensures cuts { map out_cut result.outs.items ≡ [] }
    ensures far { result.far ≡ None }
{
    Listing {
        outs: Vec::new(alloc),
        far: None,
    }
}

/// This output alone.
fn alone<'t, V: Drop>(alloc: Global, out: Out<'t, V>) -> Result<Listing<'t, V>, Memory>
    requires { out.nodes ≤ most_nodes }
    ensures cuts { IfOk result (λ listing. map out_cut listing.outs.items ≡ out_cut out.entry ∷ []) }
    ensures far { IfOk result (λ listing. listing.far ≡ None) }
{
    let mut outs = Vec::with_capacity(alloc, 1)?;
    outs.push(out)?;
    Ok(Listing { outs, far: None })
}

impl<'a, 'r, T: Labels> Scene<'a, 'r, T> {
    /// What is found of the call of a state on a child, for one use.
    fn call<'t>(
        &self,
        place: &Place<'t, T::Value>,
        state: u64,
        child: u32,
        table: &mut Vec<Vec<Entry<'t, T::Value>>>,
    ) -> Result<Listing<'t, T::Value>, Memory>
        requires table { IsTable T.label_of T.Value.cmp (transducer_of T.atom_holds T.make self.now.sttr.now) place.now.tree.now (lists_in table.old.items) }
        requires uses { HasUses (lists_in table.old.items) (called state child) }
        ensures found { IfOk result (λ listing. IsCallFoundAt T.label_of T.Value.cmp keeps Outside (transducer_of T.atom_holds T.make self.now.sttr.now) state child (children_of place.now.tree.now) (listed (map out_cut listing.outs.items) listing.far)) }
        ensures table { OnOk result (IsTable T.label_of T.Value.cmp (transducer_of T.atom_holds T.make self.now.sttr.now) place.now.tree.now (lists_in table.new.items)) }
        ensures uses { OnOk result (KeepsUses (lists_in table.old.items) (lists_in table.new.items) (called state child)) }
    {
        if child as usize >= table.len() {
            return Ok(nothing(self.alloc));
        }
        let entries = &mut table[child as usize];
        let listing = take(self.theory, self.alloc, entries, state)?;
        Ok(listing)
    }

    /// The child as it is, if there is one.
    fn kept<'t>(
        &self,
        place: &Place<'t, T::Value>,
        child: u32,
    ) -> Result<Found<'t, T::Value>, Memory>
        requires scene { IsScene T.label_of (automaton_of T.atom_holds self.now.sttr.now.looks) self.now.root.now self.now.sizes.now self.now.marks.now.rows }
        requires placed { StandsAt place.now.first (nodes_of_all (children_of place.now.tree.now)) (nodes_of self.now.root.now) }
        requires kept { each_kept keeps (relabel_all T.label_of (children_of place.now.tree.now)) ≡ true }
        ensures { IfOk result (λ found. IsTermFound T.label_of T.Value.cmp keeps Outside (transducer_of T.atom_holds T.make self.now.sttr.now) (children_of place.now.tree.now) (T.label_of (label_of place.now.tree.now)) (on identity child) (found_of found)) }
    {
        let children = place.tree.children();
        let child = child as usize;
        if child >= children.len() {
            return Ok(Found::Listed(nothing(self.alloc)));
        }
        let number = self.number_of(place.first, children, child);
        let size = self.sizes[number as usize];
        let levels = size.levels as u64;
        if levels > MOST_LEVELS {
            return Ok(Found::TooMuch(Load::Depth));
        }
        let out = Out {
            cut: Cut::Keep(&children[child]),
            nodes: size.nodes as u64,
            levels,
        };
        let listing = alone(self.alloc, out)?;
        Ok(Found::Listed(listing))
    }

    /// What is found of a term.
    #[cycle(term)]
    fn term_found<'t>(
        &self,
        place: &Place<'t, T::Value>,
        term: &Term<T::Map>,
        table: &mut Vec<Vec<Entry<'t, T::Value>>>,
    ) -> Result<Found<'t, T::Value>, Memory>
        requires scene { IsScene T.label_of (automaton_of T.atom_holds self.now.sttr.now.looks) self.now.root.now self.now.sizes.now self.now.marks.now.rows }
        requires placed { StandsAt place.now.first (nodes_of_all (children_of place.now.tree.now)) (nodes_of self.now.root.now) }
        requires kept { each_kept keeps (relabel_all T.label_of (children_of place.now.tree.now)) ≡ true }
        requires value { KeepsValue (T.meaning self.now.theory.now) (label_of place.now.tree.now) }
        requires maps { EveryMap (T.map_fits self.now.theory.now) (plain_term term.now) }
        requires table { IsTable T.label_of T.Value.cmp (transducer_of T.atom_holds T.make self.now.sttr.now) place.now.tree.now (lists_in table.old.items) }
        requires uses { HasUses (lists_in table.old.items) (λ q k. calls q k (plain_term term.now)) }
        ensures found { IfOk result (λ found. IsTermFound T.label_of T.Value.cmp keeps Outside (transducer_of T.atom_holds T.make self.now.sttr.now) (children_of place.now.tree.now) (T.label_of (label_of place.now.tree.now)) (with_maps T.make (plain_term term.now)) (found_of found)) }
        ensures table { OnOk result (IsTable T.label_of T.Value.cmp (transducer_of T.atom_holds T.make self.now.sttr.now) place.now.tree.now (lists_in table.new.items)) }
        ensures uses { OnOk result (KeepsUses (lists_in table.old.items) (lists_in table.new.items) (λ q k. calls q k (plain_term term.now))) }
    {
        match term {
            Term::Same(child) => {
                let found = self.kept(place, *child)?;
                Ok(found)
            }
            Term::Call(state, child) => {
                let listing = self.call(place, *state, *child, table)?;
                Ok(Found::Listed(listing))
            }
            Term::Node(constructor, map, parts) => {
                let rows = self.parts_found(place, parts, table)?;
                let value = place.tree.label();
                let found = build(self.theory, self.alloc, *constructor, map, value, rows)?;
                Ok(found)
            }
        }
    }

    /// What is found of the parts of a node.
    #[cycle(term)]
    fn parts_found<'t>(
        &self,
        place: &Place<'t, T::Value>,
        parts: &[Term<T::Map>],
        table: &mut Vec<Vec<Entry<'t, T::Value>>>,
    ) -> Result<FoundRows<'t, T::Value>, Memory>
        requires scene { IsScene T.label_of (automaton_of T.atom_holds self.now.sttr.now.looks) self.now.root.now self.now.sizes.now self.now.marks.now.rows }
        requires placed { StandsAt place.now.first (nodes_of_all (children_of place.now.tree.now)) (nodes_of self.now.root.now) }
        requires kept { each_kept keeps (relabel_all T.label_of (children_of place.now.tree.now)) ≡ true }
        requires value { KeepsValue (T.meaning self.now.theory.now) (label_of place.now.tree.now) }
        requires maps { All (λ p. EveryMap (T.map_fits self.now.theory.now) (plain_term p)) parts.now }
        requires table { IsTable T.label_of T.Value.cmp (transducer_of T.atom_holds T.make self.now.sttr.now) place.now.tree.now (lists_in table.old.items) }
        requires uses { HasUses (lists_in table.old.items) (λ q k. calls_of q k (map plain_term parts.now)) }
        ensures found { IfOk result (λ found. ArePartsFound T.label_of T.Value.cmp keeps Outside (transducer_of T.atom_holds T.make self.now.sttr.now) (children_of place.now.tree.now) (T.label_of (label_of place.now.tree.now)) (parts_in (map (λ p. with_maps T.make (plain_term p)) parts.now)) (rows_found found)) }
        ensures table { OnOk result (IsTable T.label_of T.Value.cmp (transducer_of T.atom_holds T.make self.now.sttr.now) place.now.tree.now (lists_in table.new.items)) }
        ensures uses { OnOk result (KeepsUses (lists_in table.old.items) (lists_in table.new.items) (λ q k. calls_of q k (map plain_term parts.now))) }
    {
        let mut rows = Vec::with_capacity(self.alloc, 1)?;
        rows.push(Row {
            parts: Vec::with_capacity(self.alloc, parts.len())?,
            nodes: 0,
            levels: 0,
        })?;
        let mut found = FoundRows::Listed(RowListing { rows, far: None });
        let mut left = parts.len();
        'parts: while left > 0 {
            left -= 1;
            let first = self.term_found(place, &parts[left], table)?;
            found = combine(self.theory, self.alloc, first, found)?;
        }
        Ok(found)
    }

    /// What is found of some terms together.
    pub fn terms_found<'t>(
        &self,
        place: &Place<'t, T::Value>,
        terms: &[&Term<T::Map>],
        table: &mut Vec<Vec<Entry<'t, T::Value>>>,
    ) -> Result<Found<'t, T::Value>, Memory>
        requires scene { IsScene T.label_of (automaton_of T.atom_holds self.now.sttr.now.looks) self.now.root.now self.now.sizes.now self.now.marks.now.rows }
        requires placed { StandsAt place.now.first (nodes_of_all (children_of place.now.tree.now)) (nodes_of self.now.root.now) }
        requires kept { each_kept keeps (relabel_all T.label_of (children_of place.now.tree.now)) ≡ true }
        requires value { KeepsValue (T.meaning self.now.theory.now) (label_of place.now.tree.now) }
        requires maps { All (λ t. EveryMap (T.map_fits self.now.theory.now) (plain_term t.now)) terms.now }
        requires table { IsTable T.label_of T.Value.cmp (transducer_of T.atom_holds T.make self.now.sttr.now) place.now.tree.now (lists_in table.old.items) }
        requires uses { HasUses (lists_in table.old.items) (λ q k. calls_of q k (map (λ t. plain_term t.now) terms.now)) }
        ensures found { IfOk result (λ found. AreTermsFound T.label_of T.Value.cmp keeps Outside (transducer_of T.atom_holds T.make self.now.sttr.now) (children_of place.now.tree.now) (T.label_of (label_of place.now.tree.now)) (map (λ t. with_maps T.make (plain_term t.now)) terms.now) (found_of found)) }
        ensures table { OnOk result (IsTable T.label_of T.Value.cmp (transducer_of T.atom_holds T.make self.now.sttr.now) place.now.tree.now (lists_in table.new.items)) }
        ensures uses { OnOk result (KeepsUses (lists_in table.old.items) (lists_in table.new.items) (λ q k. calls_of q k (map (λ t. plain_term t.now) terms.now))) }
    {
        let mut listing = nothing(self.alloc);
        'terms: for term in terms {
            match self.term_found(place, *term, table)? {
                Found::TooMuch(load) => return Ok(Found::TooMuch(load)),
                Found::Listed(more) => match join(self.alloc, listing, more)? {
                    Found::TooMuch(load) => return Ok(Found::TooMuch(load)),
                    Found::Listed(both) => listing = both,
                },
            }
        }
        Ok(Found::Listed(listing))
    }
}
