//! Tables.

ghost use Rattle.std.specs.Prelude.{◌≡◌, ◌≤◌, ◌<◌, ◌↔◌, IsTrue, length, get_or, IfOk, IfErr, MatchOption, All};
ghost use Rattle.model_tree.specs.Label.{Label};
ghost use Rattle.model_tree.specs.Formula.{formula_holds};
ghost use Rattle.label_core.specs.Atoms.{EachHasEqual};
ghost use Rattle.label_core.specs.Formula.{plain_formula, atoms_in};
ghost use Rattle.model_sta.specs.Sets.{has, step};
ghost use Rattle.model_sta.specs.Least.{counts_of, rows_at};
ghost use Rattle.sta_core.specs.Sta.{automaton_of, AtomsFit};
ghost use Rattle.sta_classes.specs.Guards.{all_guards, atoms_of_all};
ghost use Rattle.sta_classes.specs.Meant.{IsTableOf, IsBuilt, IsMadeUp, IsMadeTree, IsLeastOfClass, HasNoSmallTree, StopsClasses};
ghost use Rattle.sta_classes.specs.Plain.{class_row, kind_count, kind_at, HasKinds, KindsAreEnough};

use crate::class::CAP;
use crate::formula::{places, row_formula};
use crate::known::Known;
use crate::rules::each_rules;
use crate::search::Search;
use crate::stop::ClassStop;
use fast_fault::Memory;
use fast_tree::Tree;
use label_core::{Duplicate, Formula, Theory, added};
use sta_core::Sta;
use std::alloc::Global;
use std::marker::Model;

/// The sets of states that the trees of an automaton have, which are its classes, numbered in the order of their least
/// trees.
#[derive(Drop)]
pub struct Table<'a, A, V> {
    sta: &'a Sta<A>,
    known: Known<V>,
}

impl<'a, A, V> Model for Table<'a, A, V> {
    ghost use Rattle.std.specs.Prelude.{◌<◌, ◌^◌, map, length};
    ghost use Rattle.sta_classes.specs.Rows.{plain_class};
    ghost use Rattle.sta_classes.specs.Plain.{PlainTable, AreShaped, plain_place, coded_table};

    ghost Value = { PlainTable A V };

    ghost coded = { coded_table A.code V.code };

    ghost view = { λ s. record { machine = s.sta.now; found = map plain_class s.known.classes.items; places = map (λ those. map plain_place those.items) s.known.places.items } };

    ghost invariant = { λ s. (length s.known.classes.items < 2 ^ 32) × AreShaped s.sta.now.ranks (length s.known.classes.items) s.known.places.items };
}

impl<A, V> Table<'_, A, V> {
    /// How many classes there are. Takes no memory.
    pub fn len(&self) -> u32
        ensures { result ≡ length self.now.found }
    {
        self.known.classes.len() as u32
    }

    /// Whether the trees of the class are accepted by the state. Takes no memory.
    pub fn has(&self, class: u32, state: u64) -> bool
        requires { class < length self.now.found }
        ensures { result ≡ has (class_row self.now class) state }
    {
        self.known.classes[class as usize].row.has(state)
    }

    /// The number of nodes of a least tree of the class, or 1,048,577 where that is more than 1,048,576. Takes no memory.
    pub fn nodes(&self, class: u32) -> u64
        requires { class < length self.now.found }
        ensures { result ≡ get_or (counts_of self.now.found) class 0 }
    {
        self.known.classes[class as usize].nodes
    }

    /// How many kinds of classes there are at the place of the constructor. Takes no memory.
    pub fn kinds(&self, constructor: u32, place: u32) -> u32
        requires constructor { constructor < length self.now.machine.ranks }
        requires place { place < get_or self.now.machine.ranks constructor 0 }
        ensures { result ≡ kind_count self.now constructor place }
    {
        self.known.places[constructor as usize][place as usize]
            .firsts
            .len() as u32
    }

    /// The kind of the class at the place of the constructor: two classes are of one kind exactly where, for each state
    /// that some rule of the constructor demands at the place, both have it or neither has. Takes no memory.
    pub fn kind(&self, constructor: u32, place: u32, class: u32) -> u32
        requires constructor { constructor < length self.now.machine.ranks }
        requires place { place < get_or self.now.machine.ranks constructor 0 }
        requires class { class < length self.now.found }
        ensures { result ≡ kind_at self.now constructor place class }
    {
        self.known.places[constructor as usize][place as usize].kind_of[class as usize] as u32
    }
}

impl<A, V: Drop> Table<'_, A, V> {
    /// A tree of the class, by how it was found.
    fn build<T: Theory<Atom = A, Value = V>>(
        &self,
        theory: &T,
        alloc: Global,
        class: usize,
    ) -> Result<Tree<V>, Memory>
        requires made { IsMadeUp (T.meaning theory.now) CAP self.now }
        requires known { class < length self.now.found }
        ensures { IfOk result (IsMadeTree (T.meaning theory.now) CAP self.now class) }
    {
        let made = &self.known.classes[class];
        let mut children = Vec::new(alloc);
        'children: for child in &made.children {
            added(&mut children, self.build(theory, alloc, *child))?;
        }
        let label = theory.copy_value(alloc, &made.value)?;
        Ok(Tree::new(made.constructor, label, children))
    }

    /// A tree of the class with the fewest nodes, unless it has more than 1,048,576.
    pub fn witness<T: Theory<Atom = A, Value = V>>(
        &self,
        theory: &T,
        alloc: Global,
        class: u32,
    ) -> Result<Option<Tree<V>>, Memory>
        requires built { IsBuilt (T.meaning theory.now) CAP self.now }
        requires known { class < length self.now.found }
        ensures { IfOk result (λ shown. MatchOption shown (HasNoSmallTree (T.meaning theory.now) CAP self.now class) (IsLeastOfClass (T.meaning theory.now) CAP self.now class)) }
    {
        if self.known.classes[class as usize].nodes >= CAP {
            return Ok(None);
        }
        let tree = self.build(theory, alloc, class as usize)?;
        Ok(Some(tree))
    }
}

impl<A: Duplicate + Drop, V> Table<'_, A, V> {
    /// A formula that holds of exactly the labels over which children of these classes make a tree of the class.
    pub fn guard<T: Theory<Atom = A, Value = V>>(
        &self,
        theory: &T,
        alloc: Global,
        constructor: u32,
        children: &[u32],
        class: u32,
    ) -> Result<Formula<A>, Memory>
        requires built { IsBuilt (T.meaning theory.now) CAP self.now }
        requires children { All (λ k. k < length self.now.found) children.now }
        requires known { class < length self.now.found }
        ensures holds { IfOk result (λ guard. (l : Label) → IsTrue (formula_holds (λ a. T.atom_holds a l) (plain_formula guard)) ↔ (step (automaton_of T.atom_holds self.now.machine) constructor l (rows_at self.now.found children.now) ≡ class_row self.now class)) }
        ensures atoms { IfOk result (λ guard. EachHasEqual A.eq (atoms_in (plain_formula guard)) (atoms_of_all (all_guards self.now.machine.rules))) }
    {
        let children = places(alloc, children)?;
        let row = &self.known.classes[class as usize].row;
        row_formula(
            alloc,
            self.sta.rules(),
            constructor,
            &self.known.classes,
            &children,
            row,
        )
    }
}

/// Lists of children of the same kinds, place by place, have formulas by `Table::guard` that hold of the same labels.
pub fn kinds_are_enough<T: Theory>()
    ensures { KindsAreEnough T.Atom T.Value T.atom_holds }
{}

/// The table of the sets of states that trees have, where these are not more than `most`.
pub fn classes<'a, T: Theory>(
    theory: &T,
    alloc: Global,
    sta: &'a Sta<T::Atom>,
    most: u32,
) -> Result<Table<'a, T::Atom, T::Value>, ClassStop<T::Chain>>
    requires fit { AtomsFit (T.atom_fits theory.now) sta.now }
    ensures table { IfOk result (IsTableOf (T.meaning theory.now) sta.now) }
    ensures few { IfOk result (λ t. length t.found ≤ most) }
    ensures built { IfOk result (IsBuilt (T.meaning theory.now) CAP) }
    ensures kinds { IfOk result (HasKinds T.atom_holds) }
    ensures machine { IfOk result (λ t. t.machine ≡ sta.now) }
    ensures stop { IfErr result (StopsClasses (T.meaning theory.now) sta.now most) }
{
    let ranks = sta.ranks();
    let rules = sta.rules();
    let own = each_rules(alloc, rules, ranks.len())?;
    let search = Search {
        theory,
        alloc,
        ranks,
        rules,
        own: &own,
        most,
    };
    let known = search.run()?;
    Ok(Table { sta, known })
}
