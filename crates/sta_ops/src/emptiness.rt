//! Whether a language has trees, and a least one.

ghost use Rattle.std.specs.Prelude.{◌≡◌, ◌≤◌, ◌<◌, length, IfOk, IfErr, IfSome, MatchOption};
ghost use Rattle.model_sta.specs.Least.{rows_of, counts_of};
ghost use Rattle.model_sta.specs.Sets.{set_of};
ghost use Rattle.sta_core.specs.Sta.{automaton_of, AtomsFit};
ghost use Rattle.sta_classes.specs.Meant.{StopsClasses, IsTableOf, IsBuilt};
ghost use Rattle.sta_classes.specs.Plain.{class_row};
ghost use Rattle.sta_classes.specs.declared.class.TheConstants.{CAP};
ghost use Rattle.sta_ops.specs.Asked.{is_wanted, has_asked, IsAnswer};
ghost use Rattle.sta_ops.specs.Empty.{IsEmptyAnswer};
ghost use Rattle.sta_ops.specs.LeastClass.{is_better, HasNoClass, IsLeastClass};

use fast_fault::Memory;
use fast_tree::Tree;
use label_core::Theory;
use sta_classes::{ClassStop, Table, classes};
use sta_core::Lang;
use std::alloc::Global;

/// What is asked for: no such tree, one with the least number of nodes, or only trees of more than 1,048,576 nodes.
#[derive(Drop)]
pub enum Found<V> {
    Absent,
    Shown(Tree<V>),
    TooBig,
}

/// Which trees are wanted of two languages: those in exactly one of them, in the first one alone, or in both.
#[derive(Clone, Copy)]
pub enum Wanted {
    One,
    First,
    Both,
}

impl Wanted {
    fn holds(self, first: bool, second: bool) -> bool
        ensures { result ≡ is_wanted self first second }
    {
        match self {
            Wanted::One => first != second,
            Wanted::First => first && !second,
            Wanted::Both => first && second,
        }
    }
}

/// What the states that accept a tree are asked for: one, or what is wanted of two.
#[derive(Clone, Copy)]
pub enum Asked {
    Has(u64),
    Two(Wanted, u64, u64),
}

/// Whether the trees of the class have what is asked.
fn is_asked<A, V>(table: &Table<A, V>, class: u32, asked: Asked) -> bool
    requires { class < length table.now.found }
    ensures { result ≡ has_asked asked (class_row table.now class) }
{
    match asked {
        Asked::Has(state) => table.has(class, state),
        Asked::Two(wanted, first, second) => {
            wanted.holds(table.has(class, first), table.has(class, second))
        }
    }
}

/// Whether the class has a smaller least tree than the best one so far.
fn is_better<A, V>(table: &Table<A, V>, class: u32, best: Option<u32>) -> bool
    requires class { class < length table.now.found }
    requires best { IfSome best (λ b. b < length table.now.found) }
    ensures { result ≡ is_better (counts_of table.now.found) class best }
{
    match best {
        None => true,
        Some(best) => table.nodes(class) < table.nodes(best),
    }
}

/// A class that has what is asked, with the smallest least tree, if there is one.
fn least_class<A, V>(table: &Table<A, V>, asked: Asked) -> Option<u32>
    ensures { MatchOption result (HasNoClass (rows_of table.now.found) (counts_of table.now.found) (has_asked asked)) (IsLeastClass (rows_of table.now.found) (counts_of table.now.found) (has_asked asked)) }
{
    let mut best = None;
    'classes: for class in 0..table.len() {
        if is_asked(table, class, asked) && is_better(table, class, best) {
            best = Some(class);
        }
    }
    best
}

/// A least tree whose states are as asked. It has a depth of at most `most`.
pub fn least_tree<T: Theory>(
    theory: &T,
    alloc: Global,
    table: &Table<T::Atom, T::Value>,
    asked: Asked,
    most: u32,
) -> Result<Found<T::Value>, Memory>
    requires table { IsTableOf (T.meaning theory.now) table.now.machine table.now }
    requires built { IsBuilt (T.meaning theory.now) CAP table.now }
    requires few { length table.now.found ≤ most }
    ensures { IfOk result (IsAnswer (T.meaning theory.now) table.now.machine.ranks (λ t. has_asked asked (set_of (automaton_of T.atom_holds table.now.machine) t)) most) }
{
    match least_class(table, asked) {
        None => Ok(Found::Absent),
        Some(class) => match table.witness(theory, alloc, class)? {
            Some(tree) => Ok(Found::Shown(tree)),
            None => Ok(Found::TooBig),
        },
    }
}

/// Whether the language has trees, and a least one. It has a depth of at most `most`.
pub fn empty<T: Theory>(
    theory: &T,
    alloc: Global,
    lang: &Lang<T::Atom>,
    most: u32,
) -> Result<Found<T::Value>, ClassStop<T::Chain>>
    requires fit { AtomsFit (T.atom_fits theory.now) lang.now.sta }
    ensures found { IfOk result (IsEmptyAnswer (T.meaning theory.now) lang.now.sta lang.now.state most) }
    ensures stop { IfErr result (StopsClasses (T.meaning theory.now) lang.now.sta most) }
{
    let table = classes(theory, alloc, &lang.sta, most)?;
    let found = least_tree(theory, alloc, &table, Asked::Has(lang.state), most)?;
    Ok(found)
}
