//! Whether rules meet, and where.

ghost use Rattle.std.specs.Prelude.{◌≡◌, ◌≤◌, true, [], ⊤, length, get_or, All, IfOk, IfErr, MatchOption};
ghost use Rattle.std.specs.List.{list_any};
ghost use Rattle.model_tree.specs.Tree.{relabel, EveryLabel};
ghost use Rattle.label_core.specs.Meaning.{KeepsValue};
ghost use Rattle.sta_core.specs.Fits.{RuleFits};
ghost use Rattle.sta_core.specs.Sta.{AtomsFit};
ghost use Rattle.sttr_core.specs.Fits.{LabelsFit};
ghost use Rattle.sttr_single.specs.Joints.{DemandsOwn, with_one, with_each, joint_applies};
ghost use Rattle.sttr_single.specs.Overlap.{IsOverlap, StopsOverlap};
ghost use Rattle.sttr_single.specs.Shown.{HasNoneFrom, IsOneFrom, IsShownBy};

use crate::joints::{Joining, Joint, Place};
use crate::states::{each_state, looks_of, one_state, with_states};
use fast_fault::Memory;
use fast_tree::Tree;
use label_core::{Duplicate, Labels, Theory};
use sta_classes::ClassStop;
use sta_core::{Lang, Sta};
use sta_marks::{Marks, mark_nodes};
use sta_ops::{Found, empty};
use std::alloc::Global;
use sttr_core::Sttr;

/// Two rules of a state, by their places in its list, and a tree to which both apply.
#[derive(Drop)]
pub struct Meeting<V> {
    pub state: u64,
    pub first: u64,
    pub second: u64,
    pub tree: Tree<V>,
}

/// What is known of rules with different terms: no two of a state apply to one tree, two do, or two do but only to trees of more
/// than 1,048,576 nodes.
#[derive(Drop)]
pub enum OverlapFound<V> {
    Plain,
    Meets(Meeting<V>),
    TooBig,
}

/// The trees to which one of the joints applies, by a state behind those of the lookahead.
fn where_one_applies<A: Duplicate + Drop>(
    alloc: Global,
    looks: &Sta<A>,
    joints: &[Joint<A>],
) -> Result<Lang<A>, Memory>
    requires { All (λ x. RuleFits looks.now.ranks (length looks.now.rules) x.rule) joints.now }
    ensures sta { IfOk result (λ lang. lang.sta ≡ with_one looks.now joints.now) }
    ensures state { IfOk result (λ lang. lang.state ≡ length looks.now.rules) }
{
    let states = one_state(alloc, joints)?;
    let sta = with_states(alloc, looks, states)?;
    let state = looks.states();
    Ok(Lang { sta, state })
}

/// The lookahead with a state for each joint, which accepts the trees to which it applies.
fn where_each_applies<A: Duplicate + Drop>(
    alloc: Global,
    looks: &Sta<A>,
    joints: &[Joint<A>],
) -> Result<Sta<A>, Memory>
    requires { All (λ x. RuleFits looks.now.ranks (length looks.now.rules) x.rule) joints.now }
    ensures { IfOk result (λ sta. sta ≡ with_each looks.now joints.now) }
{
    let states = each_state(alloc, joints)?;
    with_states(alloc, looks, states)
}

/// The first state, of those from one on and below another, that accepts the whole tree.
fn first_marked(marks: &Marks, from: u64, end: u64) -> Option<u64>
    ensures { MatchOption result (HasNoneFrom (get_or marks.now.rows 0 []) from end) (IsOneFrom (get_or marks.now.rows 0 []) from end) }
{
    'states: for state in from..end {
        if marks.has(0, state) {
            return Some(state);
        }
    }
    None
}

/// The rules of a joint that applies to the tree.
fn shown<T: Theory>(
    theory: &T,
    alloc: Global,
    looks: &Sta<T::Atom>,
    joints: &[Joint<T::Atom>],
    tree: Tree<T::Value>,
) -> Result<Meeting<T::Value>, Memory>
    requires own { DemandsOwn looks.now }
    requires rules { All (λ x. RuleFits looks.now.ranks (length looks.now.rules) x.rule) joints.now }
    requires atoms { AtomsFit (T.atom_fits theory.now) (with_each looks.now joints.now) }
    requires labels { EveryLabel (KeepsValue (T.meaning theory.now)) tree }
    requires applies { list_any (joint_applies T.atom_holds looks.now (relabel T.label_of tree)) joints.now ≡ true }
    ensures { IfOk result (IsShownBy T.atom_holds T.label_of looks.now joints.now tree) }
{
    let sta = where_each_applies(alloc, looks, joints)?;
    let marks = mark_nodes(theory, alloc, &sta, &tree)?;
    let own = looks.states();
    let Some(marked) = first_marked(&marks, own, sta.states()) else {
        unreachable!()
    };
    let place = joints[(marked - own) as usize].place;
    Ok(Meeting {
        state: place.state,
        first: place.first,
        second: place.second,
        tree,
    })
}

/// Whether two rules of a state with different terms both apply to some tree. One that is shown has a depth of at most `most`.
pub fn overlap<T: Labels>(
    theory: &T,
    alloc: Global,
    sttr: &Sttr<T::Atom, T::Map>,
    most: u32,
) -> Result<OverlapFound<T::Value>, ClassStop<T::Chain>>
    requires labels { LabelsFit (T.atom_fits theory.now) (T.map_fits theory.now) sttr.now }
    ensures overlap { IfOk result (IsOverlap T.Map.eq (T.meaning theory.now) sttr.now most) }
    ensures stop { IfErr result (StopsOverlap T.Map.eq (T.meaning theory.now) sttr.now most) }
{
    let joining = Joining {
        theory,
        alloc,
        sttr,
    };
    let joints = joining.joints()?;
    if joints.is_empty() {
        return Ok(OverlapFound::Plain);
    }
    let looks = looks_of(sttr);
    let lang = where_one_applies(alloc, looks, &joints)?;
    match empty(theory, alloc, &lang, most)? {
        Found::Absent => Ok(OverlapFound::Plain),
        Found::Shown(tree) => {
            let meeting = shown(theory, alloc, looks, &joints, tree)?;
            Ok(OverlapFound::Meets(meeting))
        }
        Found::TooBig => Ok(OverlapFound::TooBig),
    }
}
