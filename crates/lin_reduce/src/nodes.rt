//! The search over remainders.

ghost use Rattle.std.specs.Prelude.{◌≡◌, ℕ, ℤ, List, length, MatchResult, IfOk, IsTrue, OnOk};
ghost use Rattle.math_cooper.specs.System.{IsSolvable, Solves};
ghost use Rattle.lin_reduce.specs.Parts.{AnySolvable, IsPartSolvable, IsWithin, TellsLook, TellsNever};

use crate::certificate::refutes;
use crate::cut::{Bound, Cut};
use crate::dive::dived;
use crate::fit::value_of;
use crate::line::{Line, Stop, copy_lines, variables};
use crate::moves::{Scale, Shear, scale_all, shear_all};
use crate::pins::{first_equation, first_multiple, pinned_at};
use crate::residues::{Split, copy_each, scaled, scaled_each, split_of};
use crate::rows::Rows;
use crate::search::sketch;
use crate::shears::{shear_for, sheared_each};
use crate::space::{Space, cut_of, space_of};
use crate::thin::some_thin;
use cooper_solve::{Constraint, is_hopeless, is_refuted};
use fast_fault::{LabelInt, Memory};
use std::alloc::Global;

// How many systems are looked at.
const MOST: usize = 6000;

const MOST_ENDS: usize = 10;

// How many linear programs are solved to find values of one system.
const MOST_TRIED: usize = 60;

// How often a variable is said to be small or great.
const MOST_CUTS: usize = 200;

// How many of Euclid's steps bring a condition to one variable.
const MOST_SHEARS: usize = 300;

/// What is found of a system: that no values meet it, values of the first eight variables that may, or nothing.
#[derive(Drop)]
pub enum Explored {
    Never,
    Maybe(Vec<LabelInt>),
    Open,
}

/// What is found of a node: that no values meet its system, values that may, which variable is to be split or to be small or
/// great, the place of the condition that is to be brought to one variable, or nothing.
#[derive(Drop)]
pub(crate) enum Look {
    Lost,
    Maybe(Vec<LabelInt>),
    Split(Split),
    Cut(Cut),
    Solve(usize),
    Open,
}

/// A system, what the first eight variables at the beginning are by its own, and how often one was said to be small or great.
#[derive(Drop)]
pub(crate) struct Node {
    pub(crate) system: Vec<Constraint>,
    parts: Vec<Line>,
    cuts: usize,
}

// The values of the parts.
fn values(alloc: Global, parts: &[Line], given: &[i128]) -> Result<Vec<LabelInt>, Stop> {
    let mut out = Vec::new(alloc);
    for part in parts {
        match LabelInt::try_from(value_of(part, given)?) {
            Ok(value) => out.push(value)?,
            Err(_) => return Err(Stop::TooWide),
        }
    }
    Ok(out)
}

impl Node {
    /// The system, over its own variables.
    pub(crate) fn first(alloc: Global, system: &[Constraint], count: usize) -> Result<Node, Stop>
        ensures { MatchResult result (λ n. n.system.items ≡ system.now) (λ _. Unit {0}) }
    {
        let own = copy_each(alloc, system)?;
        Ok(Node {
            system: own,
            parts: variables(alloc, count)?,
            cuts: 0,
        })
    }

    // The system with a new variable, which so many times and a rest make the old one.
    fn part(&self, alloc: Global, scale: Scale) -> Result<Node, Stop>
        ensures { MatchResult result (λ x. (n : ℕ) → IsPartSolvable n scale self.now.system.items → IsSolvable n x.system.items) (λ _. Unit {0}) }
    {
        let system = scaled_each(alloc, &self.system, scale)?;
        Ok(Node {
            system,
            parts: scale_all(alloc, &self.parts, scale)?,
            cuts: self.cuts,
        })
    }

    // The system with a new variable, which is the old one less so many times another.
    fn sheared(self, alloc: Global, shear: Shear, count: usize) -> Result<Node, Stop>
        ensures { MatchResult result (λ x. IsSolvable count self.system.items → IsSolvable count x.system.items) (λ _. Unit {0}) }
    {
        if shear.of >= count || shear.by >= count {
            return Err(Stop::TooWide);
        }
        let system = sheared_each(alloc, self.system, shear)?;
        Ok(Node {
            system,
            parts: shear_all(alloc, self.parts, shear)?,
            cuts: self.cuts,
        })
    }

    // The condition at the place is brought to one variable.
    fn narrowed(&self, alloc: Global, place: usize, count: usize) -> Result<Node, Stop>
        ensures { MatchResult result (λ x. IsSolvable count self.now.system.items → IsSolvable count x.system.items) (λ _. Unit {0}) }
    {
        let mut node = Node {
            system: copy_each(alloc, &self.system)?,
            parts: copy_lines(alloc, &self.parts)?,
            cuts: self.cuts,
        };
        for _ in 0..MOST_SHEARS {
            if place >= node.system.len() {
                return Err(Stop::TooWide);
            }
            match shear_for(&node.system[place]) {
                None => return Ok(node),
                Some(shear) => node = node.sheared(alloc, shear, count)?,
            }
        }
        Err(Stop::TooWide)
    }

    // The condition at the place is brought to one variable, which is put where it has one value.
    fn solved(&self, alloc: Global, place: usize, count: usize) -> Result<Node, Stop>
        ensures { MatchResult result (λ x. IsSolvable count self.now.system.items → IsSolvable count x.system.items) (λ _. Unit {0}) }
    {
        let node = self.narrowed(alloc, place, count)?;
        match pinned_at(alloc, &node.system, place, count)? {
            Some(scale) => node.part(alloc, scale),
            None => Ok(node),
        }
    }

    /// The node where the condition at the place is brought to one variable, at the end; it is put where it has one value.
    pub(crate) fn push_solved(
        &self,
        alloc: Global,
        place: usize,
        count: usize,
        pending: &mut Vec<Node>,
    ) -> Result<(), Stop>
        ensures part { OnOk result (IsSolvable count self.now.system.items → AnySolvable count pending.new.items) }
        ensures kept { OnOk result (AnySolvable count pending.old.items → AnySolvable count pending.new.items) }
    {
        pending.push(self.solved(alloc, place, count)?)?;
        Ok(())
    }

    // Whether the condition at the place never holds with this rest of the variable.
    fn is_lost_at(&self, alloc: Global, place: usize, scale: Scale) -> Result<bool, Stop>
        ensures { MatchResult result (λ lost. IsTrue lost → (n : ℕ) → IsPartSolvable n scale self.now.system.items → ⊥) (λ _. Unit {0}) }
    {
        if place >= self.system.len() {
            return Ok(false);
        }
        let mut row = Vec::new(alloc);
        row.push(scaled(alloc, &self.system[place], scale)?)?;
        Ok(is_refuted(&row))
    }

    // The system with this rest of the variable, at the end, unless it never holds.
    fn push_part(
        &self,
        alloc: Global,
        place: usize,
        scale: Scale,
        pending: &mut Vec<Node>,
    ) -> Result<(), Stop>
        ensures part { OnOk result ((n : ℕ) → IsPartSolvable n scale self.now.system.items → AnySolvable n pending.new.items) }
        ensures kept { OnOk result ((n : ℕ) → AnySolvable n pending.old.items → AnySolvable n pending.new.items) }
    {
        if self.is_lost_at(alloc, place, scale)? {
            return Ok(());
        }
        let part = self.part(alloc, scale)?;
        if !is_refuted(&part.system) {
            pending.push(part)?;
        }
        Ok(())
    }

    /// The system with each rest of the variable that isn't lost at once, at the end.
    pub(crate) fn push_parts(
        &self,
        alloc: Global,
        split: Split,
        count: usize,
        pending: &mut Vec<Node>,
    ) -> Result<(), Stop>
        ensures parts { OnOk result (IsSolvable count self.now.system.items → AnySolvable count pending.new.items) }
        ensures kept { OnOk result (AnySolvable count pending.old.items → AnySolvable count pending.new.items) }
    {
        if split.of >= count || split.times < 1 {
            return Err(Stop::TooWide);
        }
        let mut rest = split.times;
        while rest > 0 {
            rest -= 1;
            let scale = Scale {
                of: split.of,
                times: split.times,
                rest,
            };
            self.push_part(alloc, split.place, scale, pending)?;
        }
        Ok(())
    }

    // The system with a bound.
    fn bounded(&self, alloc: Global, count: usize, bound: Bound) -> Result<Node, Stop>
        ensures { MatchResult result (λ n. (vs : List ℤ) → length vs ≡ count → IsWithin bound vs → Solves vs self.now.system.items → Solves vs n.system.items) (λ _. Unit {0}) }
    {
        let mut system = copy_each(alloc, &self.system)?;
        system.push(bound.condition(alloc, count)?)?;
        Ok(Node {
            system,
            parts: copy_lines(alloc, &self.parts)?,
            cuts: self.cuts.saturating_add(1),
        })
    }

    // The system with a bound, at the end.
    fn push_bounded(
        &self,
        alloc: Global,
        count: usize,
        bound: Bound,
        pending: &mut Vec<Node>,
    ) -> Result<(), Stop>
        ensures part { OnOk result ((vs : List ℤ) → length vs ≡ count → IsWithin bound vs → Solves vs self.now.system.items → AnySolvable count pending.new.items) }
        ensures kept { OnOk result (AnySolvable count pending.old.items → AnySolvable count pending.new.items) }
    {
        pending.push(self.bounded(alloc, count, bound)?)?;
        Ok(())
    }

    // The systems where the variable is at most the number, and where it is more, at the end.
    fn push_cut(
        &self,
        alloc: Global,
        cut: Cut,
        count: usize,
        pending: &mut Vec<Node>,
    ) -> Result<(), Stop>
        ensures parts { OnOk result (IsSolvable count self.now.system.items → AnySolvable count pending.new.items) }
        ensures kept { OnOk result (AnySolvable count pending.old.items → AnySolvable count pending.new.items) }
    {
        self.push_bounded(alloc, count, cut.below(), pending)?;
        self.push_bounded(alloc, count, cut.above()?, pending)?;
        Ok(())
    }

    // Values of the first eight variables, if there are some of the node's own.
    fn shown(&self, alloc: Global, given: Option<Vec<i128>>) -> Result<Look, Stop>
        ensures { MatchResult result (TellsLook self.now.system.items) (λ _. Unit {0}) }
    {
        match given {
            Some(given) => Ok(Look::Maybe(values(alloc, &self.parts, &given)?)),
            None => Ok(Look::Open),
        }
    }

    // What sums of inequalities tell, by which one variable after another is left out.
    fn by_sums(&self, alloc: Global, count: usize) -> Result<Look, Stop>
        ensures { MatchResult result (TellsLook self.now.system.items) (λ _. Unit {0}) }
    {
        if is_hopeless(alloc, &self.system, count)? {
            return Ok(Look::Lost);
        }
        self.shown(alloc, dived(alloc, &self.system, count)?)
    }

    // What a linear program tells of the inequalities.
    fn by_program(&self, alloc: Global, count: usize) -> Result<Look, Stop>
        ensures { MatchResult result (TellsLook self.now.system.items) (λ _. Unit {0}) }
    {
        let rows = Rows::of_system(alloc, &self.system, count);
        let space = space_of(alloc, rows, self.system.len())?;
        if let Space::Empty(times) = &space {
            if refutes(alloc, &self.system, times, count)? {
                return Ok(Look::Lost);
            }
        }
        let most = if self.cuts == 0 { MOST_TRIED } else { 0 };
        self.shown(alloc, space.whole(alloc, most)?)
    }

    // What is found where equations are solved first.
    fn by_equations(&self, alloc: Global, count: usize) -> Result<Look, Stop>
        ensures { MatchResult result (TellsLook self.now.system.items) (λ _. Unit {0}) }
    {
        match sketch(alloc, &self.parts, &self.system, count)? {
            Some(values) => Ok(Look::Maybe(values)),
            None => Ok(Look::Open),
        }
    }

    // A variable that may be cut, by the linear program, which may have no room.
    fn by_cut(&self, alloc: Global, count: usize, flat: bool) -> Result<Look, Stop>
        ensures { MatchResult result (TellsLook self.now.system.items) (λ _. Unit {0}) }
    {
        let rows = Rows::of_system(alloc, &self.system, count);
        match cut_of(alloc, rows, flat)? {
            Some(cut) => Ok(Look::Cut(cut)),
            None => Ok(Look::Open),
        }
    }

    // What a linear program tells, or which variable may be cut by it.
    fn by_space(&self, alloc: Global, count: usize, flat: bool) -> Result<Look, Stop>
        ensures { MatchResult result (TellsLook self.now.system.items) (λ _. Unit {0}) }
    {
        match self.by_program(alloc, count)? {
            Look::Open => self.by_cut(alloc, count, flat),
            found => Ok(found),
        }
    }

    // What sums of inequalities tell, if they are asked.
    fn by_sums_if(&self, alloc: Global, count: usize, asked: bool) -> Result<Look, Stop>
        ensures { MatchResult result (TellsLook self.now.system.items) (λ _. Unit {0}) }
    {
        if asked {
            return self.by_sums(alloc, count);
        }
        Ok(Look::Open)
    }

    // What is found of inequalities alone, of which no variable was cut. Sums are asked first where they tell: a linear program
    // leaves the space between two inequalities to cuts without end where rational numbers are in it.
    fn uncut(&self, alloc: Global, count: usize) -> Result<Look, Stop>
        ensures { MatchResult result (TellsLook self.now.system.items) (λ _. Unit {0}) }
    {
        let thin = some_thin(&self.system);
        match self.by_sums_if(alloc, count, thin)? {
            Look::Open => {}
            found => return Ok(found),
        }
        match self.by_space(alloc, count, false)? {
            Look::Open => {}
            found => return Ok(found),
        }
        match self.by_sums_if(alloc, count, !thin)? {
            Look::Open => {}
            found => return Ok(found),
        }
        match self.by_equations(alloc, count)? {
            Look::Open => self.by_space(alloc, count, true),
            found => Ok(found),
        }
    }

    // What is found where no variable is split any more. Equations are solved before a linear program is made: with them it has
    // no room, and rational values are hard to round.
    fn ended(&self, alloc: Global, count: usize) -> Result<Look, Stop>
        ensures { MatchResult result (TellsLook self.now.system.items) (λ _. Unit {0}) }
    {
        if self.cuts > 0 {
            return self.by_space(alloc, count, true);
        }
        match first_equation(&self.system) {
            Some(place) => Ok(Look::Solve(place)),
            None => self.uncut(alloc, count),
        }
    }

    // What is found of the system. Where one condition is to be settled by one variable, that is done before sums are made.
    fn look(&self, alloc: Global, count: usize) -> Result<Look, Stop>
        ensures { MatchResult result (TellsLook self.now.system.items) (λ _. Unit {0}) }
    {
        match split_of(&self.system) {
            None => match first_multiple(&self.system) {
                Some(place) => Ok(Look::Solve(place)),
                None => self.ended(alloc, count),
            },
            Some(next) => {
                if !next.alone && is_hopeless(alloc, &self.system, count)? {
                    return Ok(Look::Lost);
                }
                Ok(Look::Split(next))
            }
        }
    }
}

fn run(alloc: Global, system: &[Constraint], count: usize) -> Result<Explored, Stop>
    ensures { MatchResult result (TellsNever count system.now) (λ _. Unit {0}) }
{
    let mut pending = Vec::new(alloc);
    pending.push(Node::first(alloc, system, count)?)?;
    let mut ends: usize = 0;
    let mut cuts: usize = 0;
    for _ in 0..MOST {
        let Some(node) = pending.pop() else {
            return Ok(if ends == 0 {
                Explored::Never
            } else {
                Explored::Open
            });
        };
        match node.look(alloc, count)? {
            Look::Lost => {}
            Look::Maybe(values) => return Ok(Explored::Maybe(values)),
            Look::Split(next) => node.push_parts(alloc, next, count, &mut pending)?,
            Look::Solve(place) => node.push_solved(alloc, place, count, &mut pending)?,
            Look::Cut(cut) => {
                cuts = cuts.saturating_add(1);
                if cuts > MOST_CUTS {
                    return Ok(Explored::Open);
                }
                node.push_cut(alloc, cut, count, &mut pending)?;
            }
            Look::Open => {
                ends = ends.saturating_add(1);
                if ends >= MOST_ENDS {
                    return Ok(Explored::Open);
                }
            }
        }
    }
    Ok(Explored::Open)
}

/// Looks for values of so many variables that meet the system.
pub fn explore(alloc: Global, system: &[Constraint], count: usize) -> Result<Explored, Memory>
    ensures { IfOk result (TellsNever count system.now) }
{
    match run(alloc, system, count) {
        Ok(found) => Ok(found),
        Err(Stop::TooWide) => Ok(Explored::Open),
        Err(Stop::Memory) => Err(Memory),
    }
}
