//! Branches of the fields' values, in which remainders are looked at only where they matter.
//!
//! A branch has its own literals, over what is left of the fields: a field is split by its remainders only if values at
//! which all holds but for remainders break a literal, and then what is put for the field makes the literals simpler. So
//! remainders that don't matter are never told apart, however many there are.

ghost use Rattle.std.specs.Prelude.{◌≡◌, ◌≢◌, ◌<◌, ◌≤◌, ◌<ℤ◌, ◌≤ℤ◌, ◌+ℤ◌, ◌*ℤ◌, ℕ, ℤ, List, IfOk, IfSome, OnOk, IsTrue, true, length, slice_index_or, slice_set, pos};
ghost use Rattle.label_core.specs.declared.theory.Lit.{Lit as OneLit};
ghost use Rattle.math_cooper.specs.System.{Solves};
ghost use Rattle.model_form.specs.Form.{value};
ghost use Rattle.model_form.specs.Meaning.{values_of, AreFormsLow};
ghost use Rattle.model_form.specs.Sums.{field_form, number_form};
ghost use Rattle.model_chain.specs.Literals.{HoldsAll, compare_holds, needs_side as needs};
ghost use Rattle.lin_solve.specs.declared.compare.Compare.{Compare as OneCompare};
ghost use Rattle.lin_solve.specs.Plain.{plain_compare, plain_literal, plain_literals, plain_relation};
ghost use Rattle.lin_solve.specs.Sought.{IsSidedAt, TellsExplored, TellsSought};
ghost use Rattle.lin_reduce.specs.Parts.{TellsNever};
ghost use Rattle.lin_solve.specs.Branches.{IsHeld, SomeHeld};
ghost use Rattle.lin_solve.specs.Equations.{HoldAlso};

use crate::bounds::bounded;
use crate::cases::{Case, Turn, is_lost};
use crate::compare::{Compare, Relation};
use crate::equations::equated;
use crate::found::{Sought, sided, sideless};
use crate::guess::all_hold;
use crate::mend::coefficient;
use crate::numbering::remainders_of;
use crate::over::are_over;
use crate::puts::{forms_with, put_unless_lost, simpler_each};
use crate::splits::{Split, Values, best_split, split_of};
use crate::system::{first_system, has_field, needs_side};
use cooper_solve::{Constraint, Relation as Kind};
use fast_fault::{LabelInt, Memory};
use label_core::Lit;
use lin_form::{Form, FormStop, Signed};
use lin_reduce::{Explored, clashes, explore};
use std::alloc::Global;

/// How many branches are looked at first, then with bounds, and last where nothing but Cooper's method is left to ask.
pub(crate) const FEW_BRANCHES: usize = 60;

pub(crate) const SOME_BRANCHES: usize = 1000;

pub(crate) const MANY_BRANCHES: usize = 20_000;

// The values by which a branch is split of which nothing is found.
const NOUGHTS: [LabelInt; 8] = [0; 8];

// Literals over what is left of the fields, and what the fields are by it.
#[derive(Drop)]
pub(crate) struct Branch {
    case: Case,
    literals: Vec<Lit<Compare>>,
}

// So many times the field, and a number.
fn moved(alloc: Global, split: Split, number: u32) -> Result<Form, FormStop>
    requires { split.field < 8 }
    ensures { IfOk result (λ f. (vs : List ℤ) → value f vs ≡ (pos split.times *ℤ slice_index_or vs split.field (pos 0)) +ℤ pos number) }
{
    let field = Form::field(alloc, split.field)?;
    let scaled = field.scaled(alloc, i128::from(split.times))?;
    scaled.constant();
    let own = Form::number(alloc, i128::from(number))?;
    own.constant();
    let mut parts = Vec::new(alloc);
    parts.push(Signed {
        minus: false,
        form: scaled,
    })?;
    parts.push(Signed {
        minus: false,
        form: own,
    })?;
    Form::of_sum(alloc, &parts)
}

// What is put for the fields where one is so many times itself, and a number.
fn forms_for(alloc: Global, split: Split, number: u32) -> Result<Vec<Form>, FormStop>
    requires { split.field < 8 }
    ensures forms { IfOk result (λ fs. (vs : List ℤ) → length vs ≡ 8 → values_of fs.items vs ≡ slice_set vs split.field ((pos split.times *ℤ slice_index_or vs split.field (pos 0)) +ℤ pos number)) }
    ensures low { IfOk result (λ fs. AreFormsLow fs.items) }
{
    let own = moved(alloc, split, number)?;
    forms_with(alloc, split.field, &own)
}

// The conditions that don't ask for multiples, from the last on.
fn without_multiples(alloc: Global, mut system: Vec<Constraint>) -> Result<Vec<Constraint>, Memory>
    ensures { IfOk result (λ r. (vs : List ℤ) → Solves vs system.items → Solves vs r.items) }
{
    let mut kept = Vec::new(alloc);
    while let Some(condition) = system.pop() {
        if let Kind::AtLeast = condition.relation {
            kept.push(condition)?;
        }
    }
    Ok(kept)
}

// What is found of conditions where multiples are left out.
fn explore_sums(
    alloc: Global,
    conditions: Vec<Constraint>,
    count: usize,
) -> Result<Explored, Memory>
    ensures { IfOk result (TellsNever count conditions.items) }
{
    let sums = without_multiples(alloc, conditions)?;
    explore(alloc, &sums, count)
}

/// What is found of literals where negated equalities are left out, and remainders may be any of their divisor's.
pub(crate) fn explore_loosely(alloc: Global, literals: &[Lit<Compare>]) -> Result<Explored, Memory>
    ensures { IfOk result (TellsExplored (plain_literals literals.now)) }
{
    let own = sideless(alloc, literals)?;
    are_over(&own);
    let known = remainders_of(alloc, &own)?;
    let system = first_system(alloc, &own, &known, false, &[])?;
    match explore_sums(alloc, system.conditions, system.count)? {
        Explored::Open => {}
        found => return Ok(found),
    }
    // what follows from multiples is asked last, and anew: sums tell nearly all that it tells, and sooner
    let whole = first_system(alloc, &own, &known, false, &[])?;
    if clashes(alloc, &whole.conditions, whole.count)? {
        return Ok(Explored::Never);
    }
    Ok(Explored::Open)
}

/// How a field stands to a number.
pub(crate) fn beside(
    alloc: Global,
    field: u32,
    relation: Relation,
    number: LabelInt,
    sign: bool,
) -> Result<Lit<Compare>, FormStop>
    requires { field < 8 }
    ensures { IfOk result (λ l. plain_literal l ≡ record { compare = record { left = field_form field; relation = plain_relation relation; right = number_form number }; positive = sign }) }
{
    Ok(Lit {
        atom: Compare {
            left: Form::field(alloc, field)?,
            relation,
            right: Form::number(alloc, number as i128)?,
        },
        sign,
    })
}

/// The literals, and one more.
pub(crate) fn with_literal(
    alloc: Global,
    literals: &[Lit<Compare>],
    more: Lit<Compare>,
) -> Result<Vec<Lit<Compare>>, Memory>
    ensures { IfOk result (λ r. (us : List ℤ) → HoldsAll (plain_literals literals.now) us → compare_holds (plain_compare more.atom) us ≡ more.sign → HoldsAll (plain_literals r.items) us) }
{
    let mut out = sided(alloc, literals, literals.len(), false)?;
    out.push(more)?;
    Ok(out)
}

// The first negated equality without remainders that these values break.
fn first_plain_broken(literals: &[Lit<Compare>], values: &[LabelInt]) -> Option<usize>
    ensures { IfSome result (λ i. (i < length literals.now) × ((d : OneLit OneCompare) → needs (plain_literal (slice_index_or literals.now i d)) ≡ true)) }
{
    for i in 0..literals.len() {
        let literal = &literals[i];
        if needs_side(literal) && literal.atom.holds(values) && split_of(literal).is_none() {
            return Some(i);
        }
    }
    None
}

// Whether a literal has no fields and doesn't hold.
fn some_never_holds(literals: &[Lit<Compare>]) -> bool
    ensures { IsTrue result → (us : List ℤ) → length us ≡ 8 → HoldsAll (plain_literals literals.now) us → ⊥ }
{
    let all = Case::all();
    for i in 0..literals.len() {
        if is_lost(&literals[i], &all) {
            return true;
        }
    }
    false
}

// Whether remainders are taken in it, and it has the field.
fn takes(literal: &Lit<Compare>, field: u32) -> bool {
    let (left, right) = (&literal.atom.left, &literal.atom.right);
    let some = !left.remainders().is_empty() || !right.remainders().is_empty();
    some && (has_field(left, field) || has_field(right, field))
}

// Whether the literal at this place is an equation that may give a field which others with remainders have.
fn may_give(literals: &[Lit<Compare>], place: usize, literal: &Lit<Compare>) -> bool {
    let (Relation::Equal, true) = (literal.atom.relation, literal.sign) else {
        return false;
    };
    for field in 0..8 {
        let left = coefficient(&literal.atom.left, field);
        let times = left.saturating_sub(coefficient(&literal.atom.right, field));
        if times == 1 || times == -1 {
            for (i, other) in literals.iter().enumerate() {
                if i != place && takes(other, field) {
                    return true;
                }
            }
        }
    }
    false
}

// The literals, where equations that give a field have been put into the others, if some may be.
fn equated_if(alloc: Global, literals: Vec<Lit<Compare>>) -> Result<Vec<Lit<Compare>>, FormStop>
    ensures { IfOk result (λ r. HoldAlso literals.items r.items) }
{
    for (place, literal) in literals.iter().enumerate() {
        if may_give(&literals, place, literal) {
            return equated(alloc, literals);
        }
    }
    Ok(literals)
}

// The branch at the end, unless one of its literals never holds.
fn push_branch(
    alloc: Global,
    case: Case,
    literals: Vec<Lit<Compare>>,
    pending: &mut Vec<Branch>,
) -> Result<(), FormStop>
    ensures held { OnOk result ((us : List ℤ) → length us ≡ 8 → HoldsAll (plain_literals literals.items) us → SomeHeld pending.new.items) }
    ensures kept { OnOk result (SomeHeld pending.old.items → SomeHeld pending.new.items) }
{
    if some_never_holds(&literals) {
        return Ok(());
    }
    let own = equated_if(alloc, literals)?;
    if some_never_holds(&own) {
        return Ok(());
    }
    pending.push(Branch {
        case,
        literals: own,
    })?;
    Ok(())
}

impl Branch {
    // The part of the branch in which the field is so many times another, and a number, at the end.
    fn push_part(
        &self,
        alloc: Global,
        split: Split,
        number: u32,
        pending: &mut Vec<Branch>,
    ) -> Result<bool, FormStop>
        requires { split.field < 8 }
        ensures part { IfOk result (λ pushed. IsTrue pushed → (us : List ℤ) (q : ℤ) → length us ≡ 8 → HoldsAll (plain_literals self.now.literals.items) us → slice_index_or us split.field (pos 0) ≡ (pos split.times *ℤ q) +ℤ pos number → SomeHeld pending.new.items) }
        ensures kept { OnOk result (SomeHeld pending.old.items → SomeHeld pending.new.items) }
    {
        let turn = Turn {
            field: split.field as usize,
            times: split.times as u64,
        };
        let Some(case) = self.case.part(turn, number as u64) else {
            return Ok(false);
        };
        let forms = forms_for(alloc, split, number)?;
        let Some(put) = put_unless_lost(alloc, &self.literals, &forms)? else {
            return Ok(true);
        };
        push_branch(alloc, case, put, pending)?;
        Ok(true)
    }

    // The same of another part than the first; of that nothing is pushed.
    fn push_other(
        &self,
        alloc: Global,
        split: Split,
        number: u32,
        first: u32,
        pending: &mut Vec<Branch>,
    ) -> Result<bool, FormStop>
        requires { split.field < 8 }
        ensures part { IfOk result (λ pushed. IsTrue pushed → number ≢ first → (us : List ℤ) (q : ℤ) → length us ≡ 8 → HoldsAll (plain_literals self.now.literals.items) us → slice_index_or us split.field (pos 0) ≡ (pos split.times *ℤ q) +ℤ pos number → SomeHeld pending.new.items) }
        ensures kept { OnOk result (SomeHeld pending.old.items → SomeHeld pending.new.items) }
    {
        if number == first {
            return Ok(true);
        }
        let pushed = self.push_part(alloc, split, number, pending)?;
        Ok(pushed)
    }

    // The parts of the branch, at the end, with the first one to be looked at last; not all, if one has numbers that are too
    // great.
    fn push_parts(
        &self,
        alloc: Global,
        split: Split,
        first: u32,
        pending: &mut Vec<Branch>,
    ) -> Result<bool, FormStop>
        ensures parts { IfOk result (λ pushed. IsTrue pushed → IsHeld self.now → SomeHeld pending.new.items) }
        ensures kept { OnOk result (SomeHeld pending.old.items → SomeHeld pending.new.items) }
    {
        if split.field >= 8 {
            return Ok(false);
        }
        for number in 0..split.times {
            if !self.push_other(alloc, split, number, first, pending)? {
                return Ok(false);
            }
        }
        if !self.push_part(alloc, split, first, pending)? {
            return Ok(false);
        }
        Ok(split.times > 0)
    }

    // The branch with a literal more, at the end.
    fn push_with(
        &self,
        alloc: Global,
        more: Lit<Compare>,
        pending: &mut Vec<Branch>,
    ) -> Result<(), FormStop>
        ensures more { OnOk result ((us : List ℤ) → length us ≡ 8 → HoldsAll (plain_literals self.now.literals.items) us → compare_holds (plain_compare more.atom) us ≡ more.sign → SomeHeld pending.new.items) }
        ensures kept { OnOk result (SomeHeld pending.old.items → SomeHeld pending.new.items) }
    {
        let own = with_literal(alloc, &self.literals, more)?;
        push_branch(alloc, self.case, own, pending)?;
        Ok(())
    }

    // The parts where the field is less than a number, and where it isn't less than another, at the end.
    fn push_outside(
        &self,
        alloc: Global,
        field: u32,
        from: LabelInt,
        to: LabelInt,
        pending: &mut Vec<Branch>,
    ) -> Result<(), FormStop>
        requires { field < 8 }
        ensures below { OnOk result ((us : List ℤ) → length us ≡ 8 → HoldsAll (plain_literals self.now.literals.items) us → slice_index_or us field (pos 0) <ℤ from → SomeHeld pending.new.items) }
        ensures above { OnOk result ((us : List ℤ) → length us ≡ 8 → HoldsAll (plain_literals self.now.literals.items) us → to ≤ℤ slice_index_or us field (pos 0) → SomeHeld pending.new.items) }
        ensures kept { OnOk result (SomeHeld pending.old.items → SomeHeld pending.new.items) }
    {
        let below = beside(alloc, field, Relation::Less, from, true)?;
        self.push_with(alloc, below, pending)?;
        let above = beside(alloc, field, Relation::Less, to, false)?;
        self.push_with(alloc, above, pending)?;
        Ok(())
    }

    // The part where the field has the value, at the end.
    fn push_value(
        &self,
        alloc: Global,
        field: u32,
        value: LabelInt,
        pending: &mut Vec<Branch>,
    ) -> Result<(), FormStop>
        requires { field < 8 }
        ensures value { OnOk result ((us : List ℤ) → length us ≡ 8 → HoldsAll (plain_literals self.now.literals.items) us → slice_index_or us field (pos 0) ≡ value → SomeHeld pending.new.items) }
        ensures kept { OnOk result (SomeHeld pending.old.items → SomeHeld pending.new.items) }
    {
        let own = beside(alloc, field, Relation::Equal, value, true)?;
        self.push_with(alloc, own, pending)?;
        Ok(())
    }

    // The same of another value than the first; of that nothing is pushed.
    fn push_other_value(
        &self,
        alloc: Global,
        field: u32,
        value: LabelInt,
        first: LabelInt,
        pending: &mut Vec<Branch>,
    ) -> Result<(), FormStop>
        requires { field < 8 }
        ensures value { OnOk result (value ≢ first → (us : List ℤ) → length us ≡ 8 → HoldsAll (plain_literals self.now.literals.items) us → slice_index_or us field (pos 0) ≡ value → SomeHeld pending.new.items) }
        ensures kept { OnOk result (SomeHeld pending.old.items → SomeHeld pending.new.items) }
    {
        if value != first {
            self.push_value(alloc, field, value, pending)?;
        }
        Ok(())
    }

    // The parts in which the field is less than a value, is each of them, or is more, at the end, with the first one to be
    // looked at last.
    fn push_values(
        &self,
        alloc: Global,
        field: u32,
        values: Values,
        pending: &mut Vec<Branch>,
    ) -> Result<bool, FormStop>
        ensures parts { IfOk result (λ pushed. IsTrue pushed → IsHeld self.now → SomeHeld pending.new.items) }
        ensures kept { OnOk result (SomeHeld pending.old.items → SomeHeld pending.new.items) }
    {
        if field >= 8 {
            return Ok(false);
        }
        self.push_outside(alloc, field, values.from, values.to, pending)?;
        for value in values.from..values.to {
            self.push_other_value(alloc, field, value, values.first, pending)?;
        }
        self.push_value(alloc, field, values.first, pending)?;
        Ok(true)
    }

    // The branch where at a place one side is the lesser, at the end.
    fn push_side(
        &self,
        alloc: Global,
        place: usize,
        turned: bool,
        pending: &mut Vec<Branch>,
    ) -> Result<(), Memory>
        ensures side { OnOk result ((us : List ℤ) → length us ≡ 8 → HoldsAll (plain_literals self.now.literals.items) us → IsSidedAt self.now.literals.items place turned us → SomeHeld pending.new.items) }
        ensures kept { OnOk result (SomeHeld pending.old.items → SomeHeld pending.new.items) }
    {
        let literals = sided(alloc, &self.literals, place, turned)?;
        pending.push(Branch {
            case: self.case,
            literals,
        })?;
        Ok(())
    }

    // The branch with each side of the first negated equality without remainders that the values break, if there is one.
    fn push_sides(
        &self,
        alloc: Global,
        values: &[LabelInt],
        pending: &mut Vec<Branch>,
    ) -> Result<bool, Memory>
        ensures sides { IfOk result (λ pushed. IsTrue pushed → IsHeld self.now → SomeHeld pending.new.items) }
        ensures kept { OnOk result (SomeHeld pending.old.items → SomeHeld pending.new.items) }
    {
        let Some(place) = first_plain_broken(&self.literals, values) else {
            return Ok(false);
        };
        self.push_side(alloc, place, false, pending)?;
        self.push_side(alloc, place, true, pending)?;
        Ok(true)
    }

    // The branches into which it is parted, as these values break a literal; none, if it can't be.
    fn push_next(
        &self,
        alloc: Global,
        values: &[LabelInt],
        pending: &mut Vec<Branch>,
    ) -> Result<bool, FormStop>
        ensures parts { IfOk result (λ pushed. IsTrue pushed → IsHeld self.now → SomeHeld pending.new.items) }
        ensures kept { OnOk result (SomeHeld pending.old.items → SomeHeld pending.new.items) }
    {
        if self.push_sides(alloc, values, pending)? {
            return Ok(true);
        }
        let Some(best) = best_split(&self.literals, values) else {
            return Ok(false);
        };
        let field = best.split.field;
        match best.values {
            Some(own) => self.push_values(alloc, field, own, pending),
            None => self.push_parts(alloc, best.split, best.part, pending),
        }
    }
}

// The literals, with bounds where more than few branches are looked at.
fn with_bounds(
    alloc: Global,
    literals: Vec<Lit<Compare>>,
    most: usize,
) -> Result<Vec<Lit<Compare>>, FormStop>
    ensures { IfOk result (λ r. HoldAlso literals.items r.items) }
{
    if most <= FEW_BRANCHES {
        return Ok(literals);
    }
    bounded(alloc, literals)
}

// The literals of the first branch.
fn first_literals(
    alloc: Global,
    literals: &[Lit<Compare>],
    most: usize,
) -> Result<Vec<Lit<Compare>>, FormStop>
    ensures { IfOk result (λ r. HoldAlso literals.now r.items) }
{
    let own = simpler_each(alloc, literals)?;
    let inside = with_bounds(alloc, own, most)?;
    let put = equated(alloc, inside)?;
    Ok(put)
}

fn run(alloc: Global, literals: &[Lit<Compare>], most: usize) -> Result<Sought, FormStop>
    ensures { IfOk result (TellsSought (plain_literals literals.now)) }
{
    let mut pending = Vec::new(alloc);
    pending.push(Branch {
        case: Case::all(),
        literals: first_literals(alloc, literals, most)?,
    })?;
    for _ in 0..most {
        let Some(own) = pending.pop() else {
            return Ok(Sought::Never);
        };
        match explore_loosely(alloc, &own.literals)? {
            Explored::Never => {}
            Explored::Open => {
                if !own.push_next(alloc, &NOUGHTS, &mut pending)? {
                    return Ok(Sought::Open);
                }
            }
            Explored::Maybe(left) => {
                let values = own.case.at(alloc, &left)?;
                if values.len() == 8 && all_hold(literals, &values) {
                    return Ok(Sought::Values(values));
                }
                if !own.push_next(alloc, &left, &mut pending)? {
                    return Ok(Sought::Open);
                }
            }
        }
    }
    Ok(Sought::Open)
}

/// Seeks values of the eight fields at which the literals hold, branch by branch, and looks at so many; if these are more than
/// few, bounds of fields are sought first.
pub(crate) fn seek_branches(
    alloc: Global,
    literals: &[Lit<Compare>],
    most: usize,
) -> Result<Sought, Memory>
    ensures { IfOk result (TellsSought (plain_literals literals.now)) }
{
    match run(alloc, literals, most) {
        Ok(found) => Ok(found),
        Err(FormStop::Range(_)) => Ok(Sought::Open),
        Err(FormStop::Memory) => Err(Memory),
    }
}
