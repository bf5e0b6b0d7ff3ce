//! What literals say of the value of one form.

ghost use Rattle.std.specs.Prelude.{◌≡◌, ◌<◌, ◌≤◌, ℕ, ℤ, pos, ◌≤ℤ◌, IfOk, MatchOption, IsTrue, List};
ghost use Rattle.model_tree.specs.Range.{IsLabelNumber};
ghost use Rattle.lin_solve.specs.Said.{AreSo, AreWithin, IsOver, IsUnder, Reaches, Says, said_at};

use crate::compare::Relation;
use fast_fault::Memory;
use std::alloc::Global;

/// That the value is at least, at most, exactly or anything but this number.
#[derive(Clone, Copy)]
pub(crate) enum Said {
    From(i128),
    UpTo(i128),
    Is(i128),
    IsNot(i128),
}

/// What is said of the value at this place.
#[derive(Clone, Copy)]
pub(crate) struct Fact {
    pub(crate) place: usize,
    pub(crate) said: Said,
}

/// The numbers from a least to a greatest one, where there are such.
#[derive(Clone, Copy)]
pub(crate) struct Reach {
    pub(crate) low: Option<i128>,
    pub(crate) high: Option<i128>,
}

/// What a comparison says of a value, where the left side less the right one is the value less this number, or else the
/// number less the value.
pub(crate) fn said_at(relation: Relation, sign: bool, minus: bool, number: i128) -> Said
    requires { IsLabelNumber number }
    ensures { result ≡ said_at relation sign minus number }
{
    match relation {
        Relation::Less => {
            if sign {
                if minus {
                    Said::From(number + 1)
                } else {
                    Said::UpTo(number - 1)
                }
            } else if minus {
                Said::UpTo(number)
            } else {
                Said::From(number)
            }
        }
        Relation::AtMost => {
            if sign {
                if minus {
                    Said::From(number)
                } else {
                    Said::UpTo(number)
                }
            } else if minus {
                Said::UpTo(number - 1)
            } else {
                Said::From(number + 1)
            }
        }
        Relation::Equal => {
            if sign {
                Said::Is(number)
            } else {
                Said::IsNot(number)
            }
        }
    }
}

// The greater one.
fn greater(low: Option<i128>, number: i128) -> Option<i128>
    ensures { (v : ℤ) → IsOver low v → number ≤ℤ v → IsOver result v }
{
    match low {
        None => Some(number),
        Some(other) => {
            if other < number {
                Some(number)
            } else {
                Some(other)
            }
        }
    }
}

// The lesser one.
fn lesser(high: Option<i128>, number: i128) -> Option<i128>
    ensures { (v : ℤ) → IsUnder high v → v ≤ℤ number → IsUnder result v }
{
    match high {
        None => Some(number),
        Some(other) => {
            if number < other {
                Some(number)
            } else {
                Some(other)
            }
        }
    }
}

// The next number where the least one is not met.
fn above(low: Option<i128>, number: i128) -> Option<i128>
    ensures { (v : ℤ) → IsOver low v → (v ≡ number → ⊥) → IsOver result v }
{
    match low {
        None => None,
        Some(other) => {
            if other == number && number < i128::MAX {
                Some(number + 1)
            } else {
                Some(other)
            }
        }
    }
}

// The number before where the greatest one is not met.
fn beneath(high: Option<i128>, number: i128) -> Option<i128>
    ensures { (v : ℤ) → IsUnder high v → (v ≡ number → ⊥) → IsUnder result v }
{
    match high {
        None => None,
        Some(other) => {
            if other == number && number > i128::MIN {
                Some(number - 1)
            } else {
                Some(other)
            }
        }
    }
}

impl Reach {
    // What is left by what is said.
    fn narrowed(self, said: Said) -> Reach
        ensures { (v : ℤ) → Reaches self v → Says said v → Reaches result v }
    {
        match said {
            Said::From(number) => Reach {
                low: greater(self.low, number),
                high: self.high,
            },
            Said::UpTo(number) => Reach {
                low: self.low,
                high: lesser(self.high, number),
            },
            Said::Is(number) => Reach {
                low: greater(self.low, number),
                high: lesser(self.high, number),
            },
            Said::IsNot(number) => Reach {
                low: above(self.low, number),
                high: beneath(self.high, number),
            },
        }
    }

    // Whether no number is within.
    fn is_empty(self) -> bool
        ensures { IsTrue result → (v : ℤ) → Reaches self v → ⊥ }
    {
        match (self.low, self.high) {
            (Some(low), Some(high)) => low > high,
            _ => false,
        }
    }

    fn is(self, other: Reach) -> bool {
        self.low == other.low && self.high == other.high
    }
}

// Goes once through the facts: whether some reach is narrowed, and none if one is empty.
fn narrow_each(facts: &[Fact], reaches: &mut [Reach]) -> Option<bool>
    ensures { (vs : List ℤ) → AreSo facts.now vs → AreWithin reaches.old vs → MatchOption result ⊥ (λ _. AreWithin reaches.new vs) }
{
    let mut narrower = false;
    for fact in facts {
        if fact.place >= reaches.len() {
            continue;
        }
        let old = reaches[fact.place];
        let new = old.narrowed(fact.said);
        if new.is_empty() {
            return None;
        }
        narrower = narrower || !new.is(old);
        reaches[fact.place] = new;
    }
    Some(narrower)
}

/// Whether no values of so many forms are as all facts say: none may be found although there is none.
pub(crate) fn is_clash(alloc: Global, facts: &[Fact], count: usize) -> Result<bool, Memory>
    ensures { IfOk result (λ clash. IsTrue clash → (vs : List ℤ) → AreSo facts.now vs → ⊥) }
{
    let all = Reach {
        low: None,
        high: None,
    };
    let mut reaches = vec![in alloc; all; count]?;
    for _ in 0..facts.len() {
        match narrow_each(facts, &mut reaches) {
            None => return Ok(true),
            Some(false) => return Ok(false),
            Some(true) => {}
        }
    }
    Ok(false)
}
