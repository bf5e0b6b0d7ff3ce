//! Terms are equal where they are made in the same way of equal maps.

ghost use Rattle.std.specs.Prelude.{◌≡◌, map};
ghost use Rattle.sttr_core.specs.Terms.{plain_term};
ghost use Rattle.sttr_single.specs.Same.{same_term, same_terms};

use sttr_core::Term;

/// Whether both terms are equal.
#[cycle(same)]
pub fn is_same<M: Eq>(first: &Term<M>, second: &Term<M>) -> bool
    ensures { result ≡ same_term M.eq (plain_term first.now) (plain_term second.now) }
{
    match first {
        Term::Same(child) => match second {
            Term::Same(other) => child == other,
            _ => false,
        },
        Term::Call(state, child) => match second {
            Term::Call(other, at) => state == other && child == at,
            _ => false,
        },
        Term::Node(constructor, map, parts) => match second {
            Term::Node(other, made, others) => {
                constructor == other && map == made && are_same(parts, others)
            }
            _ => false,
        },
    }
}

/// Whether the terms are equal, in order.
#[cycle(same)]
fn are_same<M: Eq>(parts: &[Term<M>], others: &[Term<M>]) -> bool
    ensures { result ≡ same_terms M.eq (map plain_term parts.now) (map plain_term others.now) }
{
    if parts.len() != others.len() {
        return false;
    }
    for i in 0..parts.len() {
        if !is_same(&parts[i], &others[i]) {
            return false;
        }
    }
    true
}
