//! That literals are over the eight fields. This call does nothing but say so.

ghost use Rattle.model_chain.specs.Literals.{AreLiteralsOver};
ghost use Rattle.lin_solve.specs.Plain.{plain_literals};

use crate::compare::Compare;
use label_core::Lit;

/// Each literal is over the eight fields, as each form is.
pub(crate) fn are_over(literals: &[Lit<Compare>])
    ensures { AreLiteralsOver 8 (plain_literals literals.now) }
{
    for literal in literals {
        literal.atom.left.constant();
        literal.atom.right.constant();
    }
}
