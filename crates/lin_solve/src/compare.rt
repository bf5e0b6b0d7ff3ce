//! Comparisons of two forms.

ghost use Rattle.std.specs.Prelude.{◌≡◌};
ghost use Rattle.model_chain.specs.Literals.{compare_holds};
ghost use Rattle.lin_solve.specs.Plain.{plain_compare};

use fast_fault::{LabelInt, Memory};
use label_core::Duplicate;
use lin_form::Form;
use std::alloc::Global;

/// How the left side of a comparison stands to the right one.
#[derive(Clone, Copy, Debug, PartialEq, Eq, Hash)]
pub enum Relation {
    Less,
    AtMost,
    Equal,
}

/// That two forms are related.
#[derive(Debug, PartialEq, Eq, Hash, Drop)]
pub struct Compare {
    pub left: Form,
    pub relation: Relation,
    pub right: Form,
}

impl Compare {
    /// Whether it holds at these values of the fields. A field past the list counts as 0.
    pub fn holds(&self, values: &[LabelInt]) -> bool
        ensures { result ≡ compare_holds (plain_compare self.now) values.now }
    {
        let left = self.left.eval(values);
        let right = self.right.eval(values);
        match self.relation {
            Relation::Less => left < right,
            Relation::AtMost => left <= right,
            Relation::Equal => left == right,
        }
    }
}

impl Duplicate for Compare {
    fn duplicate(&self, alloc: Global) -> Result<Compare, Memory> {
        Ok(Compare {
            left: self.left.copy(alloc)?,
            relation: self.relation,
            right: self.right.copy(alloc)?,
        })
    }
}
