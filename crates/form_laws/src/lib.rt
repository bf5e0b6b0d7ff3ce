//! Laws of equal linear forms.
//!
//! It promises nothing that runs: its laws say what definitions above may rest on.
#![tactic(auto)]

ghost use Rattle.form_laws.specs.Laws.{OutsideInBoth, SameAfterPutting};

/// Equal forms stay equal where equal forms are put for their fields, and have the same numbers out of range.
pub fn laws_of_equal_forms()
    ensures putting { SameAfterPutting }
    ensures outside { OutsideInBoth }
{}
