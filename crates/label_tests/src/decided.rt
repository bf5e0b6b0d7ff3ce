//! Conjunctions over labels of several fields.

ghost use Rattle.std.specs.Prelude.{IsTrue};
ghost use Rattle.label_core.specs.Lit.{LitsFit};
ghost use Rattle.label_core.specs.Meaning.{KeepsValue};
ghost use Rattle.record_label.specs.Rows.{RowFits};

use crate::samples::{MOST, Side, form, signature};
use fast_fault::Memory;
use flat_label::BoolAtom;
use label_core::{Lit, PairAtom, Theory, Verdict};
use lin_form::FormStop;
use lin_solve::{Compare, Relation};
use record_label::{RowAtom, RowLabels};
use std::alloc::Global;
use std::test::Fail;

/// Whether each literal speaks of fields that there are.
fn all_fit(theory: &RowLabels, literals: &[Lit<RowAtom>]) -> bool
    ensures { IsTrue result → LitsFit (RowFits theory.now) literals.now }
{
    literals.iter().all(|literal| theory.fits(&literal.atom))
}

/// What is decided: a label, which satisfies the literals, that there is none, or a chain that is far, or is not.
#[derive(Clone, Copy, PartialEq, Eq)]
enum Answer {
    Label,
    Other,
    Nothing,
    Far,
    Wide,
    Unfit,
}

/// Whether each literal has its sign at the value.
fn all_hold<T: Theory>(theory: &T, literals: &[Lit<T::Atom>], value: &T::Value) -> bool
    requires literals { LitsFit (T.atom_fits theory.now) literals.now }
    requires value { KeepsValue (T.meaning theory.now) value.now }
{
    for literal in literals {
        if theory.holds(&literal.atom, value) != literal.sign {
            return false;
        }
    }
    true
}

/// What is decided, whatever the theory.
fn outcome<T: Theory>(
    alloc: Global,
    theory: &T,
    literals: &[Lit<T::Atom>],
) -> Result<Answer, Memory>
    requires { LitsFit (T.atom_fits theory.now) literals.now }
{
    match theory.decide(alloc, literals)? {
        Verdict::Sat(value) => {
            let copy = theory.copy_value(alloc, &value)?;
            if copy == value && all_hold(theory, literals, &value) {
                return Ok(Answer::Label);
            }
            Ok(Answer::Other)
        }
        Verdict::Unsat => Ok(Answer::Nothing),
        Verdict::Wide(chain) => {
            if theory.far(&chain) {
                return Ok(Answer::Far);
            }
            Ok(Answer::Wide)
        }
    }
}

/// A comparison that is to hold.
fn literal(alloc: Global, row: &(Side, Relation, Side)) -> Result<Lit<RowAtom>, FormStop> {
    let left = form(alloc, row.0)?;
    let right = form(alloc, row.2)?;
    let relation = row.1;
    let compare = Compare {
        left,
        relation,
        right,
    };
    Ok(Lit {
        atom: PairAtom::Left(compare),
        sign: true,
    })
}

/// The literals, beside one that the truth value is false.
fn literals(alloc: Global, rows: &[(Side, Relation, Side)]) -> Result<Vec<Lit<RowAtom>>, FormStop> {
    let field = BoolAtom { field: 0 };
    let atom = PairAtom::Right(PairAtom::Left(field));
    let mut literals = vec![in alloc; Lit { atom, sign: false }]?;
    for row in rows {
        literals.push(literal(alloc, row)?)?;
    }
    Ok(literals)
}

fn told(
    alloc: Global,
    theory: &RowLabels,
    rows: &[(Side, Relation, Side)],
) -> Result<Answer, FormStop> {
    let literals = literals(alloc, rows)?;
    if !all_fit(theory, &literals) {
        return Ok(Answer::Unfit);
    }
    Ok(outcome(alloc, theory, &literals)?)
}

#[test]
fn decides_labels_with_whole_numbers(rt: HostRuntime) -> Result<(), Fail> {
    use Relation::{Equal, Less};
    use Side::{Constant, Line, Remainder};
    let alloc = rt.alloc();
    let cases: &[(&str, &[(Side, Relation, Side)], Answer)] = &[
        (
            "x % 3 = 2 and x = -7",
            &[
                (Remainder(0, 3), Equal, Constant(2)),
                (Line(0, 1, 0), Equal, Constant(-7)),
            ],
            Answer::Label,
        ),
        (
            "x % 3 = 1 and x = -7",
            &[
                (Remainder(0, 3), Equal, Constant(1)),
                (Line(0, 1, 0), Equal, Constant(-7)),
            ],
            Answer::Nothing,
        ),
        (
            "2x = 2y + 1",
            &[(Line(0, 2, 0), Equal, Line(1, 2, 1))],
            Answer::Nothing,
        ),
        (
            "x > 2^63 - 1",
            &[(Constant(MOST), Less, Line(0, 1, 0))],
            Answer::Far,
        ),
        (
            "x > 2^63 - 1 and x < 0",
            &[
                (Constant(MOST), Less, Line(0, 1, 0)),
                (Line(0, 1, 0), Less, Constant(0)),
            ],
            Answer::Nothing,
        ),
        (
            "a third whole number",
            &[(Line(0, 1, 2), Equal, Constant(0))],
            Answer::Unfit,
        ),
    ];
    let signature = signature(alloc)?;
    let theory = RowLabels::new(alloc, &signature)?;
    for case in cases {
        assert!(rt; told(alloc, &theory, case.1)? == case.2, "{}", case.0);
    }
    Ok(())
}
