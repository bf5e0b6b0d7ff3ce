//! Labels of texts.

ghost use Rattle.std.specs.Prelude.{◌≡◌, IfOk, All, length};
ghost use Rattle.flat_label.specs.Texts.{SideFits, side_text, texts_label, same_side};
ghost use Rattle.flat_label.specs.Sides.{IsAmong, AreAmong};

use crate::classes::{sides_of, some_refuses, values_of};
use crate::never::Never;
use fast_fault::{Memory, Text};
use indexmap::IndexSet;
use label_core::{Duplicate, Lit, Theory, Verdict};
use std::alloc::Global;

/// Labels of a number of texts.
#[derive(Clone, Copy)]
pub struct Texts {
    fields: u32,
}

impl Texts {
    /// The theory of labels with so many texts.
    pub fn new(fields: u32) -> Texts
        ensures { result.fields ≡ fields }
    {
        Texts { fields }
    }
}

/// A field, or a constant.
#[derive(PartialEq, Eq, Hash, Drop)]
pub enum TextSide {
    Field(u32),
    Constant(Text),
}

impl TextSide {
    /// Another side that is the same.
    pub fn copy(&self, alloc: Global) -> Result<TextSide, Memory>
        ensures { IfOk result (λ copy. copy ≡ self.now) }
    {
        match self {
            TextSide::Field(field) => Ok(TextSide::Field(*field)),
            TextSide::Constant(text) => Ok(TextSide::Constant(text.copy(alloc)?)),
        }
    }

    /// Whether it is this side.
    pub(crate) fn is(&self, other: &TextSide) -> bool
        ensures { result ≡ same_side self.now other.now }
    {
        self == other
    }

    /// The text that it is where the fields have these values.
    pub(crate) fn text<'v>(&'v self, values: &'v [Text]) -> &'v Text
        requires { SideFits (length values.now) self.now }
        ensures { result.now ≡ side_text self.now (texts_label values.now) }
    {
        match self {
            TextSide::Field(field) => &values[*field as usize],
            TextSide::Constant(text) => text,
        }
    }
}

/// That two sides are one text.
#[derive(PartialEq, Eq, Hash, Drop)]
pub struct TextAtom {
    pub left: TextSide,
    pub right: TextSide,
}

impl Duplicate for TextAtom {
    fn duplicate(&self, alloc: Global) -> Result<TextAtom, Memory> {
        let left = self.left.copy(alloc)?;
        let right = self.right.copy(alloc)?;
        Ok(TextAtom { left, right })
    }
}

/// Adds the side, if it is a constant.
fn add_constant(
    alloc: Global,
    constants: &mut IndexSet<Text>,
    side: &TextSide,
) -> Result<(), Memory>
    ensures added { IfOk result (λ _. IsAmong constants.new.keys side.now) }
    ensures kept { IfOk result (λ _. (other : TextSide) → IsAmong constants.old.keys other → IsAmong constants.new.keys other) }
{
    if let TextSide::Constant(text) = side {
        constants.insert_full(text.copy(alloc)?)?;
    }
    Ok(())
}

/// The constants of the literals, each once.
fn constants_of(alloc: Global, literals: &[Lit<TextAtom>]) -> Result<IndexSet<Text>, Memory>
    ensures { IfOk result (λ constants. All (λ x. AreAmong constants.keys x.atom) literals.now) }
{
    let mut constants = IndexSet::new(alloc);
    for literal in literals {
        add_constant(alloc, &mut constants, &literal.atom.left)?;
        add_constant(alloc, &mut constants, &literal.atom.right)?;
    }
    Ok(constants)
}

impl Theory for Texts {
    type Atom = TextAtom;

    type Value = Vec<Text>;

    type Chain = Never;

    ghost use Rattle.std.specs.Prelude.{◌≡◌, refl};
    ghost use Rattle.flat_label.specs.Texts.{texts_label, are_one_text, SidesFit, IsTexts, equal_texts, equal_atoms_hold, equal_atoms_fit};

    ghost label_of = { λ v. texts_label v.items };

    ghost atom_holds = { are_one_text };

    ghost atom_fits = { λ t a. SidesFit t.fields a };

    ghost meaning = { λ t. record { has = IsTexts t.fields; keeps = IsTexts t.fields; equal = ⟦<TextAtom as PartialEq>⟧.eq; chain_of = λ _ _. ⊥; passes = λ _. ⊥; is_far = λ _. ⊥ } };

    ghost equal_is_own = { λ t. refl };

    ghost equal_atoms = { equal_atoms_hold ⟦<TextSide as PartialEq>⟧.eq (record { fields = λ _ _. refl; field_constant = λ _ _. refl; constant_field = λ _ _. refl; constants = λ _ _. refl }) };

    ghost equal_atoms_fit = { λ t. equal_atoms_fit ⟦<TextSide as PartialEq>⟧.eq (record { fields = λ _ _. refl; field_constant = λ _ _. refl; constant_field = λ _ _. refl; constants = λ _ _. refl }) t.fields };

    ghost equal_values = { λ v w. equal_texts v.items w.items };

    ghost keeps_labels = { λ t l kept. kept };

    fn holds(&self, atom: &TextAtom, value: &Vec<Text>) -> bool {
        atom.left.text(value) == atom.right.text(value)
    }

    fn decide(
        &self,
        alloc: Global,
        literals: &[Lit<TextAtom>],
    ) -> Result<Verdict<Vec<Text>, Never>, Memory> {
        match sides_of(alloc, self.fields, literals)? {
            None => Ok(Verdict::Unsat),
            Some(sides) => {
                if some_refuses(&sides, literals) {
                    return Ok(Verdict::Unsat);
                }
                let constants = constants_of(alloc, literals)?;
                Ok(Verdict::Sat(values_of(alloc, &sides, &constants)?))
            }
        }
    }

    fn copy_value(&self, alloc: Global, value: &Vec<Text>) -> Result<Vec<Text>, Memory> {
        let mut copy = Vec::new(alloc);
        for text in value {
            copy.push(text.copy(alloc)?)?;
        }
        Ok(copy)
    }

    fn far(&self, _chain: &Never) -> bool {
        false
    }
}
