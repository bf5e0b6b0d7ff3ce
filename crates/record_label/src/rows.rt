//! The theory of labels of several fields.

ghost use Rattle.std.specs.Prelude.{◌≡◌, ◌<◌, ◌≤◌, ◌↔◌, ℕ, IsTrue, IfOk, length, map, pos, slice_index_or};
ghost use Rattle.model_tree.specs.Limits.{most_fields};
ghost use Rattle.model_tree.specs.Signature.{wholes, truths, texts};
ghost use Rattle.model_tree.specs.Signature as model;
ghost use Rattle.fast_tree.specs.Signatures.{plain_signature, plain_sort};
ghost use Rattle.model_tree.specs.Label.{pair, row};
ghost use Rattle.fast_tree.specs.Entries.{entries_of, field_of, label_meaning};
ghost use Rattle.model_guard.specs.Forms.{wholes_in};
ghost use Rattle.flat_label.specs.Bools.{bools_label};
ghost use Rattle.flat_label.specs.Texts.{SideFits, texts_label};
ghost use Rattle.label_core.specs.declared.pair.PairChain.{PairChain};
ghost use Rattle.record_label.specs.Rows.{count_of, truths_in, texts_in, flat_holds, FlatFits, RowFits, HasSides, IsOfNumbers, AreAsMany, IsFound, merged};

use crate::fits::compare_fits;
use crate::merges::{count, merge};
use crate::reads::{side_text, truth_at, wholes};
use fast_fault::{LabelInt, Memory, Text};
use fast_tree::{FieldOf, Label, Signature, Sort, Value};
use flat_label::{BoolAtom, Bools, Never, TextAtom, TextSide, Texts};
use label_core::{Lit, Pair, PairAtom, PairChain, PairValue, Theory, Verdict};
use lin_solve::{Chain, Compare, Ints, Memo};
use std::alloc::Global;
use std::marker::Model;

/// A comparison of two forms, that a field is true, or that two texts are one. Fields are numbered from 0 within their
/// sort, in the order of the type.
pub type RowAtom = PairAtom<Compare, PairAtom<BoolAtom, TextAtom>>;

/// The whole numbers, truth values and texts of a label.
type Values = PairValue<Vec<LabelInt>, PairValue<Vec<bool>, Vec<Text>>>;

/// The labels of a type of trees: the sorts of its fields, eight at most. Beside them what was found of their whole numbers so
/// far, which no clause speaks of: it answers later questions sooner, and not otherwise than they may be answered.
#[derive(Drop)]
pub struct RowLabels {
    pub(crate) sorts: Vec<Sort>,
    memo: Memo,
}

impl Model for RowLabels {
    ghost use Rattle.std.specs.Prelude.{◌≤◌, List, length, map};
    ghost use Rattle.std.specs.Coded.{coded_list};
    ghost use Rattle.model_tree.specs.Limits.{most_fields};
    ghost use Rattle.model_tree.specs.Signature as model;
    ghost use Rattle.fast_tree.specs.Signatures.{plain_sort};
    ghost use Rattle.record_label.specs.SortCode.{coded_sort};

    ghost Value = { List model.Sort };

    ghost coded = { coded_list coded_sort };

    ghost view = { λ t. map plain_sort t.sorts.items };

    ghost invariant = { λ t. length t.sorts.items ≤ most_fields };
}

/// Whether the side speaks of one of so many texts.
fn side_fits(side: &TextSide, texts: u32) -> bool
    ensures { IsTrue result ↔ SideFits texts side.now }
{
    match side {
        TextSide::Field(field) => *field < texts,
        TextSide::Constant(_) => true,
    }
}

/// Whether the atom holds of a label of these values.
fn flat_holds(atom: &PairAtom<BoolAtom, TextAtom>, values: &[Value]) -> bool
    requires { HasSides (length (texts_in (map field_of values.now))) atom.now }
    ensures { result ≡ flat_holds atom.now (pair (bools_label (truths_in (map field_of values.now))) (texts_label (texts_in (map field_of values.now)))) }
{
    match atom {
        PairAtom::Left(atom) => truth_at(values, atom.field),
        PairAtom::Right(atom) => {
            let left = side_text(&atom.left, values);
            let right = side_text(&atom.right, values);
            match (left, right) {
                (Some(left), Some(right)) => left == right,
                _ => false,
            }
        }
    }
}

/// The chain, since truth values and texts are never too wide.
fn chain_of_numbers(chain: PairChain<Chain, PairChain<Never, Never>>) -> Chain
    requires { IsOfNumbers chain }
    ensures { chain ≡ PairChain.Left result }
{
    match chain {
        PairChain::Left(chain) => chain,
        PairChain::Right(_) => unreachable!(),
    }
}

/// The sorts of the fields.
fn sorts_of(alloc: Global, fields: &[FieldOf]) -> Result<Vec<Sort>, Memory>
    ensures { IfOk result (λ sorts. map plain_sort sorts.items ≡ map (λ f. plain_sort f.sort) fields.now) }
{
    let mut sorts = Vec::new(alloc);
    for field in fields {
        sorts.push(field.sort)?;
    }
    Ok(sorts)
}

/// The label of fields of these sorts that has these values.
fn found(alloc: Global, sorts: &[Sort], value: Values) -> Result<Verdict<Label, Chain>, Memory>
    requires { AreAsMany (map plain_sort sorts.now) value.left.items value.right.left.items value.right.right.items }
    ensures { IfOk result (IsFound (λ l. label_meaning l ≡ row (merged (map plain_sort sorts.now) value.left.items value.right.left.items value.right.right.items))) }
{
    let flat = value.right;
    let label = merge(alloc, sorts, value.left, flat.left, flat.right)?;
    Ok(Verdict::Sat(label))
}

impl RowLabels {
    /// The labels of a type of at most eight fields.
    pub fn new(alloc: Global, input: &Signature) -> Result<RowLabels, Memory>
        requires { length input.now.fields.items ≤ most_fields }
        ensures { IfOk result (λ theory. theory ≡ model.sorts_of (plain_signature input.now)) }
    {
        Ok(RowLabels {
            sorts: sorts_of(alloc, &input.fields)?,
            memo: Memo::new(alloc),
        })
    }

    /// Whether the atom speaks of fields of these labels. Takes no memory.
    pub fn fits(&self, atom: &RowAtom) -> bool
        ensures { IsTrue result ↔ RowFits self.now atom.now }
    {
        match atom {
            PairAtom::Left(compare) => compare_fits(compare, count(&self.sorts, Sort::Int)),
            PairAtom::Right(atom) => self.flat_fits(atom),
        }
    }

    /// Whether the atom speaks of truth values and texts of these labels.
    fn flat_fits(&self, atom: &PairAtom<BoolAtom, TextAtom>) -> bool
        ensures { IsTrue result ↔ FlatFits self.now atom.now }
    {
        let texts = count(&self.sorts, Sort::Text);
        match atom {
            PairAtom::Left(atom) => atom.field < count(&self.sorts, Sort::Bool),
            PairAtom::Right(atom) => side_fits(&atom.left, texts) && side_fits(&atom.right, texts),
        }
    }

    /// The whole numbers of a label. These labels have eight at most, and where they have fewer the rest are 0.
    pub(crate) fn numbers(&self, value: &Label) -> [LabelInt; 8]
        ensures few { count_of wholes self.now ≤ most_fields }
        ensures numbers { (k : ℕ) → k < most_fields → slice_index_or result k (pos 0) ≡ slice_index_or (wholes_in (map field_of (entries_of value.now))) k (pos 0) }
    {
        // a look at the fields says how few they are
        let _ = &self.sorts;
        wholes(value.values())
    }

    /// The theory of the whole numbers.
    fn ints(&self) -> Ints<'_>
        ensures { result.fields ≡ count_of wholes self.now }
    {
        Ints::new(count(&self.sorts, Sort::Int), &self.memo)
    }

    /// The theories of the whole numbers, of the truth values and of the texts.
    fn parts(&self) -> Pair<Ints<'_>, Pair<Bools, Texts>>
        ensures wholes { result.left.fields ≡ count_of wholes self.now }
        ensures truths { result.right.left.fields ≡ count_of truths self.now }
        ensures texts { result.right.right.fields ≡ count_of texts self.now }
    {
        let truths = count(&self.sorts, Sort::Bool);
        let texts = count(&self.sorts, Sort::Text);
        Pair::new(
            self.ints(),
            Pair::new(Bools::new(truths), Texts::new(texts)),
        )
    }
}

impl Theory for RowLabels {
    type Atom = RowAtom;

    type Value = Label;

    type Chain = Chain;

    ghost use Rattle.std.specs.Prelude.{◌≡◌, refl};
    ghost use Rattle.fast_tree.specs.Entries.{label_meaning};
    ghost use Rattle.record_label.specs.Rows.{row_holds, RowFits};
    ghost use Rattle.record_label.specs.Equal.{equal_labels};
    ghost use Rattle.record_label.specs.Derived.{equal_rows, equal_rows_fit};
    ghost use Rattle.record_label.specs.Meaning.{row_meaning};

    ghost label_of = { label_meaning };

    ghost atom_holds = { row_holds };

    ghost atom_fits = { RowFits };

    ghost meaning = { row_meaning };

    ghost equal_is_own = { λ t. refl };

    ghost equal_atoms = { equal_rows };

    ghost equal_atoms_fit = { equal_rows_fit };

    ghost equal_values = { equal_labels ⟦<Value as Ord>⟧.cmp (record { numbers = λ _ _. refl; truths = λ _ _. refl; texts = λ _ _. refl; number_truth = λ _ _. refl; number_text = λ _ _. refl; truth_number = λ _ _. refl; truth_text = λ _ _. refl; text_number = λ _ _. refl; text_truth = λ _ _. refl }) };

    ghost keeps_labels = { λ t l kept. kept.0 };

    fn holds(&self, atom: &RowAtom, value: &Label) -> bool {
        match atom {
            PairAtom::Left(compare) => compare.holds(&self.numbers(value)),
            PairAtom::Right(atom) => flat_holds(atom, value.values()),
        }
    }

    fn decide(
        &self,
        alloc: Global,
        literals: &[Lit<RowAtom>],
    ) -> Result<Verdict<Label, Chain>, Memory> {
        match self.parts().decide(alloc, literals)? {
            Verdict::Sat(value) => found(alloc, &self.sorts, value),
            Verdict::Unsat => Ok(Verdict::Unsat),
            Verdict::Wide(chain) => Ok(Verdict::Wide(chain_of_numbers(chain))),
        }
    }

    fn copy_value(&self, alloc: Global, value: &Label) -> Result<Label, Memory> {
        value.copy(alloc)
    }

    fn far(&self, chain: &Chain) -> bool {
        self.ints().far(chain)
    }
}
