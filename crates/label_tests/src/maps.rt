//! Maps of labels of several fields, through what a theory with maps promises.

ghost use Rattle.std.specs.Prelude.{◌≡◌, ◌<◌, [], ◌∷◌, IfOk, map};
ghost use Rattle.model_tree.specs.Signature.{wholes, truths, texts};
ghost use Rattle.model_form.specs.Over.{IsOver};
ghost use Rattle.label_core.specs.Meaning.{KeepsValue};
ghost use Rattle.record_label.specs.Rows.{RowFits};
ghost use Rattle.record_label.specs.Maps.{EntriesFit, sort_by};
ghost use Rattle.record_label.specs.PlainMaps.{plain_entry};

use crate::samples::{exchange, label, less, signature};
use fast_fault::{Memory, Text};
use flat_label::{BoolAtom, TextAtom, TextSide};
use label_core::{Applied, Formula, Labels, PairAtom, Put, PutMap};
use lin_form::{Form, FormStop};
use lin_solve::{Compare, Relation};
use record_label::{RowAtom, RowEntry, RowLabels, RowMap};
use std::alloc::Global;
use std::test::Fail;

/// Whether a map's copy is equal to it.
fn copied<L: Labels>(alloc: Global, labels: &L, map: &L::Map) -> Result<bool, Memory> {
    Ok(labels.copy_map(alloc, map)? == *map)
}

/// Whether the map makes this of the value.
fn applied<L: Labels>(
    alloc: Global,
    labels: &L,
    map: &L::Map,
    value: &L::Value,
    expected: &L::Value,
) -> Result<bool, Memory>
    requires fits { L.map_fits labels.now map.now }
    requires value { KeepsValue (L.meaning labels.now) value.now }
{
    match labels.apply(alloc, map, value)? {
        Applied::Value(made) => Ok(made == *expected),
        Applied::Range(_) => Ok(false),
    }
}

/// Whether this is what the atom says of the labels that the map into the same labels makes.
fn substituted<L: Labels>(
    alloc: Global,
    labels: &L,
    map: &L::Map,
    atom: &L::Atom,
    expected: &Formula<L::Atom>,
) -> Result<bool, Memory>
    requires fits { L.map_fits labels.now map.now }
    requires makes { L.map_makes labels.now map.now }
    requires atom { L.atom_fits labels.now atom.now }
{
    match labels.subst(alloc, map, atom)? {
        Put::Formula(made) => Ok(made == *expected),
        Put::Range(_) => Ok(false),
    }
}

/// Whether this is the map into the same labels after itself.
fn repeated<L: Labels>(
    alloc: Global,
    labels: &L,
    map: &L::Map,
    expected: &L::Map,
) -> Result<bool, Memory>
    requires fits { L.map_fits labels.now map.now }
    requires makes { L.map_makes labels.now map.now }
{
    match labels.chain_maps(alloc, map, map)? {
        PutMap::Map(made) => Ok(made == *expected),
        PutMap::Range(_) => Ok(false),
    }
}

/// A number outside the label range that the map makes of the value's label.
fn made_outside<L: Labels>(
    alloc: Global,
    labels: &L,
    map: &L::Map,
    value: &L::Value,
) -> Result<Option<i128>, Memory>
    requires fits { L.map_fits labels.now map.now }
    requires value { KeepsValue (L.meaning labels.now) value.now }
{
    match labels.apply(alloc, map, value)? {
        Applied::Value(_) => Ok(None),
        Applied::Range(number) => Ok(Some(number)),
    }
}

/// A number outside its range of the atom with the map's entries put.
fn put_outside<L: Labels>(
    alloc: Global,
    labels: &L,
    map: &L::Map,
    atom: &L::Atom,
) -> Result<Option<i128>, Memory>
    requires fits { L.map_fits labels.now map.now }
    requires makes { L.map_makes labels.now map.now }
    requires atom { L.atom_fits labels.now atom.now }
{
    match labels.subst(alloc, map, atom)? {
        Put::Formula(_) => Ok(None),
        Put::Range(number) => Ok(Some(number)),
    }
}

/// A number outside its range of the map after itself.
fn chained_outside<L: Labels>(
    alloc: Global,
    labels: &L,
    map: &L::Map,
) -> Result<Option<i128>, Memory>
    requires fits { L.map_fits labels.now map.now }
    requires makes { L.map_makes labels.now map.now }
{
    match labels.chain_maps(alloc, map, map)? {
        PutMap::Map(_) => Ok(None),
        PutMap::Range(number) => Ok(Some(number)),
    }
}

/// 2147483647 times the whole number.
fn times(alloc: Global, field: u32) -> Result<Form, FormStop>
    requires { field < 2 }
    ensures { IfOk result (IsOver 2) }
{
    Form::field(alloc, field)?.scaled(alloc, 2147483647)
}

/// The map to x < y, each whole number times 2147483647, and the same text.
fn enlarge(alloc: Global) -> Result<RowMap, FormStop>
    ensures fit { IfOk result (λ made. EntriesFit (truths ∷ wholes ∷ texts ∷ wholes ∷ []) (map plain_entry made.entries.items)) }
    ensures sorts { IfOk result (λ made. map sort_by (map plain_entry made.entries.items) ≡ truths ∷ wholes ∷ texts ∷ wholes ∷ []) }
{
    let mut entries = Vec::new(alloc);
    entries.push(RowEntry::Truth(Formula::Atom(less(alloc, 0, 1)?)))?;
    entries.push(RowEntry::Number(times(alloc, 0)?))?;
    entries.push(RowEntry::Text(TextSide::Field(0)))?;
    entries.push(RowEntry::Number(times(alloc, 1)?))?;
    let written = Vec::new(alloc);
    Ok(RowMap { entries, written })
}

/// What is outside of what the map makes of a label, of a comparison with it and of the map after itself.
fn outside(alloc: Global, theory: &RowLabels) -> Result<[Option<i128>; 3], FormStop>
    requires { theory.now ≡ truths ∷ wholes ∷ texts ∷ wholes ∷ [] }
{
    let large = enlarge(alloc)?;
    let value = label(alloc, true, 0, "a", 4611686018427387904)?;
    let atom = PairAtom::Left(Compare {
        left: times(alloc, 0)?,
        relation: Relation::Less,
        right: Form::field(alloc, 1)?,
    });
    Ok([
        made_outside(alloc, theory, &large, &value)?,
        put_outside(alloc, theory, &large, &atom)?,
        chained_outside(alloc, theory, &large)?,
    ])
}

/// Whether the map makes what it should of a label.
fn makes(alloc: Global, theory: &RowLabels, once: &RowMap) -> Result<bool, Memory>
    requires sorts { theory.now ≡ truths ∷ wholes ∷ texts ∷ wholes ∷ [] }
    requires fits { EntriesFit theory.now (map plain_entry once.now.entries.items) }
{
    let value = label(alloc, true, 5, "a", -2)?;
    let expected = label(alloc, false, -2, "a", 5)?;
    applied(alloc, theory, once, &value, &expected)
}

/// Whether x < y becomes y < x.
fn exchanges(alloc: Global, theory: &RowLabels, once: &RowMap) -> Result<bool, Memory>
    requires sorts { theory.now ≡ truths ∷ wholes ∷ texts ∷ wholes ∷ [] }
    requires fits { EntriesFit theory.now (map plain_entry once.now.entries.items) }
    requires makes { map sort_by (map plain_entry once.now.entries.items) ≡ theory.now }
{
    let atom = less(alloc, 0, 1)?;
    let expected = Formula::Atom(less(alloc, 1, 0)?);
    substituted(alloc, theory, once, &atom, &expected)
}

#[test]
fn maps_through_the_bound(rt: HostRuntime) -> Result<(), Fail> {
    let alloc = rt.alloc();
    let theory = RowLabels::new(alloc, &signature(alloc)?)?;
    let once = exchange(alloc, 1, 0)?;
    assert!(rt; copied(alloc, &theory, &once)?);
    assert!(rt; makes(alloc, &theory, &once)?);
    assert!(rt; exchanges(alloc, &theory, &once)?);
    let twice = exchange(alloc, 0, 1)?;
    assert!(rt; repeated(alloc, &theory, &once, &twice)?);
    // 2147483647 times 2^62, and 2147483647 times itself
    let product = 4611686014132420609;
    let [made, put, chained] = outside(alloc, &theory)?;
    assert!(rt; made == Some(9903520309671356180765605888));
    assert!(rt; put == Some(product));
    assert!(rt; chained == Some(product));
    Ok(())
}

/// The map to what is never true, two whole numbers and this text.
fn constant(alloc: Global, text: &str) -> Result<RowMap, Memory>
    ensures fit { IfOk result (λ made. EntriesFit (truths ∷ wholes ∷ texts ∷ wholes ∷ []) (map plain_entry made.entries.items)) }
    ensures sorts { IfOk result (λ made. map sort_by (map plain_entry made.entries.items) ≡ truths ∷ wholes ∷ texts ∷ wholes ∷ []) }
{
    let mut entries = Vec::new(alloc);
    let denied = Formula::Not(Box::new(alloc, Formula::Yes)?);
    entries.push(RowEntry::Truth(denied))?;
    entries.push(RowEntry::Number(Form::field(alloc, 0)?))?;
    let text = TextSide::Constant(Text::of(alloc, text)?);
    entries.push(RowEntry::Text(text))?;
    entries.push(RowEntry::Number(Form::field(alloc, 1)?))?;
    let written = Vec::new(alloc);
    Ok(RowMap { entries, written })
}

/// That the text is this one.
fn equals(alloc: Global, text: &str) -> Result<RowAtom, Memory>
    ensures { IfOk result (RowFits (truths ∷ wholes ∷ texts ∷ wholes ∷ [])) }
{
    let left = TextSide::Field(0);
    let right = TextSide::Constant(Text::of(alloc, text)?);
    Ok(PairAtom::Right(PairAtom::Right(TextAtom { left, right })))
}

/// Whether that the text is this one becomes what is expected.
fn says(
    alloc: Global,
    theory: &RowLabels,
    put: &RowMap,
    text: &str,
    expected: bool,
) -> Result<bool, Memory>
    requires sorts { theory.now ≡ truths ∷ wholes ∷ texts ∷ wholes ∷ [] }
    requires fits { EntriesFit theory.now (map plain_entry put.now.entries.items) }
    requires makes { map sort_by (map plain_entry put.now.entries.items) ≡ theory.now }
{
    let atom = equals(alloc, text)?;
    let expected = if expected { Formula::Yes } else { Formula::No };
    substituted(alloc, theory, put, &atom, &expected)
}

/// Whether the truth value becomes what is denied.
fn denies(alloc: Global, theory: &RowLabels, put: &RowMap) -> Result<bool, Memory>
    requires sorts { theory.now ≡ truths ∷ wholes ∷ texts ∷ wholes ∷ [] }
    requires fits { EntriesFit theory.now (map plain_entry put.now.entries.items) }
    requires makes { map sort_by (map plain_entry put.now.entries.items) ≡ theory.now }
{
    let atom = PairAtom::Right(PairAtom::Left(BoolAtom { field: 0 }));
    let expected = Formula::Not(Box::new(alloc, Formula::Yes)?);
    substituted(alloc, theory, put, &atom, &expected)
}

#[test]
fn puts_truths_and_texts(rt: HostRuntime) -> Result<(), Fail> {
    let alloc = rt.alloc();
    let theory = RowLabels::new(alloc, &signature(alloc)?)?;
    let cases: &[(&str, &str, bool)] = &[("a", "a", true), ("a", "b", false), ("", "", true)];
    for case in cases {
        let map = constant(alloc, case.0)?;
        assert!(rt;
            says(alloc, &theory, &map, case.1, case.2)?,
            "{} = {}",
            case.0,
            case.1
        );
        assert!(rt; denies(alloc, &theory, &map)?);
    }
    Ok(())
}
