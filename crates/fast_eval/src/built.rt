//! What was built for names.

ghost use Rattle.std.specs.Prelude.{◌≡◌, List, OnOk, IfOk, is_some, true};
ghost use Rattle.std.specs.Option.{option_map};
ghost use Rattle.model_grammar.specs.Syntax.{Item};
ghost use Rattle.model_names.specs.Declared.{find_type};
ghost use Rattle.model_names.specs.Kinds.{transformation};
ghost use Rattle.fast_build.specs.Items.{items_of};
ghost use Rattle.fast_eval.specs.Table.{labels_of, AddsLabels, HasBuilt, IsNamed, IsGrown, IsBuiltNamed, IsTransBuiltNamed, IsLanguageAt, IsTransAt, AreLabels, AreBuilt};

use crate::table::Table;
use fast_fault::{Memory, Text};
use fast_syntax::items::Body;
use indexmap::IndexMap;
use program_check::Checked;
use record_label::{RowAtom, RowLabels, RowMap};
use sta_core::Lang;
use std::alloc::Global;
use sttr_core::Trans;

/// The automata of languages and the transducers of transformations that were built for names. Beside them the labels of
/// each type of the program, made once.
#[derive(Drop)]
pub struct Built {
    languages: Table<Lang<RowAtom>>,
    transformations: Table<Trans<RowAtom, RowMap>>,
    labels: IndexMap<Text, RowLabels>,
}

/// Keeps the labels of the type of this name.
fn add_labels(
    alloc: Global,
    checked: &Checked,
    labels: &mut IndexMap<Text, RowLabels>,
    of: &Text,
) -> Result<(), Memory>
    requires declared { is_some (find_type (items_of checked.now) of.now) ≡ true }
    ensures added { OnOk result (AddsLabels (items_of checked.now) labels.old labels.new of.now) }
{
    let Some(signature) = checked.signature(of) else {
        unreachable!()
    };
    let own = RowLabels::new(alloc, signature)?;
    labels.insert(of.copy(alloc)?, own)?;
    Ok(())
}

/// The labels of each type of the program.
fn labels_of_types(alloc: Global, checked: &Checked) -> Result<IndexMap<Text, RowLabels>, Memory>
    ensures { IfOk result (AreLabels (items_of checked.now)) }
{
    let mut labels = IndexMap::new(alloc);
    'items: for item in &checked.program().items {
        if let Body::Sorts(own) = &item.body {
            add_labels(alloc, checked, &mut labels, &own.name.text)?;
        }
    }
    Ok(labels)
}

impl Built {
    /// The labels of the program's types, and no language or transformation.
    pub fn new(alloc: Global, checked: &Checked) -> Result<Built, Memory>
        ensures { IfOk result (AreBuilt (items_of checked.now)) }
    {
        let labels = labels_of_types(alloc, checked)?;
        Ok(Built {
            languages: Table::new(alloc),
            transformations: Table::new(alloc),
            labels,
        })
    }

    /// The labels of the type of this name.
    pub fn labels(&self, of: &Text) -> Option<&RowLabels>
        ensures { option_map (λ labels. labels.now) result ≡ labels_of self.now.labels of.now }
    {
        self.labels.get(of)
    }

    /// The languages that were built.
    pub fn languages(&self) -> &Table<Lang<RowAtom>>
        ensures { result.now ≡ self.now.languages }
    {
        &self.languages
    }

    /// Gives the name the language at this place, unless it has one.
    pub fn name_language(&mut self, alloc: Global, name: &Text, place: usize) -> Result<(), Memory>
        ensures built { (items : List Item) → AreBuilt items self.old → IsLanguageAt items self.old name.now place → AreBuilt items self.new }
        ensures grown { IsGrown self.old self.new }
        ensures named { OnOk result (IsNamed self.new name.now) }
    {
        self.languages.put(alloc, name, place)
    }

    /// Keeps a language for the name, unless it has one.
    pub fn add_language(
        &mut self,
        alloc: Global,
        name: &Text,
        lang: Lang<RowAtom>,
    ) -> Result<(), Memory>
        ensures built { (items : List Item) → AreBuilt items self.old → IsBuiltNamed items name.now lang → AreBuilt items self.new }
        ensures grown { IsGrown self.old self.new }
        ensures named { OnOk result (IsNamed self.new name.now) }
    {
        self.languages.add(alloc, name, lang)
    }

    /// The transformations that were built.
    pub fn transformations(&self) -> &Table<Trans<RowAtom, RowMap>>
        ensures { result.now ≡ self.now.transformations }
    {
        &self.transformations
    }

    /// Gives the name the transformation at this place, unless it has one.
    pub fn name_transformation(
        &mut self,
        alloc: Global,
        name: &Text,
        place: usize,
    ) -> Result<(), Memory>
        ensures built { (items : List Item) → AreBuilt items self.old → IsTransAt items self.old name.now place → AreBuilt items self.new }
        ensures grown { IsGrown self.old self.new }
        ensures named { OnOk result (HasBuilt transformation self.new name.now) }
    {
        self.transformations.put(alloc, name, place)
    }

    /// Keeps a transformation for the name, unless it has one.
    pub fn add_transformation(
        &mut self,
        alloc: Global,
        name: &Text,
        trans: Trans<RowAtom, RowMap>,
    ) -> Result<(), Memory>
        ensures built { (items : List Item) → AreBuilt items self.old → IsTransBuiltNamed items name.now trans → AreBuilt items self.new }
        ensures grown { IsGrown self.old self.new }
        ensures named { OnOk result (HasBuilt transformation self.new name.now) }
    {
        self.transformations.add(alloc, name, trans)
    }
}
