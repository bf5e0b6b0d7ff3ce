//! A type, with the numbers of its constructors by their names.

ghost use Rattle.std.specs.Prelude.{◌≡◌, ℕ, List, None, IfOk, OnOk, map, get_or};
ghost use Rattle.model_tree.specs.Signature.{ranks_of, names_of};
ghost use Rattle.model_meaning.specs.Outputs.{number_named};
ghost use Rattle.fast_tree.specs.Signatures.{plain_constructor, plain_signature};
ghost use Rattle.tree_files.specs.Types.{number_in, Adds, AreNumbered, plain_type, IsNumbered};

use fast_fault::{Memory, Text};
use fast_tree::{CtorOf, Signature};
use indexmap::IndexMap;
use std::alloc::Global;

/// Numbers by names.
#[derive(Drop)]
pub(crate) struct Numbers {
    by_name: IndexMap<Text, u32>,
}

impl Numbers {
    fn new(alloc: Global) -> Numbers
        ensures { (name : List ℕ) → number_in result name ≡ None }
    {
        Numbers {
            by_name: IndexMap::new(alloc),
        }
    }

    fn number(&self, name: &Text) -> Option<u32>
        ensures { result ≡ number_in self.now name.now }
    {
        self.by_name.get(name).copied()
    }

    /// Adds a name, unless it is there.
    fn add(&mut self, alloc: Global, name: &Text, number: u32) -> Result<(), Memory>
        ensures { OnOk result (Adds self.old self.new name.now number) }
    {
        if self.by_name.get(name).is_none() {
            self.by_name.insert(name.copy(alloc)?, number)?;
        }
        Ok(())
    }
}

fn as_number(place: usize) -> Result<u32, Memory>
    ensures { IfOk result (λ number. number ≡ place) }
{
    // a type of so many constructors is out of reach of any memory
    match u32::try_from(place) {
        Ok(number) => Ok(number),
        Err(_wide) => Err(Memory),
    }
}

/// The number of the first constructor of each name.
fn numbers_of(alloc: Global, constructors: &[CtorOf]) -> Result<Numbers, Memory>
    ensures { IfOk result (AreNumbered (map plain_constructor constructors.now)) }
{
    let mut numbers = Numbers::new(alloc);
    'constructors: for (place, constructor) in constructors.iter().enumerate() {
        let number = as_number(place)?;
        numbers.add(alloc, &constructor.name, number)?;
    }
    Ok(numbers)
}

fn rank_at(constructors: &[CtorOf], place: usize) -> u32
    ensures { result ≡ get_or (map (λ c. c.rank) (map plain_constructor constructors.now)) place 0 }
{
    if place < constructors.len() {
        constructors[place].rank
    } else {
        0
    }
}

/// A type of trees.
#[derive(Drop)]
pub(crate) struct TreeType<'s> {
    pub(crate) signature: &'s Signature,
    pub(crate) numbers: Numbers,
}

impl<'s> TreeType<'s> {
    pub(crate) fn new(alloc: Global, signature: &'s Signature) -> Result<TreeType<'s>, Memory>
        ensures same { IfOk result (λ made. plain_type made ≡ plain_signature signature.now) }
        ensures numbered { IfOk result IsNumbered }
    {
        let numbers = numbers_of(alloc, &signature.constructors)?;
        Ok(TreeType { signature, numbers })
    }

    /// The number of the constructor of this name.
    pub(crate) fn number(&self, name: &Text) -> Option<u32>
        requires { IsNumbered self.now }
        ensures { result ≡ number_named (names_of (plain_type self.now)) name.now }
    {
        self.numbers.number(name)
    }

    /// How many children a constructor has.
    pub(crate) fn rank(&self, constructor: u32) -> u32
        ensures { result ≡ get_or (ranks_of (plain_type self.now)) constructor 0 }
    {
        rank_at(&self.signature.constructors, constructor as usize)
    }
}
