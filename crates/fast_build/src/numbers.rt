//! The numbers of constructors and of demanded languages.

ghost use Rattle.std.specs.Prelude.{◌≡◌, IfOk, map, is_some, true, All, Contains, position};
ghost use Rattle.fast_tree.specs.Signatures.{plain_constructor};
ghost use Rattle.fast_syntax.specs.View.{plain_demand, plain_name};
ghost use Rattle.model_names.specs.Declared.{same_text};
ghost use Rattle.fast_build.specs.Numbers.{find_constructor, IsNumbered, number_in, numbers_for, numbers_for_each};
ghost use Rattle.fast_build.specs.Reached.{demanded_by};

use fast_fault::{Memory, Text};
use fast_syntax::{Demand, Name};
use fast_tree::CtorOf;
use indexmap::IndexSet;
use std::alloc::Global;

/// The place of the constructor of this name.
fn constructor_place(constructors: &[CtorOf], name: &Text) -> Option<usize>
    ensures { result ≡ position (λ c. same_text c.name name.now) constructors.now }
{
    constructors.iter().position(|ctor| ctor.name == *name)
}

/// The number of the constructor of this name: its place in the type.
pub fn constructor_number(constructors: &[CtorOf], name: &Text) -> Result<u32, Memory>
    requires { is_some (find_constructor (map plain_constructor constructors.now) name.now) ≡ true }
    ensures { IfOk result (λ n. IsNumbered (map plain_constructor constructors.now) name.now n) }
{
    let Some(place) = constructor_place(constructors, name) else {
        unreachable!()
    };
    // a type of so many constructors is out of reach of any memory
    match u32::try_from(place) {
        Ok(number) => Ok(number),
        Err(_wide) => Err(Memory),
    }
}

/// The numbers of the languages that are demanded of the variable.
fn demands_on(
    alloc: Global,
    names: &IndexSet<Text>,
    given: &[Demand],
    var: &Text,
) -> Result<Vec<u64>, Memory>
    requires { All (Contains names.now.keys) (demanded_by (map plain_demand given.now)) }
    ensures { IfOk result (λ numbers. numbers.items ≡ numbers_for (number_in names.now.keys) (map plain_demand given.now) var.now) }
{
    let mut numbers = Vec::new(alloc);
    'given: for demand in given {
        if demand.child.text == *var {
            let Some(number) = names.get_index_of(&demand.language.text) else {
                unreachable!()
            };
            numbers.push(number as u64)?;
        }
    }
    Ok(numbers)
}

/// The numbers of the languages that are demanded of each variable.
pub fn demands_on_each(
    alloc: Global,
    names: &IndexSet<Text>,
    given: &[Demand],
    vars: &[Name],
) -> Result<Vec<Vec<u64>>, Memory>
    requires { All (Contains names.now.keys) (demanded_by (map plain_demand given.now)) }
    ensures { IfOk result (λ demands. map (λ d. d.items) demands.items ≡ numbers_for_each (number_in names.now.keys) (map plain_demand given.now) (map plain_name vars.now)) }
{
    let mut demands = Vec::new(alloc);
    'vars: for var in vars {
        demands.push(demands_on(alloc, names, given, &var.text)?)?;
    }
    Ok(demands)
}
