//! The terms of a transducer for the terms of a program.

ghost use Rattle.std.specs.Prelude.{◌≡◌, ◌≤◌, IfOk, map, length, position};
ghost use Rattle.model_tree.specs.Limits.{most_fields};
ghost use Rattle.fast_tree.specs.Signatures.{plain_signature};
ghost use Rattle.fast_syntax.specs.View.{plain_name};
ghost use Rattle.fast_syntax.specs.Plain.{plain_out};
ghost use Rattle.model_names.specs.Declared.{same_text};
ghost use Rattle.sttr_core.specs.Terms.{plain_term};
ghost use Rattle.fast_build.specs.Numbers.{number_in};
ghost use Rattle.fast_build.specs.Terms.{IsChild, IsVariable, IsTermFor, TermStands};

use crate::numbers::constructor_number;
use fast_fault::{Memory, Text};
use fast_syntax::Name;
use fast_syntax::items::Out;
use fast_tree::Signature;
use indexmap::IndexSet;
use record_label::{RowMap, map_of};
use std::alloc::Global;
use sttr_core::Term;

/// The place of the variable of this name.
fn variable_place(vars: &[Name], name: &Text) -> Option<usize>
    ensures { result ≡ position (λ v. same_text v.text name.now) vars.now }
{
    vars.iter().position(|var| var.text == *name)
}

/// The number of the child that the variable of this name stands for.
fn child_number(vars: &[Name], name: &Text) -> Result<u32, Memory>
    requires { IsVariable (map plain_name vars.now) name.now }
    ensures { IfOk result (λ n. IsChild (map plain_name vars.now) name.now n) }
{
    let Some(place) = variable_place(vars, name) else {
        unreachable!()
    };
    // a rule of so many variables is out of reach of any memory
    match u32::try_from(place) {
        Ok(number) => Ok(number),
        Err(_wide) => Err(Memory),
    }
}

/// The term for a term, in which each transformation has the number of its name.
pub fn term_for(
    alloc: Global,
    from: &Signature,
    into: &Signature,
    names: &IndexSet<Text>,
    vars: &[Name],
    out: &Out,
) -> Result<Term<RowMap>, Memory>
    requires few { length from.now.fields.items ≤ most_fields }
    requires stands { TermStands (plain_signature from.now) (plain_signature into.now) names.now.keys (map plain_name vars.now) (plain_out out.now) }
    ensures { IfOk result (λ term. IsTermFor (plain_signature from.now) (plain_signature into.now) (number_in names.now.keys) (map plain_name vars.now) (plain_out out.now) (plain_term term)) }
{
    match out {
        Out::Child(child) => Ok(Term::Same(child_number(vars, &child.text)?)),
        Out::Call(name, child) => {
            let Some(number) = names.get_index_of(&name.text) else {
                unreachable!()
            };
            Ok(Term::Call(number as u64, child_number(vars, &child.text)?))
        }
        Out::Node(name, labels, parts) => {
            let constructor = constructor_number(&into.constructors, &name.text)?;
            let map = map_of(alloc, labels, from, into)?;
            let mut made = Vec::new(alloc);
            'parts: for part in parts {
                made.push(term_for(alloc, from, into, names, vars, part)?)?;
            }
            Ok(Term::Node(constructor, map, made))
        }
    }
}
