//! Fields of a type by their names.

ghost use Rattle.std.specs.Prelude.{◌≡◌, ◌≤◌, length};
ghost use Rattle.model_tree.specs.Limits.{most_fields};
ghost use Rattle.model_label.specs.Fields.{has_field, number_at};
ghost use Rattle.fast_tree.specs.Signatures.{plain_signature, plain_sort};

use fast_fault::Text;
use fast_tree::{Signature, Sort};

/// Whether the name is that of a field of this sort.
pub fn has_field(signature: &Signature, sort: Sort, name: &Text) -> bool
    ensures { result ≡ has_field (plain_signature signature.now).fields (plain_sort sort) name.now }
{
    for field in &signature.fields {
        if field.name == *name {
            return field.sort == sort;
        }
    }
    false
}

/// How many fields of this sort stand before the field with this name.
pub fn number_of(signature: &Signature, sort: Sort, name: &Text) -> u32
    requires { length signature.now.fields.items ≤ most_fields }
    ensures { result ≡ number_at (plain_signature signature.now).fields (plain_sort sort) name.now }
{
    let mut number = 0;
    for field in &signature.fields {
        if field.name == *name {
            return number;
        }
        if field.sort == sort {
            number += 1;
        }
    }
    number
}
