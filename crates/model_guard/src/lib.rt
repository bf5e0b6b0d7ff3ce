//! The guards of all sorts, for contracts: which label expressions are whole numbers and which are truth values, and the
//! linear form of each whole number.
//!
//! Nothing here runs. What it proves is that the form of an expression has the expression's value, at labels of any
//! numbers, and that it speaks of the fields that there are.
#![tactic(auto)]

ghost use Rattle.std.specs.Prelude.{◌≡◌, ◌≤◌, ◌<◌, ℕ, true, List, map, length};
ghost use Rattle.model_tree.specs.Limits.{most_fields};
ghost use Rattle.model_tree.specs.Label.{Field};
ghost use Rattle.model_tree.specs.Signature.{PlainField, sort_of, wholes, truths};
ghost use Rattle.model_grammar.specs.Syntax.{Expr};
ghost use Rattle.model_label.specs.Meaning.{value_of, as_whole};
ghost use Rattle.model_form.specs.Form.{value};
ghost use Rattle.model_guard.specs.Forms.{form_of, is_whole, wholes_in};
ghost use Rattle.model_guard.specs.Guards.{is_guard};

/// The form of a whole number has its value, where each field has a value of its sort.
pub fn forms_have_values()
    ensures value { (fields : List PlainField) (values : List Field) (e : Expr) → length fields ≤ most_fields → map sort_of values ≡ map (λ f. f.sort) fields → is_whole fields e ≡ true → value (form_of fields e) (wholes_in values) ≡ as_whole (value_of fields values e) }
    ensures sort { (fields : List PlainField) (values : List Field) (e : Expr) → map sort_of values ≡ map (λ f. f.sort) fields → is_whole fields e ≡ true → sort_of (value_of fields values e) ≡ wholes }
    ensures guard { (fields : List PlainField) (values : List Field) (e : Expr) → map sort_of values ≡ map (λ f. f.sort) fields → is_guard fields e ≡ true → sort_of (value_of fields values e) ≡ truths }
{}
