//! What may fail in a label expression, and what is known of one: its sort, whether it has the name of a field, and its form
//! as a sum where it is a whole number.

ghost use Rattle.std.specs.Prelude.{◌≡◌, ◌<◌, MatchOption, IfSome, Some, None, [], ◌≤◌, negsuc, false, cond, map, not, length, nat_le, encode_utf8_all};
ghost use Rattle.std.specs.Option.{option_map, option_and_then};
ghost use Rattle.fast_fault.specs.declared.code.Code.TheVariants as code;
ghost use Rattle.fast_tree.specs.Signatures.{plain_sort};
ghost use Rattle.fast_syntax.specs.View.{plain_field};
ghost use Rattle.fast_syntax.specs.Plain.{plain_expr};
ghost use Rattle.fast_syntax.specs.Slices.{plain_operands, plain_sum_parts, plain_prod_parts};
ghost use Rattle.model_tree.specs.Limits.{longest_text, greatest_divisor};
ghost use Rattle.model_tree.specs.Signature.{wholes, truths};
ghost use Rattle.model_form.specs.Sums.{sum_form, product_form};
ghost use Rattle.model_label.specs.Fields.{same_sort};
ghost use Rattle.fast_tree.specs.declared.signature.Sort.TheVariants as Sort;
ghost use Rattle.model_grammar.specs.Syntax as plain;
ghost use Rattle.model_grammar.specs.declared.Chain.TheVariants as kind;
ghost use Rattle.model_checks.specs.Failures.{fails_if};
ghost use Rattle.model_checks.specs.Sorts.{find_field, is_other_sort, differ_in_sort};
ghost use Rattle.model_tree.specs.Range.{is_label_number};
ghost use Rattle.model_checks.specs.Forms.{is_out_of_range, kept, has_field, form_numbered, product_of, remainder_of, divisor_of, with_part};
ghost use Rattle.model_checks.specs.Labels.{unknown_field, label_failures, operands_failures, sorted_failures, divided};
ghost use Rattle.program_check.specs.Notes.{HasMemory, Notes};
ghost use Rattle.program_check.specs.Known.{plain_scope, is_whole, IsField, IsKnown, form_made, is_range, IsTaken, IsMade, AreTruths, plain_added, joined, sort_failures, sides_failures, next_failures, next_form};

use crate::checker::Checker;
use crate::limits::{LONGEST_TEXT, MOST_FIELDS};
use crate::types::sort_named;
use fast_fault::{Code, Pos, Text};
use fast_syntax::FieldItem;
use fast_syntax::expressions::{Expr, Node, ProdPart, SumPart};
use fast_tree::Sort;
use lin_form::{Form, FormStop, GREATEST_DIVISOR, MOST_PARTS, Signed};
use model_grammar::Rel;

/// The fields whose names an expression may have, where they are known.
#[derive(Clone, Copy)]
pub(crate) struct Scope<'p> {
    pub(crate) fields: Option<&'p [FieldItem]>,
}

/// What is known of an expression: its sort, whether it has the name of a field in it, and its form.
#[derive(Drop)]
pub(crate) struct Known {
    pub(crate) sort: Option<Sort>,
    pub(crate) has_field: bool,
    pub(crate) form: Option<Form>,
}

/// A side of a comparison, or a label: its sort, whether it has the name of a field in it, and where it stands.
#[derive(Clone, Copy)]
pub(crate) struct Side {
    pub(crate) sort: Option<Sort>,
    pub(crate) has_field: bool,
    pub(crate) place: Pos,
}

fn is_whole(sort: Option<Sort>) -> bool
    ensures { result ≡ is_whole (option_map plain_sort sort) }
{
    match sort {
        Some(Sort::Int) => true,
        Some(Sort::Bool) | Some(Sort::Text) => false,
        None => false,
    }
}

/// The sort of the field of this name, and its number among the whole numbers.
fn find_field(fields: &[FieldItem], name: &Text) -> Option<(Option<Sort>, usize)>
    ensures { MatchOption result (find_field (map plain_field fields.now) name.now ≡ None) (λ found. IsField (map plain_field fields.now) name.now found.0 found.1) }
{
    let mut number = 0;
    'fields: for field in fields {
        let sort = sort_named(&field.sort.text);
        if field.name.text == *name {
            return Some((sort, number));
        }
        if is_whole(sort) {
            number += 1;
        }
    }
    None
}

fn is_label_number(number: i128) -> bool
    ensures { result ≡ is_label_number number }
{
    number >= i64::MIN as i128 && number <= i64::MAX as i128
}

impl Known {
    /// An expression without a form.
    fn formless(sort: Option<Sort>, has_field: bool) -> Known
        ensures { result ≡ record { sort = sort; has_field = has_field; form = None } }
    {
        Known {
            sort,
            has_field,
            form: None,
        }
    }

    /// It, as a side of a comparison that stands here. Its form is let go.
    pub(crate) fn into_side(self, place: Pos) -> Side
        ensures { result ≡ record { sort = self.sort; has_field = self.has_field; place = place } }
    {
        Side {
            sort: self.sort,
            has_field: self.has_field,
            place,
        }
    }
}

/// Whether it is known to be of another sort.
fn is_other_sort(sort: Sort, known: Option<Sort>) -> bool
    ensures { result ≡ is_other_sort (plain_sort sort) (option_map plain_sort known) }
{
    match known {
        Some(found) => found != sort,
        None => false,
    }
}

pub(crate) fn differ_in_sort(left: Option<Sort>, right: Option<Sort>) -> bool
    ensures { result ≡ differ_in_sort (option_map plain_sort left) (option_map plain_sort right) }
{
    match left {
        Some(sort) => is_other_sort(sort, right),
        None => false,
    }
}

/// A written number from 1 to 4,096.
fn divisor_of(e: &Expr) -> Option<u32>
    ensures is { result ≡ divisor_of (plain_expr e.now) }
    ensures within { IfSome result (λ k. (0 < k) × (k ≤ greatest_divisor)) }
{
    match &e.node {
        Node::Num(number) => {
            let number = *number;
            if 1 <= number && number <= GREATEST_DIVISOR {
                Some(number as u32)
            } else {
                None
            }
        }
        _ => None,
    }
}

impl Checker {
    /// The form that was made, or none where memory ran out, which is kept in mind.
    fn take_form<E: Drop>(&mut self, made: Result<Form, E>) -> Option<Form>
        ensures noted { Notes self.old self.new [] }
        ensures made { HasMemory self.new → IsTaken made result }
    {
        match made {
            Ok(form) => Some(form),
            Err(_want) => {
                self.ran_out = true;
                None
            }
        }
    }

    /// The form of a field of this sort and with this number among the whole numbers, where it is one of the first eight.
    fn form_of_field(&mut self, sort: Option<Sort>, number: usize) -> Option<Form>
        ensures noted { Notes self.old self.new [] }
        ensures form { HasMemory self.new → result ≡ option_and_then (λ s. cond (same_sort s wholes) (form_numbered number) None) (option_map plain_sort sort) }
    {
        let Some(Sort::Int) = sort else {
            return None;
        };
        if number >= MOST_FIELDS {
            return None;
        }
        let made = Form::field(self.alloc, number as u32);
        self.take_form(made)
    }

    /// One more part of a sum.
    fn with_part(
        &mut self,
        added: Option<Vec<Signed>>,
        minus: bool,
        form: Option<Form>,
    ) -> Option<Vec<Signed>>
        ensures noted { Notes self.old self.new [] }
        ensures added { HasMemory self.new → plain_added result ≡ joined (plain_added added) (with_part minus form (Some [])) }
    {
        let Some(mut parts) = added else {
            return None;
        };
        let Some(form) = form else {
            return None;
        };
        match parts.push(Signed { minus, form }) {
            Ok(()) => Some(parts),
            Err(_failed) => {
                self.ran_out = true;
                None
            }
        }
    }

    /// A form that may be out of range.
    fn keep(&mut self, made: Result<Form, FormStop>, place: Pos) -> Option<Form>
        ensures noted { Notes self.old self.new (fails_if (is_range made) code.NumberRange place) }
        ensures form { HasMemory self.new → result ≡ form_made made }
        ensures range { HasMemory self.new → IsMade made }
    {
        match made {
            Ok(form) => Some(form),
            Err(FormStop::Range(_)) => {
                self.note(Code::NumberRange, place);
                None
            }
            Err(FormStop::Memory) => {
                self.ran_out = true;
                None
            }
        }
    }

    /// The name of a field.
    fn check_field(&mut self, scope: &Scope, name: &Text, place: Pos) -> Known
        ensures noted { Notes self.old self.new (unknown_field (plain_scope scope.now) name.now place) }
        ensures known { HasMemory self.new → IsKnown scope.now (plain.field place name.now) result }
    {
        let Some(fields) = scope.fields else {
            return Known::formless(None, false);
        };
        let Some((sort, number)) = find_field(fields, name) else {
            self.note(Code::UnknownField, place);
            return Known::formless(None, false);
        };
        let form = self.form_of_field(sort, number);
        Known {
            sort,
            has_field: true,
            form,
        }
    }

    fn check_number(&mut self, scope: &Scope, number: i128, place: Pos) -> Known
        ensures noted { Notes self.old self.new (fails_if (not (is_label_number number)) code.NumberRange place) }
        ensures known { HasMemory self.new → IsKnown scope.now (plain.number place number) result }
    {
        if !is_label_number(number) {
            self.note(Code::NumberRange, place);
            return Known::formless(Some(Sort::Int), false);
        }
        let made = Form::number(self.alloc, number);
        Known {
            sort: Some(Sort::Int),
            has_field: false,
            form: self.take_form(made),
        }
    }

    fn check_text(&mut self, text: &Text, place: Pos) -> Known
        ensures noted { Notes self.old self.new (fails_if (not (nat_le (length (encode_utf8_all text.now)) longest_text)) code.TooMany place) }
        ensures known { result ≡ record { sort = Some Sort.Text; has_field = false; form = None } }
    {
        self.note_if(text.as_str().len() > LONGEST_TEXT, Code::TooMany, place);
        Known::formless(Some(Sort::Text), false)
    }

    /// It is to be of this sort.
    fn check_sort(&mut self, sort: Sort, side: Side)
        ensures { Notes self.old self.new (sort_failures (plain_sort sort) side) }
    {
        self.note_if(is_other_sort(sort, side.sort), Code::WrongSort, side.place);
    }

    /// The sides of an equality are of one sort, those of another comparison are whole numbers.
    fn check_sides(&mut self, rel: Rel, left: Side, right: Side)
        ensures { Notes self.old self.new (sides_failures rel left right) }
    {
        match rel {
            Rel::Equal | Rel::NotEqual => {
                let differ = differ_in_sort(left.sort, right.sort);
                self.note_if(differ, Code::WrongSort, right.place);
            }
            Rel::Less | Rel::AtMost | Rel::Greater | Rel::AtLeast => {
                self.check_sort(Sort::Int, left);
                self.check_sort(Sort::Int, right);
            }
        }
    }

    /// A form with its sign changed.
    fn negate(&mut self, form: Option<Form>, place: Pos) -> Option<Form>
        ensures noted { Notes self.old self.new (fails_if (is_out_of_range (option_map (product_form (negsuc 0)) form)) code.NumberRange place) }
        ensures form { HasMemory self.new → result ≡ kept (option_map (product_form (negsuc 0)) form) }
    {
        match form {
            Some(form) => {
                let made = form.scaled(self.alloc, -1);
                self.keep(made, place)
            }
            None => None,
        }
    }

    /// The form of a sum of these parts, where all have forms.
    fn add_up(&mut self, added: Option<Vec<Signed>>, place: Pos) -> Option<Form>
        ensures noted { Notes self.old self.new (fails_if (is_out_of_range (option_map sum_form (plain_added added))) code.NumberRange place) }
        ensures form { HasMemory self.new → result ≡ kept (option_map sum_form (plain_added added)) }
    {
        let Some(parts) = added else {
            return None;
        };
        if parts.len() > MOST_PARTS {
            self.ran_out = true;
            return None;
        }
        let made = Form::of_sum(self.alloc, &parts);
        self.keep(made, place)
    }

    /// The product of two forms, of which one has no field.
    fn multiply(&mut self, before: &Known, factor: &Known, place: Pos) -> Option<Form>
        ensures noted { Notes self.old self.new (fails_if (is_out_of_range (product_of before.now.has_field before.now.form factor.now.has_field factor.now.form)) code.NumberRange place) }
        ensures form { HasMemory self.new → result ≡ kept (product_of before.now.has_field before.now.form factor.now.has_field factor.now.form) }
    {
        let (Some(left), Some(right)) = (&before.form, &factor.form) else {
            return None;
        };
        if !factor.has_field {
            let made = left.scaled(self.alloc, right.constant());
            return self.keep(made, place);
        }
        if before.has_field {
            return None;
        }
        let made = right.scaled(self.alloc, left.constant());
        self.keep(made, place)
    }

    /// A step of a product to a remainder.
    fn check_remainder(&mut self, before: Known, e: &Expr) -> Option<Form>
        ensures noted { Notes self.old self.new (divided (plain_expr e.now)) }
        ensures form { HasMemory self.new → result ≡ remainder_of before.form (divisor_of (plain_expr e.now)) }
    {
        let Some(divisor) = divisor_of(e) else {
            self.note(Code::BadModulus, e.place);
            return None;
        };
        let Some(form) = before.form else {
            return None;
        };
        let made = form.into_remainder(self.alloc, divisor);
        self.take_form(made)
    }

    /// A step of a product by a factor or to a remainder.
    fn check_next(
        &mut self,
        before: Known,
        known: &Known,
        part: &ProdPart,
        place: Pos,
    ) -> Option<Form>
        ensures noted { Notes self.old self.new (next_failures place before.has_field before.form part.now.remainder known.now.has_field known.now.form (plain_expr part.now.part)) }
        ensures form { HasMemory self.new → result ≡ next_form before.has_field before.form part.now.remainder known.now.has_field known.now.form (plain_expr part.now.part) }
    {
        if part.remainder {
            self.check_remainder(before, &part.part)
        } else {
            let both = before.has_field & known.has_field;
            self.note_if(both, Code::NotLinear, place);
            self.multiply(&before, known, place)
        }
    }

    /// Notes what fails in an expression, and tells what is known of it.
    #[cycle(check_label)]
    pub(crate) fn check_label(&mut self, scope: &Scope, e: &Expr) -> Known
        ensures noted { Notes self.old self.new (label_failures (plain_scope scope.now) (plain_expr e.now)) }
        ensures known { HasMemory self.new → IsKnown scope.now (plain_expr e.now) result }
    {
        match &e.node {
            Node::Field(name) => self.check_field(scope, name, e.place),
            Node::Num(number) => self.check_number(scope, *number, e.place),
            Node::Str(text) => self.check_text(text, e.place),
            Node::Truth(_) => Known::formless(Some(Sort::Bool), false),
            Node::Not(inside) => {
                let truth = self
                    .check_sorted(scope, Sort::Bool, inside)
                    .into_side(e.place);
                Known::formless(Some(Sort::Bool), truth.has_field)
            }
            Node::Minus(inside) => {
                let known = self.check_sorted(scope, Sort::Int, inside);
                let form = self.negate(known.form, e.place);
                Known {
                    sort: Some(Sort::Int),
                    has_field: known.has_field,
                    form,
                }
            }
            Node::Compare(rel, left, right) => {
                let of_left = self.check_label(scope, left).into_side(left.place);
                let of_right = self.check_label(scope, right).into_side(right.place);
                self.check_sides(*rel, of_left, of_right);
                let has_field = of_left.has_field | of_right.has_field;
                Known::formless(Some(Sort::Bool), has_field)
            }
            Node::Or(parts) => self.check_truths(scope, parts),
            Node::And(parts) => self.check_truths(scope, parts),
            Node::Sum(parts) => self.check_sum(scope, parts, e.place),
            Node::Prod(parts) => self.check_product(scope, parts, e.place),
        }
    }

    /// An expression that is to be of this sort.
    #[cycle(check_label)]
    pub(crate) fn check_sorted(&mut self, scope: &Scope, sort: Sort, e: &Expr) -> Known
        ensures noted { Notes self.old self.new (sorted_failures (plain_scope scope.now) (plain_sort sort) (plain_expr e.now)) }
        ensures known { HasMemory self.new → IsKnown scope.now (plain_expr e.now) result }
    {
        let known = self.check_label(scope, e);
        self.note_if(is_other_sort(sort, known.sort), Code::WrongSort, e.place);
        known
    }

    /// Operands that are to be truth values, as all of them are together.
    #[cycle(check_label)]
    fn check_truths(&mut self, scope: &Scope, parts: &[Expr]) -> Known
        ensures noted { Notes self.old self.new (operands_failures (plain_scope scope.now) truths (plain_operands parts.now)) }
        ensures known { HasMemory self.new → AreTruths scope.now (plain_operands parts.now) result }
    {
        let mut has_field = false;
        'parts: for part in parts {
            let truth = self
                .check_sorted(scope, Sort::Bool, part)
                .into_side(part.place);
            has_field = has_field | truth.has_field;
        }
        Known::formless(Some(Sort::Bool), has_field)
    }

    #[cycle(check_label)]
    fn check_sum(&mut self, scope: &Scope, parts: &[SumPart], place: Pos) -> Known
        ensures noted { Notes self.old self.new (label_failures (plain_scope scope.now) (plain.chain kind.Sum place (plain_sum_parts parts.now))) }
        ensures known { HasMemory self.new → IsKnown scope.now (plain.chain kind.Sum place (plain_sum_parts parts.now)) result }
    {
        let mut has_field = false;
        let mut added = Some(Vec::new(self.alloc));
        'parts: for part in parts {
            let known = self.check_sorted(scope, Sort::Int, &part.part);
            has_field = has_field | known.has_field;
            added = self.with_part(added, part.minus, known.form);
        }
        let form = self.add_up(added, place);
        Known {
            sort: Some(Sort::Int),
            has_field,
            form,
        }
    }

    #[cycle(check_label)]
    fn check_product(&mut self, scope: &Scope, parts: &[ProdPart], place: Pos) -> Known
        ensures noted { Notes self.old self.new (label_failures (plain_scope scope.now) (plain.chain kind.Product place (plain_prod_parts parts.now))) }
        ensures known { HasMemory self.new → IsKnown scope.now (plain.chain kind.Product place (plain_prod_parts parts.now)) result }
    {
        let one = Form::number(self.alloc, 1);
        let mut before = Known {
            sort: Some(Sort::Int),
            has_field: false,
            form: self.take_form(one),
        };
        'parts: for part in parts {
            let known = self.check_sorted(scope, Sort::Int, &part.part);
            let has_field = before.has_field | known.has_field;
            let form = self.check_next(before, &known, part, place);
            before = Known {
                sort: Some(Sort::Int),
                has_field,
                form,
            };
        }
        before
    }
}
