//! Forms and their readers.

ghost use Rattle.std.specs.Prelude.{◌≡◌, ℤ, ◌<◌, ◌≤◌, map, IfOk, length, slice_index_or};
ghost use Rattle.model_form.specs.Form.{constant_of, fields_of, remainders_of};
ghost use Rattle.model_form.specs.Sums.{number_form, field_form};
ghost use Rattle.model_tree.specs.Limits.{most_fields};
ghost use Rattle.model_tree.specs.Range.{IsLabelNumber};
ghost use Rattle.model_form.specs.Ranges.{IsForm};
ghost use Rattle.lin_form.specs.Nest.{base_of, divisors_of, nest_front, depth_over, depths, AreDivisors};
ghost use Rattle.lin_form.specs.Terms.{plain_fields, plain_remainders};
ghost use Rattle.lin_form.specs.Whole.{IsWhole};

use fast_fault::Memory;
use std::alloc::Global;
use std::marker::Model;

/// The greatest number that a remainder is taken by.
pub const GREATEST_DIVISOR: i128 = 4_096;

/// Parts of a sum; no text has so many.
pub const MOST_PARTS: usize = 1_048_576;

/// The most remainders that may stand in one another in a form, where remainders of nothing but a remainder count as one
/// with it. A form that would nest deeper is told as want of memory, since going over it takes as much of the stack.
pub const DEEPEST: u32 = 2_048;

/// A coefficient of the field with this number.
#[derive(Clone, Copy, Debug, PartialEq, Eq)]
pub struct FieldTerm {
    pub field: u32,
    pub coefficient: i64,
}

/// A coefficient of the remainder of a form by a divisor.
#[cycle(form)]
#[derive(Debug, Drop)]
pub struct RemTerm {
    pub coefficient: i64,
    pub inner: Dividend,
    pub divisor: u32,
}

/// A form of which a remainder is taken. The divisors of remainders of nothing but a remainder stand in a list, the
/// innermost first, so however many stand in one another, they are gone over in a loop.
#[cycle(form)]
#[derive(Debug, Drop)]
pub struct Dividend {
    pub(crate) base: Form,
    pub(crate) divisors: Vec<u32>,
}

/// A constant, coefficients of fields and coefficients of remainders: like terms are merged, and no coefficient is 0.
#[cycle(form)]
#[derive(Debug, Drop)]
pub struct Form {
    pub(crate) constant: i128,
    pub(crate) fields: Vec<FieldTerm>,
    pub(crate) remainders: Vec<RemTerm>,
    // How many remainders stand in one another, where those of nothing but a remainder count as one with it.
    pub(crate) depth: u32,
}

impl Model for Form {
    ghost use Rattle.model_form.specs.Form.{Form, form};
    ghost use Rattle.model_form.specs.FormCode.{coded_form};
    ghost use Rattle.lin_form.specs.Whole.{IsSound};
    ghost use Rattle.std.proofs.Common.{arith};

    ghost Value = { Form };

    ghost coded = { coded_form };

    ghost use Rattle.lin_form.specs.Terms.{plain_fields, plain_remainders};

    ghost view = { λ s. form s.constant (plain_fields s.fields.items) (plain_remainders s.remainders.items) };

    ghost invariant = { λ s. IsSound s.depth (form s.constant (plain_fields s.fields.items) (plain_remainders s.remainders.items)) };

    ghost use Rattle.lin_form.specs.Nest.{form_size};

    ghost size = { form_size };

    ghost use Rattle.lin_form.specs.Falls.{form_falls};

    ghost size_decreases = { λ s h. Prim.omega (arith, form_falls s.remainders.items) };
}

impl Model for Dividend {
    ghost use Rattle.model_form.specs.Form.{Form};
    ghost use Rattle.model_form.specs.FormCode.{coded_form};
    ghost use Rattle.lin_form.specs.Nest.{nest};
    ghost use Rattle.lin_form.specs.Whole.{IsDividend};

    ghost Value = { Form };

    ghost coded = { coded_form };

    ghost view = { λ s. nest s.base s.divisors.items };

    ghost invariant = { λ s. IsDividend s.base s.divisors.items };

    ghost use Rattle.lin_form.specs.Nest.{dividend_size};

    ghost size = { dividend_size };

    ghost use Rattle.std.proofs.Common.{arith};
    ghost use Rattle.lin_form.specs.Falls.{base_falls};

    ghost size_decreases = { λ s h. Prim.omega (arith, base_falls s.base s.divisors.items) };
}

impl Form {
    /// The form of a number.
    pub fn number(alloc: Global, value: i128) -> Result<Form, Memory>
        requires { IsLabelNumber value }
        ensures { IfOk result (λ form. form ≡ number_form value) }
    {
        Ok(Form {
            constant: value,
            fields: Vec::new(alloc),
            remainders: Vec::new(alloc),
            depth: 0,
        })
    }

    /// The form of a field.
    pub fn field(alloc: Global, field: u32) -> Result<Form, Memory>
        requires { field < most_fields }
        ensures { IfOk result (λ form. form ≡ field_form field) }
    {
        let mut fields = Vec::new(alloc);
        fields.push(FieldTerm {
            field,
            coefficient: 1,
        })?;
        Ok(Form {
            constant: 0,
            fields,
            remainders: Vec::new(alloc),
            depth: 0,
        })
    }

    /// The constant.
    pub fn constant(&self) -> i128
        ensures value { result ≡ constant_of self.now }
        ensures form { IsForm self.now }
        ensures whole { IsWhole self.now }
    {
        self.constant
    }

    /// The terms of fields, by the fields' numbers.
    pub fn fields(&self) -> &[FieldTerm]
        ensures value { plain_fields result.now ≡ fields_of self.now }
        ensures form { IsForm self.now }
        ensures whole { IsWhole self.now }
    {
        &self.fields
    }

    /// The terms of remainders, in the order of first appearance.
    pub fn remainders(&self) -> &[RemTerm]
        ensures value { plain_remainders result.now ≡ remainders_of self.now }
        ensures form { IsForm self.now }
        ensures whole { IsWhole self.now }
    {
        &self.remainders
    }

    /// An equal form, with the terms in the same order.
    #[cycle(copy)]
    pub fn copy(&self, alloc: Global) -> Result<Form, Memory>
        ensures { IfOk result (λ copy. copy ≡ self.now) }
    {
        let fields = Vec::from_slice(alloc, &self.fields)?;
        let mut remainders = Vec::new(alloc);
        for term in &self.remainders {
            let inner = term.inner.copy(alloc)?;
            remainders.push(RemTerm {
                coefficient: term.coefficient,
                inner,
                divisor: term.divisor,
            })?;
        }
        Ok(Form {
            constant: self.constant,
            fields,
            remainders,
            depth: self.depth,
        })
    }
}

impl RemTerm {
    /// The form of which the innermost remainder is taken, and its divisor.
    pub fn innermost(&self) -> (&Form, u32)
        ensures form { result.0.now ≡ base_of self.now.inner }
        ensures divisor { result.1 ≡ slice_index_or (divisors_of self.now.inner) 0 self.now.divisor }
    {
        let (base, divisors) = self.inner.parts();
        (base, divisors.first().copied().unwrap_or(self.divisor))
    }
}

impl Dividend {
    /// What is under the remainders, and their divisors, the innermost first.
    pub fn parts(&self) -> (&Form, &[u32])
        ensures base { result.0.now ≡ base_of self.now }
        ensures divisors { result.1.now ≡ divisors_of self.now }
        ensures in_range { AreDivisors result.1.now }
    {
        (&self.base, &self.divisors)
    }

    /// An equal one.
    #[cycle(copy)]
    pub fn copy(&self, alloc: Global) -> Result<Dividend, Memory>
        ensures { IfOk result (λ copy. copy ≡ self.now) }
    {
        let divisors = Vec::from_slice(alloc, &self.divisors)?;
        let base = self.base.copy(alloc)?;
        Ok(Dividend { base, divisors })
    }

    /// What the remainder by the divisor with this number is taken of.
    pub fn front(&self, alloc: Global, count: usize) -> Result<Dividend, Memory>
        requires { count ≤ length (divisors_of self.now) }
        ensures { IfOk result (λ front. front ≡ nest_front count (base_of self.now) (divisors_of self.now)) }
    {
        let base = self.base.copy(alloc)?;
        let divisors = Vec::from_slice(alloc, &self.divisors[..count])?;
        Ok(Dividend { base, divisors })
    }

    /// How many remainders stand in one another in a remainder of it.
    pub(crate) fn depth_over(&self) -> u32
        ensures { result ≡ depth_over self.now }
    {
        self.base.depth + 1
    }
}

/// How many remainders stand in one another in these terms.
pub(crate) fn depth_of(terms: &[RemTerm]) -> u32
    ensures { result ≡ depths (plain_remainders terms.now) }
{
    let mut depth = 0;
    for term in terms {
        depth = depth.max(term.inner.depth_over());
    }
    depth
}
