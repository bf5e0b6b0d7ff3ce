//! What may fail in a rule of a language or a transformation: its constructor, its variables, its guard and its demands. Its
//! output term is handed on.

ghost use Rattle.std.specs.Prelude.{◌≡◌, ℕ, List, Option, map};
ghost use Rattle.std.specs.List.{flat_map};
ghost use Rattle.std.specs.Option.{option_map};
ghost use Rattle.model_program.specs.Syntax as plain;
ghost use Rattle.fast_syntax.specs.View.{plain_name, plain_demand};
ghost use Rattle.fast_syntax.specs.Plain.{plain_guard, plain_rule, plain_out};
ghost use Rattle.model_checks.specs.Rules.{constructor_failures, scope_of, variable_failures, guard_failures, demand_failures};
ghost use Rattle.program_check.specs.Notes.{Notes};
ghost use Rattle.program_check.specs.Numbered.{type_there};
ghost use Rattle.program_check.specs.Typed.{plain_option, type_number, IsType, AreFound};
ghost use Rattle.program_check.specs.Contexts.{items_of};
ghost use Rattle.program_check.specs.Standings.{plain_kind};
ghost use Rattle.program_check.specs.Heads.{ruled_failures};
ghost use Rattle.program_check.specs.Variables.{plain_vars, Kept, whole_rule_failures};
ghost use Rattle.program_check.specs.Known.{plain_scope};

use crate::checker::Checker;
use crate::context::Context;
use crate::ctors::ctor_named;
use crate::expressions::{Kind, differ, is_other_kind};
use crate::labels::Scope;
use crate::types::is_rank;
use crate::vars::Vars;
use fast_fault::Code;
use fast_syntax::expressions::Expr;
use fast_syntax::items::{Out, Rule};
use fast_syntax::{Demand, Name, TypeItem};
use fast_tree::Sort;

/// The types of the inputs and of the outputs of a transformation. Those of a language are the type of its trees.
#[derive(Clone, Copy)]
pub(crate) struct Between {
    pub(crate) inputs: Option<usize>,
    pub(crate) outputs: Option<usize>,
}

/// The fields of a type, where it is declared.
pub(crate) fn scope_of(of: Option<&TypeItem>) -> Scope<'_>
    ensures { plain_scope result ≡ scope_of (plain_option of.entry) }
{
    match of {
        Some(of) => Scope {
            fields: Some(&of.fields),
        },
        None => Scope { fields: None },
    }
}

impl Checker {
    /// A constructor of a type has as many children as its rank says.
    pub(crate) fn check_constructor(
        &mut self,
        context: &Context,
        of: Option<usize>,
        name: &Name,
        count: usize,
    )
        ensures { Notes self.old self.new (constructor_failures (type_there (items_of context.now) of) (plain_name name.now) count) }
    {
        let Some(number) = of else {
            return;
        };
        let Some(own) = context.type_at(of) else {
            return;
        };
        let Some(numbers) = context.declared.ctors.get(number) else {
            return;
        };
        let Some(ctor) = ctor_named(&own.ctors, numbers, &name.text) else {
            self.note(Code::UnknownName, name.place);
            return;
        };
        self.note_if(!is_rank(count, ctor.rank), Code::WrongRank, name.place);
    }

    /// One of the child variables.
    pub(crate) fn check_variable(&mut self, vars: &Vars, name: &Name)
        ensures { Kept self.old vars.now → Notes self.old self.new (variable_failures (plain_vars vars.now) (plain_name name.now)) }
    {
        let known = vars.names.place(&name.text).is_some();
        self.note_if(!known, Code::UnknownName, name.place);
    }

    /// A guard is a truth value.
    fn check_guard(&mut self, scope: &Scope, guard: &Option<Expr>)
        ensures { Notes self.old self.new (guard_failures (plain_scope scope.now) (plain_guard guard.now)) }
    {
        if let Some(guard) = guard {
            self.check_sorted(scope, Sort::Bool, guard)
                .into_side(guard.place);
        }
    }

    /// The name of something with rules that is of this kind and of these types.
    pub(crate) fn check_ruled(
        &mut self,
        context: &Context,
        kind: Kind,
        input: Option<usize>,
        output: Option<usize>,
        name: &Name,
    )
        ensures { (from into : Option (List ℕ)) → IsType (items_of context.now) input from → IsType (items_of context.now) output into → Notes self.old self.new (ruled_failures (items_of context.now) (plain_kind kind) from into (plain_name name.now)) }
    {
        let Some((found, has_rules)) = context.find(&name.text) else {
            self.note(Code::UnknownName, name.place);
            return;
        };
        let other = !has_rules | is_other_kind(kind, found.kind);
        if other {
            self.note(Code::WrongKind, name.place);
            return;
        }
        let inputs = differ(found.input, input);
        let outputs = differ(found.output, output);
        self.note_if(inputs | outputs, Code::WrongType, name.place);
    }

    /// In a rule for trees of this type a demanded language is a `lang` of trees of the type.
    fn check_given(&mut self, context: &Context, of: Option<usize>, vars: &Vars, given: &[Demand])
        ensures { (from : plain.Name) → of ≡ type_number (items_of context.now) from.text → Kept self.old vars.now → Notes self.old self.new (flat_map (demand_failures (items_of context.now) from (plain_vars vars.now)) (map plain_demand given.now)) }
    {
        'given: for demand in given {
            self.check_ruled(context, Kind::Language, of, None, &demand.language);
            self.check_variable(vars, &demand.child);
        }
    }

    /// A rule for trees of a type. One of a transformation between the types has an output term.
    pub(crate) fn check_rule(
        &mut self,
        context: &Context,
        types: Between,
        rule: &Rule,
        out: Option<&Out>,
    )
        ensures { (from into : plain.Name) → AreFound (items_of context.now) types from into → Notes self.old self.new (whole_rule_failures (items_of context.now) from into (plain_rule rule.now) (option_map (λ o. plain_out o.now) out.entry)) }
    {
        self.check_constructor(context, types.inputs, &rule.ctor, rule.vars.len());
        let vars = Vars {
            all: &rule.vars,
            names: self.check_repeated(Code::DuplicateVariable, &rule.vars),
        };
        let scope = scope_of(context.type_at(types.inputs));
        self.check_guard(&scope, &rule.guard);
        self.check_given(context, types.inputs, &vars, &rule.given);
        if let Some(out) = out {
            self.check_out(context, types, &vars, out);
        }
    }
}
