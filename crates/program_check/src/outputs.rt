//! What may fail in the labels of a node and in an output term, whose labels speak of the input.

ghost use Rattle.std.specs.Prelude.{◌++◌, List, map, length};
ghost use Rattle.model_program.specs.Syntax as program;
ghost use Rattle.model_grammar.specs.Syntax as plain;
ghost use Rattle.model_grammar.specs.Syntax.{Item};
ghost use Rattle.fast_syntax.specs.View.{plain_name, plain_field};
ghost use Rattle.fast_syntax.specs.Plain.{plain_expr, plain_out};
ghost use Rattle.fast_syntax.specs.Slices.{plain_outputs};
ghost use Rattle.model_checks.specs.Labels.{labels_failures};
ghost use Rattle.model_checks.specs.Rules.{label_count_failures, fields_of, out_failures, outs_failures};
ghost use Rattle.program_check.specs.Notes.{Notes};
ghost use Rattle.program_check.specs.Contexts.{items_of};
ghost use Rattle.program_check.specs.Known.{plain_scope};
ghost use Rattle.program_check.specs.Typed.{plain_option, AreFound};
ghost use Rattle.program_check.specs.Variables.{plain_vars, Kept};
ghost use Rattle.program_check.specs.Nodes.{node_failures};

use crate::checker::Checker;
use crate::context::Context;
use crate::expressions::{Kind, differ};
use crate::labels::{Scope, differ_in_sort};
use crate::rules::{Between, scope_of};
use crate::types::sort_named;
use crate::vars::Vars;
use fast_fault::Code;
use fast_syntax::expressions::Expr;
use fast_syntax::items::Out;
use fast_syntax::{FieldItem, Name, TypeItem};

impl Checker {
    /// The labels of a node.
    fn check_labels(&mut self, scope: &Scope, fields: &[FieldItem], labels: &[Expr])
        ensures { Notes self.old self.new (labels_failures (plain_scope scope.now) (map plain_field fields.now) (map plain_expr labels.now)) }
    {
        'labels: for (number, e) in labels.iter().enumerate() {
            let label = self.check_label(scope, e).into_side(e.place);
            if number < fields.len() {
                let sort = sort_named(&fields[number].sort.text);
                let differ = differ_in_sort(sort, label.sort);
                self.note_if(differ, Code::WrongSort, label.place);
            }
        }
    }

    /// The labels of a node of this type: there is one for each field.
    pub(crate) fn check_own_labels(
        &mut self,
        scope: &Scope,
        of: Option<&TypeItem>,
        name: &Name,
        labels: &[Expr],
    )
        ensures { Notes self.old self.new (label_count_failures (plain_option of.entry) (plain_name name.now) (length labels.now) ++ labels_failures (plain_scope scope.now) (fields_of (plain_option of.entry)) (map plain_expr labels.now)) }
    {
        let Some(of) = of else {
            self.check_labels(scope, &[], labels);
            return;
        };
        let fields = &of.fields;
        self.note_if(fields.len() != labels.len(), Code::WrongRank, name.place);
        self.check_labels(scope, fields, labels)
    }

    /// A child that is given as it is: the types of inputs and outputs are the same.
    fn check_child(&mut self, types: Between, vars: &Vars, name: &Name)
        ensures { (items : List Item) (from into : program.Name) → AreFound items types from into → Kept self.old vars.now → Notes self.old self.new (out_failures items from into (plain_vars vars.now) (plain.child (plain_name name.now))) }
    {
        self.check_variable(vars, name);
        let differ = differ(types.inputs, types.outputs);
        self.note_if(differ, Code::WrongType, name.place);
    }

    /// A call for a child, of a `trans` between these types.
    fn check_call(
        &mut self,
        context: &Context,
        types: Between,
        vars: &Vars,
        name: &Name,
        child: &Name,
    )
        ensures { (from into : program.Name) → AreFound (items_of context.now) types from into → Kept self.old vars.now → Notes self.old self.new (out_failures (items_of context.now) from into (plain_vars vars.now) (plain.call (plain_name name.now) (plain_name child.now))) }
    {
        let (input, output) = (types.inputs, types.outputs);
        self.check_ruled(context, Kind::Transformation, input, output, name);
        self.check_variable(vars, child);
    }

    /// An output term of a rule between these types.
    #[cycle(check_out)]
    pub(crate) fn check_out(&mut self, context: &Context, types: Between, vars: &Vars, out: &Out)
        ensures { (from into : program.Name) → AreFound (items_of context.now) types from into → Kept self.old vars.now → Notes self.old self.new (out_failures (items_of context.now) from into (plain_vars vars.now) (plain_out out.now)) }
    {
        match out {
            Out::Child(name) => {
                self.check_child(types, vars, name);
            }
            Out::Call(name, child) => {
                self.check_call(context, types, vars, name, child);
            }
            Out::Node(name, labels, outs) => {
                self.check_node(context, types, name, labels, outs.len());
                self.check_outs(context, types, vars, outs)
            }
        }
    }

    #[cycle(check_out)]
    fn check_outs(&mut self, context: &Context, types: Between, vars: &Vars, outs: &[Out])
        ensures { (from into : program.Name) → AreFound (items_of context.now) types from into → Kept self.old vars.now → Notes self.old self.new (outs_failures (items_of context.now) from into (plain_vars vars.now) (plain_outputs outs.now)) }
    {
        'outs: for out in outs {
            self.check_out(context, types, vars, out);
        }
    }

    /// The constructor of a node, and its labels, which speak of the input.
    fn check_node(
        &mut self,
        context: &Context,
        types: Between,
        name: &Name,
        labels: &[Expr],
        count: usize,
    )
        ensures { (from into : program.Name) → AreFound (items_of context.now) types from into → Notes self.old self.new (node_failures (items_of context.now) from into (plain_name name.now) (map plain_expr labels.now) count) }
    {
        self.check_constructor(context, types.outputs, name, count);
        let scope = scope_of(context.type_at(types.inputs));
        self.check_own_labels(&scope, context.type_at(types.outputs), name, labels)
    }
}
