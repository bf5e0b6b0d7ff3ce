//! The rules of a transducer for the rules of a program.

ghost use Rattle.std.specs.Prelude.{◌≤◌, IfOk, map, length, All};
ghost use Rattle.model_tree.specs.Limits.{most_fields};
ghost use Rattle.fast_tree.specs.Signatures.{plain_signature};
ghost use Rattle.fast_syntax.specs.Plain.{plain_out_rule, plain_trans};
ghost use Rattle.sttr_core.specs.Machine.{plain_out as machine_out};
ghost use Rattle.fast_build.specs.Numbers.{number_in};
ghost use Rattle.fast_build.specs.OutRules.{IsOutRuleFor, AreOutRulesFor, AreOutStatesFor, OutRuleStands};

use crate::called::Called;
use crate::rules::rule_for;
use crate::terms::term_for;
use fast_fault::{Memory, Text};
use fast_syntax::items::OutRule;
use fast_tree::Signature;
use indexmap::IndexSet;
use record_label::{RowAtom, RowMap};
use std::alloc::Global;
use sttr_core::SttrRule;

/// The rule of the transducer for a rule.
fn out_rule_for(
    alloc: Global,
    from: &Signature,
    into: &Signature,
    looks: &IndexSet<Text>,
    names: &IndexSet<Text>,
    rule: &OutRule,
) -> Result<SttrRule<RowAtom, RowMap>, Memory>
    requires few { length from.now.fields.items ≤ most_fields }
    requires stands { OutRuleStands (plain_signature from.now) (plain_signature into.now) looks.now.keys names.now.keys (plain_out_rule rule.now) }
    ensures { IfOk result (λ r. IsOutRuleFor (plain_signature from.now) (plain_signature into.now) (number_in looks.now.keys) (number_in names.now.keys) (machine_out r) (plain_out_rule rule.now)) }
{
    Ok(SttrRule {
        rule: rule_for(alloc, from, looks, &rule.rule)?,
        term: term_for(alloc, from, into, names, &rule.rule.vars, &rule.out)?,
    })
}

/// The rules of a state for the rules of a transformation.
fn out_rules_for(
    alloc: Global,
    from: &Signature,
    into: &Signature,
    looks: &IndexSet<Text>,
    names: &IndexSet<Text>,
    rules: &[OutRule],
) -> Result<Vec<SttrRule<RowAtom, RowMap>>, Memory>
    requires few { length from.now.fields.items ≤ most_fields }
    requires stand { All (OutRuleStands (plain_signature from.now) (plain_signature into.now) looks.now.keys names.now.keys) (map plain_out_rule rules.now) }
    ensures { IfOk result (λ made. AreOutRulesFor (plain_signature from.now) (plain_signature into.now) (number_in looks.now.keys) (number_in names.now.keys) (map machine_out made.items) (map plain_out_rule rules.now)) }
{
    let mut made = Vec::new(alloc);
    'rules: for rule in rules {
        made.push(out_rule_for(alloc, from, into, looks, names, rule)?)?;
    }
    Ok(made)
}

/// The rules of each state, for the transformations that are reached.
pub fn out_states_for(
    alloc: Global,
    from: &Signature,
    into: &Signature,
    looks: &IndexSet<Text>,
    called: &Called,
) -> Result<Vec<Vec<SttrRule<RowAtom, RowMap>>>, Memory>
    requires few { length from.now.fields.items ≤ most_fields }
    requires stand { All (λ t. All (OutRuleStands (plain_signature from.now) (plain_signature into.now) looks.now.keys called.now.names.keys) (plain_trans t.now).rules) called.now.transformations.items }
    ensures { IfOk result (λ states. AreOutStatesFor (plain_signature from.now) (plain_signature into.now) (number_in looks.now.keys) (number_in called.now.names.keys) (map (λ those. map machine_out those.items) states.items) (map (λ t. (plain_trans t.now).rules) called.now.transformations.items)) }
{
    let mut states = Vec::new(alloc);
    'states: for transformation in &called.transformations {
        let rules = out_rules_for(
            alloc,
            from,
            into,
            looks,
            &called.names,
            &transformation.rules,
        )?;
        states.push(rules)?;
    }
    Ok(states)
}
