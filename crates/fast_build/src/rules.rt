//! The rules of an automaton for the rules of a program.

ghost use Rattle.std.specs.Prelude.{◌≡◌, ◌≤◌, IfOk, map, length, true, All, Contains};
ghost use Rattle.std.specs.List.{list_all};
ghost use Rattle.model_tree.specs.Limits.{most_fields};
ghost use Rattle.fast_tree.specs.Signatures.{plain_signature};
ghost use Rattle.fast_syntax.specs.View.{plain_demand};
ghost use Rattle.fast_syntax.specs.Plain.{plain_rule};
ghost use Rattle.label_core.specs.Formula.{plain_formula};
ghost use Rattle.sta_core.specs.Machine.{plain_rule as machine_rule};
ghost use Rattle.fast_build.specs.Reached.{demanded_by, demanded_in};
ghost use Rattle.fast_build.specs.Rules.{IsGuardFor, IsRuleFor, AreRulesFor};
ghost use Rattle.fast_build.specs.Numbers.{number_in, has_ctor};
ghost use Rattle.fast_build.specs.Stands.{GuardStands};

use crate::numbers::{constructor_number, demands_on_each};
use fast_fault::{Memory, Text};
use fast_syntax::items::Rule;
use fast_tree::Signature;
use indexmap::IndexSet;
use label_core::Formula;
use record_label::{RowAtom, guard_of};
use sta_core::StaRule;
use std::alloc::Global;

/// The rule's guard.
fn guard_for(alloc: Global, signature: &Signature, rule: &Rule) -> Result<Formula<RowAtom>, Memory>
    requires few { length signature.now.fields.items ≤ most_fields }
    requires guarded { GuardStands (plain_signature signature.now).fields (plain_rule rule.now).guard }
    ensures { IfOk result (λ f. IsGuardFor (plain_signature signature.now).fields (plain_rule rule.now).guard (plain_formula f)) }
{
    match &rule.guard {
        Some(guard) => guard_of(alloc, guard, signature),
        None => Ok(Formula::Yes),
    }
}

/// The rule of the automaton for a rule.
pub fn rule_for(
    alloc: Global,
    signature: &Signature,
    names: &IndexSet<Text>,
    rule: &Rule,
) -> Result<StaRule<RowAtom>, Memory>
    requires few { length signature.now.fields.items ≤ most_fields }
    requires ctor { has_ctor (plain_signature signature.now) (plain_rule rule.now) ≡ true }
    requires guarded { GuardStands (plain_signature signature.now).fields (plain_rule rule.now).guard }
    requires named { All (Contains names.now.keys) (demanded_by (map plain_demand rule.now.given.items)) }
    ensures { IfOk result (λ r. IsRuleFor (plain_signature signature.now) (number_in names.now.keys) (machine_rule r) (plain_rule rule.now)) }
{
    Ok(StaRule {
        constructor: constructor_number(&signature.constructors, &rule.ctor.text)?,
        guard: guard_for(alloc, signature, rule)?,
        demands: demands_on_each(alloc, names, &rule.given, &rule.vars)?,
    })
}

/// The rules of a state for the rules of a language.
pub fn rules_for(
    alloc: Global,
    signature: &Signature,
    names: &IndexSet<Text>,
    rules: &[Rule],
) -> Result<Vec<StaRule<RowAtom>>, Memory>
    requires few { length signature.now.fields.items ≤ most_fields }
    requires ctors { list_all (has_ctor (plain_signature signature.now)) (map plain_rule rules.now) ≡ true }
    requires guarded { All (λ r. GuardStands (plain_signature signature.now).fields r.guard) (map plain_rule rules.now) }
    requires named { All (Contains names.now.keys) (demanded_in (map plain_rule rules.now)) }
    ensures { IfOk result (λ made. AreRulesFor (plain_signature signature.now) (number_in names.now.keys) (map machine_rule made.items) (map plain_rule rules.now)) }
{
    let mut made = Vec::new(alloc);
    'rules: for rule in rules {
        made.push(rule_for(alloc, signature, names, rule)?)?;
    }
    Ok(made)
}
