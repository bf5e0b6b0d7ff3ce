//! What may fail in an item, by its kind.

ghost use Rattle.std.specs.Prelude.{◌≡◌, ◌++◌, [], Some, None, map};
ghost use Rattle.std.specs.List.{flat_map};
ghost use Rattle.std.specs.Option.{option_map, option_map_or};
ghost use Rattle.fast_syntax.specs.Plain.{plain_x, plain_rule, plain_out_rule, plain_claim, plain_item};
ghost use Rattle.model_checks.specs.Rules.{rule_limit, rule_failures, out_rule_failures};
ghost use Rattle.model_checks.specs.Programs.{is_tree, claim_failures, body_failures};
ghost use Rattle.program_check.specs.Notes.{Notes};
ghost use Rattle.program_check.specs.Contexts.{items_of, before_of};
ghost use Rattle.program_check.specs.Standings.{plain_kind, IsStanding, beside_failures};
ghost use Rattle.program_check.specs.Typed.{AreFound};
ghost use Rattle.program_check.specs.Heads.{PlainHead, head_of, head_failures, StandsBy};
ghost use Rattle.model_program.specs.Syntax.{Name};

use crate::checker::Checker;
use crate::context::Context;
use crate::expressions::{Kind, Standing, defined_kind, differ, only_as, place_of};
use crate::heads::head_of;
use crate::limits::MOST_RULES;
use crate::rules::Between;
use fast_fault::Code;
use fast_syntax::items::{Body, Claim, Item, OutRule, Rule, X};

fn is_tree(known: Option<Kind>) -> bool
    ensures { result ≡ is_tree (option_map plain_kind known) }
{
    match known {
        Some(Kind::Tree) => true,
        Some(Kind::Language) | Some(Kind::Transformation) => false,
        None => false,
    }
}

impl Checker {
    /// What an item declares wasn't declared before, and its types are declared. What it stands for comes back.
    fn check_head(&mut self, context: &Context, item: &Item) -> Standing
        ensures noted { Notes self.old self.new (option_map_or (head_failures (items_of context.now) (before_of context.now)) (head_of (plain_item item.now).body) []) }
        ensures standing { (head : PlainHead) → head_of (plain_item item.now).body ≡ Some head → StandsBy (items_of context.now) head result }
    {
        let Some(head) = head_of(item) else {
            return Standing {
                kind: None,
                input: None,
                output: None,
            };
        };
        let again = context.has_item_before(&head.name.text);
        self.note_if(again, Code::DuplicateName, head.name.place);
        let standing = context.standing_of(&head);
        let known = standing.input.is_some();
        self.note_if(!known, Code::UnknownName, head.input.place);
        let Some(output) = head.output else {
            return standing;
        };
        let known = standing.output.is_some();
        self.note_if(!known, Code::UnknownName, output.place);
        standing
    }

    fn check_rules(&mut self, context: &Context, types: Between, rules: &[Rule])
        ensures { (from : Name) → AreFound (items_of context.now) types from from → Notes self.old self.new (rule_limit (map plain_rule rules.now) ++ flat_map (rule_failures (items_of context.now) from) (map plain_rule rules.now)) }
    {
        if rules.len() > MOST_RULES {
            self.note(Code::TooMany, rules[MOST_RULES].ctor.place);
        }
        'rules: for rule in rules {
            self.check_rule(context, types, rule, None);
        }
    }

    fn check_out_rules(&mut self, context: &Context, types: Between, rules: &[OutRule])
        ensures { (from into : Name) → AreFound (items_of context.now) types from into → Notes self.old self.new (rule_limit (map (λ r. plain_rule r.rule) rules.now) ++ flat_map (out_rule_failures (items_of context.now) from into) (map plain_out_rule rules.now)) }
    {
        if rules.len() > MOST_RULES {
            self.note(Code::TooMany, rules[MOST_RULES].rule.ctor.place);
        }
        'rules: for rule in rules {
            self.check_rule(context, types, &rule.rule, Some(&rule.out));
        }
    }

    /// A language, and what is to be of this kind and of the type of its trees. What that stands for comes back.
    fn check_beside(&mut self, context: &Context, language: &X, kind: Kind, x: &X) -> Standing
        ensures noted { Notes self.old self.new (beside_failures (items_of context.now) (before_of context.now) (plain_x language.now) (plain_kind kind) (plain_x x.now)) }
        ensures standing { IsStanding (items_of context.now) (plain_x x.now) result }
    {
        let first = self.check_as(context, 0, None, Kind::Language, language);
        let wanted = only_as(Kind::Language, first.kind, first.input);
        self.check_as(context, 0, wanted, kind, x)
    }

    /// What is to be empty is a language or a transformation. In the claim of types the first language has the type of the inputs,
    /// and the second that of the outputs.
    fn check_claim(&mut self, context: &Context, claim: &Claim)
        ensures { Notes self.old self.new (claim_failures (items_of context.now) (before_of context.now) (plain_claim claim.now)) }
    {
        match claim {
            Claim::Equal(x, y) => {
                self.check_beside(context, x, Kind::Language, y);
            }
            Claim::Member(x, y) => {
                self.check_beside(context, y, Kind::Tree, x);
            }
            Claim::Empty(x) => {
                let standing = self.check_x(context, 0, None, x);
                self.note_if(is_tree(standing.kind), Code::WrongKind, place_of(x));
            }
            Claim::TypeCheck(x, y, z) => {
                let standing = self.check_beside(context, x, Kind::Transformation, y);
                let output = only_as(Kind::Transformation, standing.kind, standing.output);
                self.check_as(context, 0, output, Kind::Language, z);
            }
        }
    }

    /// Notes what fails in an item.
    pub(crate) fn check_item(&mut self, context: &Context, item: &Item)
        ensures { Notes self.old self.new (body_failures (items_of context.now) (before_of context.now) (plain_item item.now).body) }
    {
        let wanted = self.check_head(context, item);
        match &item.body {
            Body::Sorts(own) => self.check_type(context, own),
            Body::Tree(own) => {
                self.check_as(context, 0, wanted.input, Kind::Tree, &own.value);
            }
            Body::Lang(own) => {
                let types = Between {
                    inputs: wanted.input,
                    outputs: wanted.input,
                };
                self.check_rules(context, types, &own.rules);
            }
            Body::Trans(own) => {
                let types = Between {
                    inputs: wanted.input,
                    outputs: wanted.output,
                };
                self.check_out_rules(context, types, &own.rules);
            }
            Body::Def(own) => {
                let kind = defined_kind(&own.into);
                let found = self.check_as(context, 0, wanted.input, kind, &own.value);
                let output = only_as(Kind::Transformation, found.kind, found.output);
                let other = differ(wanted.output, output);
                self.note_if(other, Code::WrongType, place_of(&own.value));
            }
            Body::Assert(own) => self.check_claim(context, &own.claim),
        }
    }
}
