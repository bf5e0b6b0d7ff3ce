//! Sessions.

ghost use Rattle.std.specs.Prelude.{◌≡◌, ◌≤◌, ◌↔◌, ℕ, true, List, [], None, Some, Err, IfOk, IfErr, OnOk, length, map};
ghost use Rattle.std.specs.Str.{chars};
ghost use Rattle.model_tree.specs.Limits.{most_classes};
ghost use Rattle.model_tree.specs.Kept.{is_kept};
ghost use Rattle.model_tree.specs.Signature.{HasType};
ghost use Rattle.model_names.specs.Kinds.{Kind, language, transformation};
ghost use Rattle.model_meaning.specs.Meaning.{IsInLanguage, input_type};
ghost use Rattle.model_run.specs.Report.{named_x, AreNeededComposable};
ghost use Rattle.model_run.specs.Texts.{IsNameOf};
ghost use Rattle.tree_values.specs.Trees.{meant};
ghost use Rattle.fast_session.specs.declared.answers.Halt.TheVariants as halts;
ghost use Rattle.fast_eval.specs.Outputs.{cut_tree, AreOutputsOf};
ghost use Rattle.fast_session.specs.Needed.{IsHaltNeeded, IsTreeStopped};
ghost use Rattle.model_run.specs.Outcomes.{Outcome};
ghost use Rattle.fast_session.specs.declared.answers.Ending.{Ending};
ghost use Rattle.fast_session.specs.Answers.{again, ending_of, step_of};
ghost use Rattle.fast_session.specs.Sessions.{items_in, IsAt, IsSession, IsSameProgram, IsReadyFor, IsPrepared, IsStep, IsHalt};

use crate::answers::{Ending, Halt, Line, Step, Stopped, ending_of, halt_at};
use crate::inside::is_member;
use crate::items::{Around, Kept, do_item};
use crate::outputs::outputs_of;
use crate::preparing::prepare;
use fast_cut::Cut;
use fast_eval::Built;
use fast_fault::Memory;
use fast_tree::{Label, Tree};
use program_check::Checked;
use std::alloc::Global;
use tree_values::Trees;

/// A program and what is kept of the items that are done. After a refusal, or want of memory, nothing more is done.
#[derive(Drop)]
pub struct Session {
    pub(crate) checked: Checked,
    pub(crate) limit: u32,
    pub(crate) kept: Kept,
    /// How many items are done.
    pub(crate) next: usize,
    pub(crate) ended: Option<Ending>,
}

/// What a call answers after the session ended so.
fn again(ending: Ending) -> Halt
    ensures { result ≡ again ending }
{
    match ending {
        Ending::Refused(refusal) => Halt::Ended(refusal),
        Ending::Memory => Halt::Memory,
    }
}

/// The step to an item with this line.
fn step_of(line: Option<Line>) -> Step
    ensures { result ≡ step_of line }
{
    match line {
        Some(line) => Step::Line(line),
        None => Step::Silent,
    }
}

impl Session {
    /// A session in which nothing is done. `limit` is how many trees may be told apart.
    pub fn new(alloc: Global, checked: Checked, limit: u32) -> Result<Session, Memory>
        requires shallow { limit ≤ most_classes }
        ensures at { IfOk result (λ s. IsAt s []) }
        ensures program { IfOk result (λ s. s.checked ≡ checked) }
        ensures limit { IfOk result (λ s. s.limit ≡ limit) }
    {
        let built = Built::new(alloc, &checked)?;
        let trees = Trees::new(alloc);
        Ok(Session {
            checked,
            limit,
            kept: Kept { built, trees },
            next: 0,
            ended: None,
        })
    }

    /// The program, as it was handed in.
    pub fn checked(&self) -> &Checked
        ensures { result.now ≡ self.now.checked }
    {
        &self.checked
    }

    /// How many languages were built.
    pub fn languages(&self) -> usize
        ensures { result ≡ length self.now.kept.built.languages.values.items }
    {
        self.kept.built.languages().count()
    }

    /// Does the next item.
    pub fn step(&mut self, alloc: Global) -> Result<Step, Halt>
        requires session { IsSession self.old }
        ensures session { IsSession self.new }
        ensures program { IsSameProgram self.old self.new }
        ensures step { IfOk result (λ step. (done : List Outcome) → IsAt self.old done → IsStep self.old self.new done step) }
        ensures halt { IfErr result (λ halt. (done : List Outcome) → IsAt self.old done → IsHalt self.old done halt) }
        ensures ended { IfErr result (λ halt. self.new.ended ≡ Some (ending_of halt)) }
        ensures again { (e : Ending) → self.old.ended ≡ Some e → (result ≡ Err (again e)) × (self.new ≡ self.old) }
    {
        if let Some(ending) = self.ended {
            return Err(again(ending));
        }
        let items = self.checked.program().items.as_slice();
        if self.next >= items.len() {
            return Ok(Step::Done);
        }
        let item = &items[self.next];
        let around = Around {
            checked: &self.checked,
            limit: self.limit,
        };
        match do_item(alloc, &around, &mut self.kept, item) {
            Ok(line) => {
                self.next += 1;
                Ok(step_of(line))
            }
            Err(stopped) => {
                let halt = halt_at(item.place, stopped);
                self.ended = Some(ending_of(&halt));
                Err(halt)
            }
        }
    }

    /// Builds what the language or transformation of the name needs.
    pub fn prepare(&mut self, alloc: Global, name: &str) -> Result<(), Halt>
        requires session { IsSession self.old }
        ensures session { IsSession self.new }
        ensures program { IsSameProgram self.old self.new }
        ensures at { OnOk result ((done : List Outcome) → IsAt self.old done → IsAt self.new done) }
        ensures prepared { (kind : Kind) → IsNameOf (items_in self.old) kind (chars name.now) → IsPrepared kind self.new (chars name.now) }
        ensures composable { OnOk result (AreNeededComposable (items_in self.old) (chars name.now)) }
        ensures halt { self.old.ended ≡ None → IfErr result (IsHaltNeeded (items_in self.old) self.old.limit (chars name.now)) }
        ensures ended { IfErr result (λ halt. self.new.ended ≡ Some (ending_of halt)) }
        ensures again { (e : Ending) → self.old.ended ≡ Some e → (result ≡ Err (again e)) × (self.new ≡ self.old) }
    {
        if let Some(ending) = self.ended {
            return Err(again(ending));
        }
        let around = Around {
            checked: &self.checked,
            limit: self.limit,
        };
        match prepare(alloc, &around, &mut self.kept, name) {
            Ok(()) => Ok(()),
            Err(halt) => {
                self.ended = Some(ending_of(&halt));
                Err(halt)
            }
        }
    }

    /// Whether the tree is in the language of the name.
    pub fn member(&mut self, alloc: Global, name: &str, tree: &Tree<Label>) -> Result<bool, Halt>
        requires prepared { IsPrepared language self.old (chars name.now) }
        requires typed { HasType (input_type (items_in self.old) (named_x (chars name.now))) (meant tree.now) }
        requires kept { is_kept (meant tree.now) ≡ true }
        ensures prepared { (kind : Kind) (other : List ℕ) → IsPrepared kind self.old other → IsPrepared kind self.new other }
        ensures program { IsSameProgram self.old self.new }
        ensures at { OnOk result ((done : List Outcome) → IsAt self.old done → IsAt self.new done) }
        ensures inside { IfOk result (λ inside. (inside ≡ true) ↔ IsInLanguage (items_in self.old) (named_x (chars name.now)) (meant tree.now)) }
        ensures memory { self.old.ended ≡ None → IfErr result (λ halt. halt ≡ halts.Memory) }
        ensures ended { IfErr result (λ halt. self.new.ended ≡ Some (ending_of halt)) }
        ensures again { (e : Ending) → self.old.ended ≡ Some e → (result ≡ Err (again e)) × (self.new ≡ self.old) }
    {
        if let Some(ending) = self.ended {
            return Err(again(ending));
        }
        let around = Around {
            checked: &self.checked,
            limit: self.limit,
        };
        match is_member(alloc, &around, &mut self.kept, name, tree) {
            Ok(inside) => Ok(inside),
            Err(_refused) => {
                self.ended = Some(Ending::Memory);
                Err(Halt::Memory)
            }
        }
    }

    /// The outputs of the transformation of the name for the tree, in order. Whatever it answers, the session can go on.
    pub fn outputs<'t>(
        &mut self,
        alloc: Global,
        name: &str,
        tree: &'t Tree<Label>,
    ) -> Result<Vec<Cut<'t, Label>>, Stopped>
        requires ready { IsReadyFor transformation self.old (chars name.now) }
        requires typed { HasType (input_type (items_in self.old) (named_x (chars name.now))) (meant tree.now) }
        requires kept { is_kept (meant tree.now) ≡ true }
        ensures ready { (kind : Kind) (other : List ℕ) → IsReadyFor kind self.old other → IsReadyFor kind self.new other }
        ensures program { IsSameProgram self.old self.new }
        ensures at { (done : List Outcome) → IsAt self.old done → IsAt self.new done }
        ensures outputs { IfOk result (λ cuts. AreOutputsOf (items_in self.old) (named_x (chars name.now)) (meant tree.now) (map cut_tree cuts.items)) }
        ensures stopped { IfErr result (IsTreeStopped (items_in self.old) (chars name.now) (meant tree.now)) }
    {
        let around = Around {
            checked: &self.checked,
            limit: self.limit,
        };
        outputs_of(alloc, &around, &mut self.kept, name, tree)
    }
}
