//! What a run may report and refuse, for contracts.
//!
//! What a reader of the product must believe about its answers stands here: which lines are legal, which reports are
//! whole or unfinished ones of each command, and for which causes a run stops. Nothing here knows how a line is found.
#![tactic(auto)]

ghost use Rattle.std.specs.Prelude.{◌++◌, List, ℕ, Option};
ghost use Rattle.fast_fault.specs.declared.status.Status.{Status};
ghost use Rattle.model_run.specs.Borders.{AreNotLegal};
ghost use Rattle.model_run.specs.Examples.{AreFar, LinesAre, HaveCauses, IsReported};
ghost use Rattle.model_run.specs.Laws.{AreFreeWhereNoCause, AreQuiet, AreVerdictsRight, ClassesAreUnions, LinesOweNothing, ShownAreNotComposable};
ghost use Rattle.model_run.specs.OwedExamples.{AreOwed};
ghost use Rattle.model_run.specs.Report.{CommandReport, IsDoable, IsDoneOrStopped, IsReport};
ghost use Rattle.model_run.specs.Scripts.{whole, unfinished};
ghost use Rattle.model_run.specs.Words.{CommandForm};

/// Some lines, and a program that is generated.
pub fn examples_of_lines()
    ensures { LinesAre }
{}

/// Some items and trees, and the causes that they have.
pub fn examples_of_causes()
    ensures { HaveCauses }
{}

/// Guards with and without a label that is far from the kept ones.
pub fn examples_of_far_labels()
    ensures { AreFar }
{}

/// Items of which a refusal is owed, and items of which none is.
pub fn examples_of_owed_refusals()
    ensures { AreOwed }
{}

/// Outcomes, outputs, trees and causes that no legal report has.
pub fn examples_at_the_borders()
    ensures { AreNotLegal }
{}

/// A program that passes, and its report.
pub fn example_of_a_report()
    ensures { IsReported }
{}

/// A legal report that is cut off anywhere is an unfinished one.
pub fn fronts_are_unfinished()
    ensures { (form : CommandForm) (held : List ℕ → Option (List ℕ)) (status : Status) (front back : List ℕ) → CommandReport form held (whole status) (front ++ back) → CommandReport form held unfinished front }
{}

/// Types, languages and transformations stop no run.
pub fn some_items_are_quiet()
    ensures { AreQuiet }
{}

/// What shows that two transformations are not composable does so.
pub fn shown_are_not_composable()
    ensures { ShownAreNotComposable }
{}

/// An item that may have an outcome owes no refusal for what its line shows.
pub fn legal_lines_owe_nothing()
    ensures { LinesOweNothing }
{}

/// What is described by classes is a union of classes.
pub fn classes_are_unions()
    ensures { ClassesAreUnions }
{}

/// A legal verdict is right.
pub fn verdicts_are_right()
    ensures { AreVerdictsRight }
{}

/// Where nothing stands in the way of a whole report, a legal report is a whole one, or was stopped from outside.
pub fn doable_is_done()
    ensures { (words : List (List ℕ)) (held : List ℕ → Option (List ℕ)) (status : Status) (report : List ℕ) (form : CommandForm) → IsReport words held status report → IsDoable words held form → IsDoneOrStopped status }
{}

/// Where no item and no tree has a cause, the work stops nowhere.
pub fn free_where_no_cause()
    ensures { AreFreeWhereNoCause }
{}
