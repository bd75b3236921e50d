//! What the definitions imply.

ghost use Rattle.fx_machine.specs.Machine.{AnswerIsOne, AnswerOfIsAnswer};
ghost use Rattle.fx_machine.specs.Events.{StepsAreRuns, StepsAreCounted};
ghost use Rattle.fx_machine.specs.Work.{BudgetsArePaid, BudgetsStopInTime};
ghost use Rattle.fx_machine.specs.Shapes.{RunsKeepShapes};
ghost use Rattle.fx_machine.specs.Table.{EveryRowIsNamed};
ghost use Rattle.fx_machine.specs.Known.{GlyphsKeepShape, GlyphsDependOnPrepared};

/// A program has one answer.
#[tactic(auto, using(crate::proofs::Steps::one_answer))]
pub fn answer_is_one()
    ensures { AnswerIsOne }
{}

/// A program has an answer, and `answer_of` gives it.
#[tactic(auto, using(crate::proofs::Steps::answer_is))]
pub fn answer_of_is_answer()
    ensures { AnswerOfIsAnswer }
{}

/// The instructions that a watcher sees are those of the run, in their order.
#[tactic(auto, using(crate::proofs::Steps::step_is_run))]
pub fn steps_are_runs()
    ensures { StepsAreRuns }
{}

/// A watcher sees as many instructions as the answer counts.
#[tactic(auto, using(crate::proofs::Steps::steps_counted))]
pub fn steps_are_counted()
    ensures { StepsAreCounted }
{}

/// Programs change neither the number of points nor the contours.
#[tactic(auto, using(crate::proofs::Keeping::runs_keep))]
pub fn runs_keep_shapes()
    ensures { RunsKeepShapes }
{}

/// Programs of glyphs change neither the number of points nor the contours.
pub fn glyphs_keep_shape()
    ensures { GlyphsKeepShape }
{}

/// What becomes of a glyph's program depends on the font, the size and what `prep` left alone.
#[tactic(auto, using(crate::proofs::KeptShapes::on_prepared))]
pub fn glyphs_depend_on_prepared()
    ensures { GlyphsDependOnPrepared }
{}

/// The opcodes without a row are those without a name.
#[tactic(auto, using(crate::proofs::Named::row_named))]
pub fn every_row_is_named()
    ensures { EveryRowIsNamed }
{}

/// A budget is spent exactly if what it has seen was more work than it had, and has the rest else.
#[tactic(auto, using(crate::proofs::Working::is_paid))]
pub fn budgets_are_paid()
    ensures { BudgetsArePaid }
{}

/// A budget stops programs at the first event that it can't pay for.
#[tactic(auto, using(crate::proofs::Stopping::in_time))]
pub fn budgets_stop_in_time()
    ensures { BudgetsStopInTime }
{}
