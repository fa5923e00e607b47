//! A search that a line asks for: its log and its verdict are written, and its plan may be applied.

ghost use Rattle.std.specs.Prelude.{◌≡◌, ◌≤◌, ℕ, List, Err, Some, IfOk, IfErr, OnOk};
ghost use Rattle.std.specs.declared.option.Option.{Option};
ghost use Rattle.rf_base.specs.Cause.{Rose};
ghost use Rattle.rf_search.specs.declared.limits.TheConstants.{MAX_BUDGET};
ghost use Rattle.rf_show.specs.declared.edit.Edit.{Edit};
ghost use Rattle.rf_solving.specs.Placing.{IsAdmitted};
ghost use Rattle.rf_session.specs.declared.answer.Answer.{Answer};
ghost use Rattle.rf_session.specs.Run.{Writes, WritesPart};
ghost use Rattle.rf_session.specs.Shows as spec;
ghost use Rattle.rf_session.specs.Textual.{AreTextual};

use crate::machine::Stop;
use rf_base::{Failed, Items, Khz, NoMemory, Sink, put};
use rf_editor::{EditFault, Editor};
use rf_show::Edit;
use rf_solving::{Found, SolveFault, plan_is_admitted, write_search};
use rf_text::edits_stay_textual;
use std::alloc::Global;

/// Searches for a plan of the show with at most `budget` branchings, and writes the log and the verdict. Where it `places`,
/// a plan is applied as one edit before the verdict is written.
pub(crate) fn search<O: Sink>(
    alloc: Global,
    editor: &mut Editor,
    budget: u32,
    places: bool,
    output: &mut O,
) -> Result<bool, Stop>
    requires { budget ≤ MAX_BUDGET }
    ensures searched { IfOk result (Writes (λ reply. spec.Searches editor.old budget places reply editor.new) (O.contents output.old) (O.contents output.new)) }
    ensures cut { IfErr result (λ stop. WritesPart (spec.AnswerPart stop editor.old (Answer.Search budget places)) (O.contents output.old) (O.contents output.new)) }
    ensures later { O.faults output.old ≤ O.faults output.new }
    ensures fault { result ≡ Err Stop.Write → Rose (O.faults output.old) (O.faults output.new) }
    ensures textual { AreTextual editor.old → AreTextual editor.new }
{
    plan_is_admitted();
    let found = match write_search(alloc, editor.show(), budget, output) {
        Ok(found) => found,
        Err(SolveFault::LogFault) => return Err(Stop::Write),
        Err(SolveFault::Memory) => return Err(Stop::Memory),
    };
    let Found { verdict, ats } = found;
    if apply_plan(editor, places, ats).is_err() {
        return Err(Stop::Memory);
    }
    match put(output, verdict.as_slice()) {
        Ok(()) => Ok(false),
        Err(Failed) => Err(Stop::Write),
    }
}

/// Gives the carriers the frequencies of a plan, where there is one and it is placed.
#[tactic(auto, using(crate::proofs::TextualLaws::edited_are))]
fn apply_plan(
    editor: &mut Editor,
    places: bool,
    ats: Option<Items<Option<Khz>>>,
) -> Result<(), NoMemory>
    requires { (at : List (Option ℕ)) → ats ≡ Some at → IsAdmitted editor.old.show (Edit.Place at) }
    ensures leaves { OnOk result (spec.LeavesAfter editor.old places ats editor.new) }
    ensures textual { AreTextual editor.old → AreTextual editor.new }
{
    if !places {
        return Ok(());
    }
    let Some(at) = ats else {
        return Ok(());
    };
    edits_stay_textual();
    match editor.apply(Edit::Place { at }) {
        Ok(()) => Ok(()),
        Err(EditFault::Refused(_)) => unreachable!(),
        Err(EditFault::Memory) => Err(NoMemory),
    }
}
