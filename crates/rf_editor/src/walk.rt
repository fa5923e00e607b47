//! One step through the history, from one stack of edits to the other.

ghost use Rattle.std.specs.Prelude.{◌≡◌, ◌↔◌, ◌∷◌, ◌++◌, ◌<◌, [], vec_len, vec_capacity, OnOk, OnErr, IsSome, IfOk, Some, Err};
ghost use Rattle.rf_show.specs.Taken.{taken};
ghost use Rattle.rf_editor.specs.Trail.{stack_trail, StackLeads};

use crate::analysed::AnalysedShow;
use rf_show::Undo;

/// Why the history doesn't move.
#[derive(Drop)]
pub enum StepFault {
    /// There is no show in that direction.
    Nothing,
    /// No memory was found.
    Memory,
}

/// Takes the last undo value from one stack, goes where it leads, and puts what leads back on the other.
pub(crate) fn walk(
    show: &mut AnalysedShow,
    from: &mut Vec<Undo>,
    to: &mut Vec<Undo>,
) -> Result<(), StepFault>
    requires from { StackLeads from.old.items show.old }
    requires to { StackLeads to.old.items show.old }
    ensures gone { OnOk result (stack_trail from.old.items show.old ≡ show.new ∷ stack_trail from.new.items show.new) }
    ensures came { OnOk result (stack_trail to.new.items show.new ≡ show.old ∷ stack_trail to.old.items show.old) }
    ensures from { OnOk result (StackLeads from.new.items show.new) }
    ensures to { OnOk result (StackLeads to.new.items show.new) }
    ensures nothing { (result ≡ Err StepFault.Nothing) ↔ (from.old.items ≡ []) }
    ensures stays { OnErr result (show.new ≡ show.old) }
    ensures from_stays { OnErr result (stack_trail from.new.items show.new ≡ stack_trail from.old.items show.old) }
    ensures from_leads { OnErr result (StackLeads from.new.items show.new) }
    ensures to_stays { OnErr result (to.new.items ≡ to.old.items) }
{
    if from.is_empty() {
        return Err(StepFault::Nothing);
    }
    if to.reserve(1).is_err() {
        return Err(StepFault::Memory);
    }
    match from.pop() {
        Some(undo) => match show.back(undo) {
            Ok(back) => {
                push(to, back);
                Ok(())
            }
            Err(same) => {
                push(from, same);
                Err(StepFault::Memory)
            }
        },
        None => Err(StepFault::Nothing),
    }
}

// There is room, so this takes no memory.
pub(crate) fn push<T: Drop>(items: &mut Vec<T>, item: T)
    requires { vec_len items.old < vec_capacity items.old }
    ensures { items.new.items ≡ items.old.items ++ item ∷ [] }
{
    let _ = items.push(item);
}
