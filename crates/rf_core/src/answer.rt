//! What is answered to the question which locks are in the way.

use rf_base::Items;
use rf_log::LogLine;

/// Which locks block a plan.
#[derive(Drop)]
pub enum Blocked {
    /// None: a plan of the show as it is.
    Plan {
        plan: Items<u32>,
    },
    /// These carriers, in order; without each of them there is a plan, and the lines refute the show with these locks alone.
    Locks {
        keep: Items<u32>,
        plans: Items<Items<u32>>,
        log: Items<LogLine>,
    },
    /// The budget was used up with these locks; with the dropped one too, the lines refute the show.
    Spent {
        keep: Items<u32>,
        log: Items<LogLine>,
        dropped: Option<(u32, Items<LogLine>)>,
    },
}
