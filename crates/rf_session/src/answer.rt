//! What a command is answered.

ghost use Rattle.std.specs.Prelude.{◌≡◌, ◌≤◌};
ghost use Rattle.rf_search.specs.declared.limits.TheConstants.{MAX_BUDGET};
ghost use Rattle.rf_session.specs.Shows as spec;

use crate::inquiry::Inquiry;
use crate::reply::{Code, Reply};
use rf_base::Items;
use rf_search::MAX_BUDGET;

/// What a command is answered.
#[derive(Drop)]
pub enum Answer {
    /// This reply.
    Reply(Reply),
    /// What an inquiry into the show is told.
    Inquiry(Inquiry),
    /// What a search of the show writes that has at most `budget` branchings. Where it `places`, a plan is applied as one edit.
    Search { budget: u32, places: bool },
}

impl Answer {
    /// It is done.
    pub(crate) fn accepted() -> Answer
        ensures { result ≡ Answer.Reply Reply.Accepted }
    {
        Answer::Reply(Reply::Accepted)
    }

    /// It asks for this text.
    pub(crate) fn text(text: Vec<u8>) -> Answer
        ensures { result ≡ Answer.Reply (Reply.Text text.items) }
    {
        Answer::Reply(Reply::Text(Items::from_vec(text)))
    }

    /// It is refused.
    pub(crate) fn refused(code: Code) -> Answer
        ensures { result ≡ Answer.Reply (Reply.Error code) }
    {
        Answer::Reply(Reply::Error(code))
    }

    /// This answer, which has this budget. It is refused where the budget is out of its range.
    pub(crate) fn within(budget: u32, answer: Answer) -> Answer
        requires { budget ≤ MAX_BUDGET → spec.IsGivable answer }
        ensures answer { result ≡ spec.within budget answer }
        ensures givable { spec.IsGivable result }
    {
        if budget <= MAX_BUDGET {
            answer
        } else {
            Answer::refused(Code::Number)
        }
    }
}
