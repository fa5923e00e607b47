//! What a check or an audit of a log finds, and how it is written.

ghost use Rattle.std.specs.Prelude.{◌≡◌, ◌≤◌, ◌++◌, IfOk, OnOk, string_bytes};
ghost use Rattle.rf_base.specs.Cause.{Rose};
ghost use Rattle.rf_session.specs.Finding as spec;

use crate::reply::Code;
use rf_audit::Audit;
use rf_base::{Failed, NoMemory, Sink, Status, put};
use rf_log::{Cause, Verdict};
use std::alloc::Global;

/// What a check or an audit of a log over the show of a show file comes to. Lines count from 1.
#[derive(Clone, Copy, PartialEq, Eq)]
pub enum Finding {
    /// The log is judged so.
    Judged(Verdict),
    /// The audit of the log found this.
    Audited(Audit),
    /// The first line of the show file that is refused, and its code.
    ShowLine { line: u32, code: Code },
    /// The show file has more bytes than it may have.
    ShowLarge,
    /// The first line of the log that is outside its grammar.
    LogLine { line: u32 },
    /// The log has more bytes than it may have.
    LogLarge,
}

impl Finding {
    /// How a check or an audit ends that comes to the finding: `Done` exactly where the log is closed, or found honest.
    pub fn status(self) -> Status
        ensures { result ≡ spec.status_of self }
    {
        match self {
            Finding::Judged(Verdict::Closed) | Finding::Audited(Audit::Honest { .. }) => {
                Status::Done
            }
            _ => Status::Refused,
        }
    }

    /// The line of the finding.
    fn text(self, alloc: Global) -> Result<String, NoMemory>
        ensures { IfOk result (λ text. string_bytes text ≡ spec.finding_text self) }
    {
        let mut text = String::new(alloc);
        write_finding(&mut text, self)?;
        writeln!(text)?;
        Ok(text)
    }
}

/// Writes a finding, and answers how the check or the audit ends.
pub(crate) fn tell<O: Sink>(alloc: Global, finding: Finding, output: &mut O) -> Status
    ensures tells { spec.Tells finding result (O.contents output.old) (O.contents output.new) }
    ensures later { O.faults output.old ≤ O.faults output.new }
    ensures fault { result ≡ Status.Write → Rose (O.faults output.old) (O.faults output.new) }
{
    let Ok(text) = finding.text(alloc) else {
        return Status::Memory;
    };
    match put(output, text.as_bytes()) {
        Ok(()) => finding.status(),
        Err(Failed) => Status::Write,
    }
}

fn write_finding(text: &mut String, finding: Finding) -> Result<(), NoMemory>
    ensures { OnOk result (string_bytes text.new ≡ string_bytes text.old ++ spec.finding_words finding) }
{
    match finding {
        Finding::Judged(verdict) => write_verdict(text, verdict)?,
        Finding::Audited(audit) => write_audit(text, audit)?,
        Finding::ShowLine { line, code } => {
            let code = code.word();
            write!(text, "error show line {line} {code}")?;
        }
        Finding::ShowLarge => write!(text, "error show large")?,
        Finding::LogLine { line } => write!(text, "error log line {line}")?,
        Finding::LogLarge => write!(text, "error log large")?,
    }
    Ok(())
}

fn write_verdict(text: &mut String, verdict: Verdict) -> Result<(), NoMemory>
    ensures { OnOk result (string_bytes text.new ≡ string_bytes text.old ++ spec.verdict_words verdict) }
{
    match verdict {
        Verdict::Closed => write!(text, "refuted")?,
        Verdict::Unfinished { branchings } => write!(text, "open {branchings}")?,
        Verdict::Refused { line, cause } => {
            let cause = cause_word(cause);
            write!(text, "refused {line} {cause}")?;
        }
    }
    Ok(())
}

fn write_audit(text: &mut String, audit: Audit) -> Result<(), NoMemory>
    ensures { OnOk result (string_bytes text.new ≡ string_bytes text.old ++ spec.audit_words audit) }
{
    match audit {
        Audit::Honest { branchings } => write!(text, "honest {branchings}")?,
        Audit::Dishonest { line } => write!(text, "dishonest {line}")?,
        Audit::Refused { line, cause } => {
            let cause = cause_word(cause);
            write!(text, "refused {line} {cause}")?;
        }
    }
    Ok(())
}

fn cause_word(cause: Cause) -> &'static str
    ensures { result.now ≡ spec.cause_word cause }
{
    match cause {
        Cause::Closed => "closed",
        Cause::Name => "name",
        Cause::Index => "index",
        Cause::Line => "line",
        Cause::Hint => "hint",
        Cause::Empty => "empty",
        Cause::Path => "path",
    }
}
