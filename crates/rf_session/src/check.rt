//! The check or the audit of a log over the show of a show file.

ghost use Rattle.std.specs.Prelude.{◌≡◌, ◌≤◌, ℕ, List, false, length};
ghost use Rattle.std.specs.Str.{bytes_eq};
ghost use Rattle.rf_base.specs.Cause.{Rose};
ghost use Rattle.rf_base.specs.Input.{lines_of};
ghost use Rattle.rf_log.specs.LogText.{log_of};
ghost use Rattle.rf_session.specs.Checked as spec;
ghost use Rattle.rf_session.specs.Fetches.{file_limit, outside, shelf_alone};
ghost use Rattle.rf_session.specs.ShowFile.{are_naming};
ghost use Rattle.rf_session.specs.Top.{script};

use crate::file::{File, fetch_file, fetch_within};
use crate::finding::{Finding, tell};
use crate::judge::Judge;
use crate::show_file::{ShowFault, read_show};
use rf_base::{NoMemory, Shelf, Sink, Status};
use rf_log::{LogText, read_log};
use rf_show::Show;
use std::alloc::Global;

/// The largest log, in bytes.
const LOG_LIMIT: usize = 268_435_456;

/// Why nothing is found.
#[derive(Clone, Copy, PartialEq, Eq)]
pub enum CheckFault {
    /// The shelf failed at a file.
    Shelf,
    /// No memory was found.
    Memory,
}

/// Judges the log of a file over the show of a show file, and writes what is found.
pub(crate) fn check<F: Shelf, O: Sink>(
    alloc: Global,
    judge: Judge,
    show: &str,
    log: &str,
    shelf: &mut F,
    output: &mut O,
) -> Status
    ensures checks { spec.Checks (spec.judging_of judge) result show.now log.now
        (outside (O.contents output.old) (F.file shelf.old) (F.faults shelf.old) (F.asked shelf.old))
        (outside (O.contents output.new) (F.file shelf.new) (F.faults shelf.new) (F.asked shelf.new)) }
    ensures later { O.faults output.old ≤ O.faults output.new }
    ensures write { result ≡ Status.Write → Rose (O.faults output.old) (O.faults output.new) }
{
    match find(alloc, judge, show, log, shelf) {
        Ok(finding) => tell(alloc, finding, output),
        Err(CheckFault::Shelf) => Status::Shelf,
        Err(CheckFault::Memory) => Status::Memory,
    }
}

/// What is found.
fn find<F: Shelf>(
    alloc: Global,
    judge: Judge,
    show: &str,
    log: &str,
    shelf: &mut F,
) -> Result<Finding, CheckFault>
    ensures found { spec.IfFound result (spec.Found (spec.judging_of judge) show.now log.now
        (shelf_alone (F.file shelf.old) (F.faults shelf.old) (F.asked shelf.old))
        (shelf_alone (F.file shelf.new) (F.faults shelf.new) (F.asked shelf.new))) }
    ensures others { spec.KeepsOthers show.now log.now
        (shelf_alone (F.file shelf.old) (F.faults shelf.old) (F.asked shelf.old))
        (shelf_alone (F.file shelf.new) (F.faults shelf.new) (F.asked shelf.new)) }
{
    match fetch_file(alloc, shelf, show) {
        Ok(File::Found(bytes)) => find_over(alloc, judge, bytes, log, shelf),
        Ok(File::TooLarge) => Ok(Finding::ShowLarge),
        Ok(File::Fault) => Err(CheckFault::Shelf),
        Err(NoMemory) => Err(CheckFault::Memory),
    }
}

/// What is found over the show of these bytes.
fn find_over<F: Shelf>(
    alloc: Global,
    judge: Judge,
    bytes: Vec<u8>,
    log: &str,
    shelf: &mut F,
) -> Result<Finding, CheckFault>
    requires { length bytes.items ≤ file_limit }
    ensures found { spec.IfFound result (spec.FoundOver (spec.judging_of judge) bytes.items log.now
        (shelf_alone (F.file shelf.old) (F.faults shelf.old) (F.asked shelf.old))
        (shelf_alone (F.file shelf.new) (F.faults shelf.new) (F.asked shelf.new))) }
    ensures others { (name : List ℕ) → bytes_eq log.now name ≡ false → are_naming name (lines_of (script bytes.items)) ≡ false →
        F.faults shelf.new name ≡ F.faults shelf.old name }
{
    match read_show(alloc, bytes, shelf) {
        Ok(show) => find_in_log(alloc, judge, &show, log, shelf),
        Err(ShowFault::Line { line, code }) => Ok(Finding::ShowLine { line, code }),
        Err(ShowFault::Shelf) => Err(CheckFault::Shelf),
        Err(ShowFault::Memory) => Err(CheckFault::Memory),
    }
}

/// What is found in a log over a show.
fn find_in_log<F: Shelf>(
    alloc: Global,
    judge: Judge,
    show: &Show,
    log: &str,
    shelf: &mut F,
) -> Result<Finding, CheckFault>
    ensures found { spec.IfFound result (spec.FoundInLog (spec.judging_of judge) show.now log.now
        (shelf_alone (F.file shelf.old) (F.faults shelf.old) (F.asked shelf.old))
        (shelf_alone (F.file shelf.new) (F.faults shelf.new) (F.asked shelf.new))) }
    ensures others { (name : List ℕ) → bytes_eq log.now name ≡ false → F.faults shelf.new name ≡ F.faults shelf.old name }
{
    match fetch_within(alloc, shelf, log, LOG_LIMIT) {
        Ok(File::Found(bytes)) => find_in_text(alloc, judge, show, bytes.as_slice()),
        Ok(File::TooLarge) => Ok(Finding::LogLarge),
        Ok(File::Fault) => Err(CheckFault::Shelf),
        Err(NoMemory) => Err(CheckFault::Memory),
    }
}

/// What is found in the text of a log.
fn find_in_text(
    alloc: Global,
    judge: Judge,
    show: &Show,
    bytes: &[u8],
) -> Result<Finding, CheckFault>
    requires { length bytes.now ≤ spec.log_limit }
    ensures { spec.IfFound result (spec.FindsOf (spec.judging_of judge) show.now (log_of bytes.now)) }
{
    match read_log(alloc, bytes) {
        Ok(log) => match judge.find(alloc, show, &log) {
            Ok(finding) => Ok(finding),
            Err(NoMemory) => Err(CheckFault::Memory),
        },
        Err(LogText::BadLine { line }) => Ok(Finding::LogLine { line }),
        Err(LogText::Memory) => Err(CheckFault::Memory),
    }
}
