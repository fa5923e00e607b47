//! Show files: each line is an edit of the show that they make.

ghost use Rattle.std.specs.Prelude.{◌≡◌, ◌≤◌, ◌<◌, ℕ, List, Ok, false, length, IfOk, IsTrue};
ghost use Rattle.rf_base.specs.Input.{lines_of};
ghost use Rattle.rf_base.specs.Reader.{input_of, limit_of, Reads};
ghost use Rattle.rf_base.specs.Script.{short};
ghost use Rattle.rf_base.specs.Told.{WhereTold};
ghost use Rattle.rf_show.specs.After.{after, is_edit};
ghost use Rattle.rf_text.specs.Commands.{IsAskable};
ghost use Rattle.rf_session.specs.Fetches.{file_limit, shelf_alone, Obeyed};
ghost use Rattle.rf_session.specs.ShowFile as spec;
ghost use Rattle.rf_session.specs.ShowLines.{Takes};
ghost use Rattle.rf_session.specs.Shows.{file_of};
ghost use Rattle.rf_session.specs.Top.{script};
ghost use Rattle.rf_session.specs.Unfetched.{is_file};

use crate::file::fetch_file;
use crate::file_edit::{profiles_edit, scan_edit};
use crate::file_fault::FileFault;
use crate::reply::Code;
use crate::session::is_passed;
use rf_base::{CleanSource, LineReader, Next, NoMemory, Shelf, Source};
use rf_show::{Edit, Refusal, Show};
use rf_text::{Command, UnknownLine, read_command};
use std::alloc::Global;

/// Why a line of a show file doesn't change the show.
#[derive(Clone, Copy, PartialEq, Eq)]
pub enum LineFault {
    /// It is refused.
    Refused(Code),
    /// The shelf failed at its file.
    Shelf,
    /// No memory was found.
    Memory,
}

impl From<FileFault> for LineFault {
    fn from(fault: FileFault) -> LineFault
        ensures { result ≡ spec.of_file_fault fault }
    {
        match fault {
            FileFault::Shelf => LineFault::Shelf,
            FileFault::Memory => LineFault::Memory,
            _ => LineFault::Refused(Code::BadFile),
        }
    }
}

/// Why a show file makes no show.
#[derive(Clone, Copy, PartialEq, Eq)]
pub enum ShowFault {
    /// The first line that is refused, the first line of the file being 1, and its code.
    Line { line: u32, code: Code },
    /// The shelf failed at a file that a line names.
    Shelf,
    /// No memory was found.
    Memory,
}

/// What the next line of a show file came to.
#[derive(Clone, Copy)]
enum Taken {
    /// It was passed over, or its edit was made.
    Line,
    /// There was none.
    End,
}

/// The show that the lines of a show file make. Files that they name are fetched from the shelf.
pub(crate) fn read_show<F: Shelf>(
    alloc: Global,
    bytes: Vec<u8>,
    shelf: &mut F,
) -> Result<Show, ShowFault>
    requires { length bytes.items ≤ file_limit }
    ensures read { spec.IfShow result (spec.ShowRead (lines_of (script bytes.items))
        (shelf_alone (F.file shelf.old) (F.faults shelf.old) (F.asked shelf.old))
        (shelf_alone (F.file shelf.new) (F.faults shelf.new) (F.asked shelf.new))) }
    ensures others { (name : List ℕ) → spec.are_naming name (lines_of (script bytes.items)) ≡ false → F.faults shelf.new name ≡ F.faults shelf.old name }
{
    let Ok(mut reader) = LineReader::new(alloc) else {
        return Err(ShowFault::Memory);
    };
    let Ok(mut show) = Show::new(alloc) else {
        return Err(ShowFault::Memory);
    };
    let mut source = CleanSource::new(bytes);
    let mut line = 0;
    loop {
        line += 1;
        match take_line(alloc, &mut reader, &mut source, &mut show, shelf) {
            Ok(Taken::Line) => {}
            Ok(Taken::End) => return Ok(show),
            Err(LineFault::Refused(code)) => return Err(ShowFault::Line { line, code }),
            Err(LineFault::Shelf) => return Err(ShowFault::Shelf),
            Err(LineFault::Memory) => return Err(ShowFault::Memory),
        }
    }
}

/// Reads the next line of a show file, and makes its edit.
fn take_line<F: Shelf>(
    alloc: Global,
    reader: &mut LineReader,
    source: &mut CleanSource,
    show: &mut Show,
    shelf: &mut F,
) -> Result<Taken, LineFault>
    requires { Reads reader.old (⟦<CleanSource as Source>⟧.left source.old) }
    ensures takes { WhereTold (⟦<CleanSource as Source>⟧.left source.old) (⟦<CleanSource as Source>⟧.left source.new)
        (λ x y. Takes result show.old show.new
        (shelf_alone (F.file shelf.old) (F.faults shelf.old) (F.asked shelf.old))
        (shelf_alone (F.file shelf.new) (F.faults shelf.new) (F.asked shelf.new))
        (input_of reader.old x) (input_of reader.new y)) }
    ensures reads { Reads reader.new (⟦<CleanSource as Source>⟧.left source.new) }
    ensures shrinks { result ≡ Ok Taken.Line → limit_of reader.new < limit_of reader.old }
    ensures others { WhereTold (⟦<CleanSource as Source>⟧.left source.old) (⟦<CleanSource as Source>⟧.left source.new)
        (λ x y. (name : List ℕ) → spec.are_naming name (lines_of (input_of reader.old x)) ≡ false → F.faults shelf.new name ≡ F.faults shelf.old name) }
{
    match reader.next(source) {
        Next::Line => {
            apply_line(alloc, reader.line(), show, shelf)?;
            Ok(Taken::Line)
        }
        Next::LongLine => Err(LineFault::Refused(Code::LongLine)),
        Next::End => Ok(Taken::End),
        Next::TooLong => Ok(Taken::End),
        // A source in memory doesn't fail.
        Next::ReadFault => Ok(Taken::End),
    }
}

/// Makes the edit of a line, unless the line is passed over.
fn apply_line<F: Shelf>(
    alloc: Global,
    line: &[u8],
    show: &mut Show,
    shelf: &mut F,
) -> Result<(), LineFault>
    ensures read { spec.IfLine result show.new (λ read. Obeyed (λ fetched. spec.ReadsLine show.old (short line.now) fetched read)
        (shelf_alone (F.file shelf.old) (F.faults shelf.old) (F.asked shelf.old))
        (shelf_alone (F.file shelf.new) (F.faults shelf.new) (F.asked shelf.new))) }
    ensures others { (name : List ℕ) → is_file name (spec.line_file (short line.now)) ≡ false → F.faults shelf.new name ≡ F.faults shelf.old name }
{
    if is_passed(line) {
        return Ok(());
    }
    match read_command(line) {
        Ok(command) => apply_command(alloc, command, show, shelf),
        Err(UnknownLine) => Err(LineFault::Refused(Code::UnknownLine)),
    }
}

/// Makes the edit of a command. A command that is none is refused.
fn apply_command<F: Shelf>(
    alloc: Global,
    command: Command,
    show: &mut Show,
    shelf: &mut F,
) -> Result<(), LineFault>
    requires { IsAskable command }
    ensures read { spec.IfLine result show.new (λ read. Obeyed (λ fetched. spec.ReadsCommand show.old command fetched read)
        (shelf_alone (F.file shelf.old) (F.faults shelf.old) (F.asked shelf.old))
        (shelf_alone (F.file shelf.new) (F.faults shelf.new) (F.asked shelf.new))) }
    ensures others { (name : List ℕ) → is_file name (file_of command) ≡ false → F.faults shelf.new name ≡ F.faults shelf.old name }
{
    match command {
        Command::Change(edit) => make(show, edit),
        Command::Profiles { file } => {
            let Ok(got) = fetch_file(alloc, shelf, file.text()) else {
                return Err(LineFault::Memory);
            };
            make_by(show, profiles_edit(alloc, got))
        }
        Command::Scan {
            file,
            zone,
            threshold,
            width,
            sep,
        } => {
            let Ok(got) = fetch_file(alloc, shelf, file.text()) else {
                return Err(LineFault::Memory);
            };
            let edit = scan_edit(alloc, file, zone, threshold, width, sep, got);
            make_by(show, edit)
        }
        _ => Err(LineFault::Refused(Code::UnknownLine)),
    }
}

/// Makes the edit of a file, where the file gives one.
fn make_by(show: &mut Show, edit: Result<Edit, FileFault>) -> Result<(), LineFault>
    requires { IfOk edit (λ edit. IsTrue (is_edit edit)) }
    ensures { spec.IfLine result show.new (λ read. read ≡ spec.made_by show.old edit) }
{
    match edit {
        Ok(edit) => make(show, edit),
        Err(fault) => Err(LineFault::from(fault)),
    }
}

/// Makes an edit.
fn make(show: &mut Show, edit: Edit) -> Result<(), LineFault>
    requires { IsTrue (is_edit edit) }
    ensures { spec.IfLine result show.new (λ read. read ≡ spec.made (after show.old edit)) }
{
    match show.apply(edit) {
        Ok(_) => Ok(()),
        Err(refusal) => Err(LineFault::Refused(Code::from(refusal))),
    }
}
