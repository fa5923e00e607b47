//! The machine of a session: a show that is edited, and what lines ask of it.

ghost use Rattle.std.specs.Prelude.{◌≡◌, ◌≢◌, ◌≤◌, ℕ, List, Ok, Err, None, Some, IfOk, IfErr, OnOk, IsTrue, position};
ghost use Rattle.std.specs.declared.option.Option.{Option};
ghost use Rattle.rf_base.specs.Cause.{Rose};
ghost use Rattle.rf_show.specs.Show.{is_carrier, is_profile};
ghost use Rattle.rf_editor.specs.History.{first_history};
ghost use Rattle.rf_show.specs.After.{is_edit};
ghost use Rattle.rf_text.specs.Commands.{IsAskable};
ghost use Rattle.rf_search.specs.declared.limits.TheConstants.{MAX_BUDGET};
ghost use Rattle.rf_session.specs.declared.answer.Answer.{Answer};
ghost use Rattle.rf_session.specs.Fetches.{fault, outside, shelf_alone, Obeyed};
ghost use Rattle.rf_session.specs.Run.{IsCut, Replied, Writes, WritesPart};
ghost use Rattle.rf_session.specs.Shows as spec;

use crate::answer::Answer;
use crate::file::fetch_file;
use crate::file_edit::{profiles_edit, scan_edit};
use crate::file_fault::{FileFault, refuse_file};
use crate::inquiry::{Inquiry, inquire};
use crate::machine::{Machine, Stop};
use crate::reply::{Code, say};
use crate::search::search;
use rf_base::{Khz, Name, NoMemory, Shelf, Sink};
use rf_editor::{EditFault, Editor, StepFault};
use rf_profiles::Profile;
use rf_report::{csv_text, products_text, report_text};
use rf_show::{Carrier, Edit, Show};
use rf_spares::{spares, spares_text};
use rf_text::{Command, UnknownLine, edits_stay_textual, free_text, read_command, show_text};
use std::alloc::Global;
use std::marker::Model;

/// The most spare channels that are taken together.
const MOST_SPARES: u32 = 32;

/// A show with its history, and what answers lines from it. Each show of the history was made by lines and files, so that it can be
/// raised.
#[derive(Drop)]
pub struct ShowMachine {
    alloc: Global,
    editor: Editor,
}

impl Model for ShowMachine {
    ghost use Rattle.rf_editor.specs.History.{History};
    ghost use Rattle.rf_session.specs.Textual.{AreTextual};

    ghost Value = { History };

    ghost view = { λ machine. machine.editor };

    ghost invariant = { λ machine. AreTextual machine.editor };
}

impl ShowMachine {
    /// The machine of the first show, without a history.
    #[tactic(auto, using(crate::proofs::TextualLaws::first_are))]
    pub fn new(alloc: Global) -> Result<ShowMachine, NoMemory>
        ensures { IfOk result (λ machine. machine ≡ first_history) }
    {
        edits_stay_textual();
        Ok(ShowMachine {
            alloc,
            editor: Editor::new(alloc)?,
        })
    }

    /// The show as it stands, with its history.
    pub(crate) fn editor(&self) -> &Editor
        ensures { result.now ≡ self.now }
    {
        &self.editor
    }

    /// Does what a command asks for, and writes what it is answered. A file that the command names is fetched first.
    fn perform<F: Shelf, O: Sink>(
        &mut self,
        command: Command,
        shelf: &mut F,
        output: &mut O,
    ) -> Result<bool, Stop>
        requires { IsAskable command }
        ensures replied { IfOk result (Replied (spec.Obeys self.old (Ok command)) self.new
            (outside (O.contents output.old) (F.file shelf.old) (F.faults shelf.old) (F.asked shelf.old))
            (outside (O.contents output.new) (F.file shelf.new) (F.faults shelf.new) (F.asked shelf.new))) }
        ensures cut { IfErr result (λ stop. IsCut (spec.PartsOf self.old stop (Ok command))
            (outside (O.contents output.old) (F.file shelf.old) (F.faults shelf.old) (F.asked shelf.old))
            (outside (O.contents output.new) (F.file shelf.new) (F.faults shelf.new) (F.asked shelf.new))) }
        ensures later { O.faults output.old ≤ O.faults output.new }
        ensures fault { result ≡ Err Stop.Write → Rose (O.faults output.old) (O.faults output.new) }
    {
        let Ok(answer) = self.obey(command, shelf) else {
            return Err(Stop::Memory);
        };
        self.give(answer, output)
    }

    /// Writes what a command is answered.
    fn give<O: Sink>(&mut self, answer: Answer, output: &mut O) -> Result<bool, Stop>
        requires { spec.IsGivable answer }
        ensures given { IfOk result (Writes (λ reply. spec.Answers self.old answer reply self.new) (O.contents output.old) (O.contents output.new)) }
        ensures cut { IfErr result (λ stop. WritesPart (spec.AnswerPart stop self.old answer) (O.contents output.old) (O.contents output.new)) }
        ensures later { O.faults output.old ≤ O.faults output.new }
        ensures fault { result ≡ Err Stop.Write → Rose (O.faults output.old) (O.faults output.new) }
    {
        match answer {
            Answer::Reply(reply) => say(output, &reply),
            Answer::Inquiry(inquiry) => self.tell(inquiry, output),
            Answer::Search { budget, places } => {
                search(self.alloc, &mut self.editor, budget, places, output)
            }
        }
    }

    /// Writes what an inquiry into the show is told.
    fn tell<O: Sink>(&self, inquiry: Inquiry, output: &mut O) -> Result<bool, Stop>
        requires { spec.budget_of inquiry ≤ MAX_BUDGET }
        ensures given { IfOk result (Writes (λ reply. spec.Answers self.now (Answer.Inquiry inquiry) reply self.now) (O.contents output.old) (O.contents output.new)) }
        ensures cut { IfErr result (λ stop. WritesPart (spec.AnswerPart stop self.now (Answer.Inquiry inquiry)) (O.contents output.old) (O.contents output.new)) }
        ensures later { O.faults output.old ≤ O.faults output.new }
        ensures fault { result ≡ Err Stop.Write → Rose (O.faults output.old) (O.faults output.new) }
    {
        let Ok(reply) = inquire(self.alloc, self.editor.show(), inquiry) else {
            return Err(Stop::Memory);
        };
        say(output, &reply)
    }

    /// Does what a command asks for, up to a search, and gives what it is answered.
    fn obey<F: Shelf>(&mut self, command: Command, shelf: &mut F) -> Result<Answer, NoMemory>
        requires { IsAskable command }
        ensures obeyed { IfOk result (λ answer. Obeyed (λ fetched. spec.ComesTo self.old (Ok command) fetched answer self.new)
            (shelf_alone (F.file shelf.old) (F.faults shelf.old) (F.asked shelf.old))
            (shelf_alone (F.file shelf.new) (F.faults shelf.new) (F.asked shelf.new))) }
        ensures givable { IfOk result spec.IsGivable }
        ensures later { (name : List ℕ) → F.faults shelf.old name ≤ F.faults shelf.new name }
    {
        match command {
            Command::Profiles { file } => {
                let got = fetch_file(self.alloc, shelf, file.text())?;
                let edit = profiles_edit(self.alloc, got);
                self.change_by(edit)
            }
            Command::Scan {
                file,
                zone,
                threshold,
                width,
                sep,
            } => {
                let got = fetch_file(self.alloc, shelf, file.text())?;
                let edit = scan_edit(self.alloc, file, zone, threshold, width, sep, got);
                self.change_by(edit)
            }
            Command::Change(edit) => self.change(edit),
            Command::Undo => self.undo(),
            Command::Redo => self.redo(),
            Command::Report => self.report(),
            Command::Csv => self.csv(),
            Command::Show => self.show(),
            Command::Free { name } => self.free(name),
            Command::Products { lo, hi } => self.products(lo, hi),
            Command::Solve { budget } => Ok(searching(budget, false)),
            Command::Place { budget } => Ok(searching(budget, true)),
            Command::Widen { budget } => Ok(inquiring(budget, Inquiry::Widest { budget })),
            Command::Why { budget } => Ok(inquiring(budget, Inquiry::Locks { budget })),
            Command::Spares {
                profile,
                zone,
                count,
            } => self.spares(profile, zone, count),
            Command::Quit => Ok(Answer::accepted()),
        }
    }

    /// Makes the edit of a file, or refuses the file.
    fn change_by(&mut self, edit: Result<Edit, FileFault>) -> Result<Answer, NoMemory>
        requires { IfOk edit (λ edit. IsTrue (is_edit edit)) }
        ensures answer { IfOk result (λ answer. answer ≡ (spec.edited_by self.old edit).answer) }
        ensures history { IfOk result (λ answer. self.new ≡ (spec.edited_by self.old edit).history) }
        ensures memory { OnOk result (edit ≢ Err FileFault.Memory) }
    {
        match edit {
            Ok(edit) => self.change(edit),
            Err(fault) => Ok(Answer::Reply(refuse_file(self.alloc, fault)?)),
        }
    }

    /// Makes an edit, or refuses it.
    #[tactic(auto, using(crate::proofs::TextualLaws::edited_are))]
    fn change(&mut self, edit: Edit) -> Result<Answer, NoMemory>
        requires { IsTrue (is_edit edit) }
        ensures answer { IfOk result (λ answer. answer ≡ (spec.edited self.old edit).answer) }
        ensures history { IfOk result (λ answer. self.new ≡ (spec.edited self.old edit).history) }
    {
        edits_stay_textual();
        match self.editor.apply(edit) {
            Ok(()) => Ok(Answer::accepted()),
            Err(EditFault::Refused(refusal)) => Ok(Answer::refused(Code::from(refusal))),
            Err(EditFault::Memory) => Err(NoMemory),
        }
    }

    #[tactic(auto, using(crate::proofs::TextualLaws::undone_are))]
    fn undo(&mut self) -> Result<Answer, NoMemory>
        ensures answer { IfOk result (λ answer. answer ≡ (spec.outcome self.old Command.Undo fault).answer) }
        ensures history { IfOk result (λ answer. self.new ≡ (spec.outcome self.old Command.Undo fault).history) }
    {
        match self.editor.undo() {
            Ok(()) => Ok(Answer::accepted()),
            Err(StepFault::Nothing) => Ok(Answer::refused(Code::NoStep)),
            Err(StepFault::Memory) => Err(NoMemory),
        }
    }

    #[tactic(auto, using(crate::proofs::TextualLaws::redone_are))]
    fn redo(&mut self) -> Result<Answer, NoMemory>
        ensures answer { IfOk result (λ answer. answer ≡ (spec.outcome self.old Command.Redo fault).answer) }
        ensures history { IfOk result (λ answer. self.new ≡ (spec.outcome self.old Command.Redo fault).history) }
    {
        match self.editor.redo() {
            Ok(()) => Ok(Answer::accepted()),
            Err(StepFault::Nothing) => Ok(Answer::refused(Code::NoStep)),
            Err(StepFault::Memory) => Err(NoMemory),
        }
    }

    /// The conflicts of the show.
    fn report(&self) -> Result<Answer, NoMemory>
        ensures { IfOk result (λ answer. answer ≡ (spec.outcome self.now Command.Report fault).answer) }
    {
        let text = report_text(self.alloc, self.editor.show(), self.editor.conflicts())?;
        Ok(Answer::text(text))
    }

    /// The conflicts of the show as rows of comma-separated fields.
    fn csv(&self) -> Result<Answer, NoMemory>
        ensures { IfOk result (λ answer. answer ≡ (spec.outcome self.now Command.Csv fault).answer) }
    {
        let text = csv_text(self.alloc, self.editor.show(), self.editor.conflicts())?;
        Ok(Answer::text(text))
    }

    /// The lines that make the show.
    fn show(&self) -> Result<Answer, NoMemory>
        ensures { IfOk result (λ answer. answer ≡ (spec.outcome self.now Command.Show fault).answer) }
    {
        let text = show_text(self.alloc, self.editor.show())?;
        Ok(Answer::text(text))
    }

    /// The intermodulation products from `lo` to `hi`, in kilohertz.
    fn products(&self, lo: u32, hi: u32) -> Result<Answer, NoMemory>
        ensures answer { IfOk result (λ answer. answer ≡ (spec.outcome self.now (Command.Products lo hi) fault).answer) }
        ensures stays { (spec.outcome self.now (Command.Products lo hi) fault).history ≡ self.now }
    {
        match (Khz::new(u64::from(lo)), Khz::new(u64::from(hi))) {
            (Some(low), Some(high)) if lo <= hi => {
                let products = self.editor.products(low, high)?;
                let text = products_text(self.alloc, self.editor.show(), &products)?;
                Ok(Answer::text(text))
            }
            _ => Ok(Answer::refused(Code::Number)),
        }
    }

    /// The allowed channels of a carrier.
    fn free(&self, name: Name) -> Result<Answer, NoMemory>
        ensures answer { IfOk result (λ answer. answer ≡ (spec.outcome self.now (Command.Free name) fault).answer) }
        ensures stays { (spec.outcome self.now (Command.Free name) fault).history ≡ self.now }
    {
        let show = self.editor.show();
        match carrier_place(show.carriers(), name) {
            Some(place) => {
                let text = free_text(self.alloc, show, place)?;
                Ok(Answer::text(text))
            }
            None => Ok(Answer::refused(Code::Unknown)),
        }
    }

    /// The channels of a profile on which a further carrier could be added in a zone, and up to `count` of them that could be added
    /// together.
    fn spares(&self, profile: Name, zone: Name, count: u32) -> Result<Answer, NoMemory>
        ensures answer { IfOk result (λ answer. answer ≡ (spec.outcome self.now (Command.Spares profile zone count) fault).answer) }
        ensures stays { (spec.outcome self.now (Command.Spares profile zone count) fault).history ≡ self.now }
    {
        let show = self.editor.show();
        let Some(place) = profile_place(show.profiles(), profile) else {
            return Ok(Answer::refused(Code::Unknown));
        };
        let Some(number) = show.zones().find(zone) else {
            return Ok(Answer::refused(Code::Unknown));
        };
        if count > MOST_SPARES {
            return Ok(Answer::refused(Code::Number));
        }
        if show.carriers().len() + count as usize > Show::MAX_CARRIERS {
            return Ok(Answer::refused(Code::Full));
        }
        let found = spares(self.alloc, show, place, number, count)?;
        let text = spares_text(self.alloc, show, place, &found)?;
        Ok(Answer::text(text))
    }
}

/// A search with this budget.
fn searching(budget: u32, places: bool) -> Answer
    ensures answer { result ≡ spec.within budget (Answer.Search budget places) }
    ensures givable { spec.IsGivable result }
{
    Answer::within(budget, Answer::Search { budget, places })
}

/// An inquiry with this budget.
fn inquiring(budget: u32, inquiry: Inquiry) -> Answer
    requires { spec.budget_of inquiry ≡ budget }
    ensures answer { result ≡ spec.within budget (Answer.Inquiry inquiry) }
    ensures givable { spec.IsGivable result }
{
    Answer::within(budget, Answer::Inquiry(inquiry))
}

/// The place of the profile of a name.
fn profile_place(profiles: &[Profile], name: Name) -> Option<usize>
    ensures { result ≡ position (is_profile name) profiles.now }
{
    profiles.iter().position(|profile| profile.name == name)
}

/// The place of the carrier of a name.
fn carrier_place(carriers: &[Carrier], name: Name) -> Option<usize>
    ensures { result ≡ position (is_carrier name) carriers.now }
{
    carriers.iter().position(|carrier| carrier.name == name)
}

impl Machine for ShowMachine {
    ghost use Rattle.rf_session.specs.Shows.{Steps, Parts};

    ghost steps = { Steps };

    ghost cuts = { Parts };

    fn answer<F: Shelf, O: Sink>(
        &mut self,
        line: &[u8],
        shelf: &mut F,
        output: &mut O,
    ) -> Result<bool, Stop> {
        match read_command(line) {
            Ok(command) => self.perform(command, shelf, output),
            Err(UnknownLine) => self.give(Answer::refused(Code::UnknownLine), output),
        }
    }
}
