//! A storm of edits, undos and redos, beside whole shows that are kept in lists.
ghost use Rattle.std.specs.Prelude.{◌<◌, IfSome, IsTrue};
ghost use Rattle.rf_show.specs.After.{is_edit};

use crate::hold::{Broken, hold, told};
use rf_base::{Name, NoMemory};
use rf_editor::Editor;
use rf_profiles::Profile;
use rf_show::Edit;
use rf_text::show_text;
use std::alloc::Global;
use std::mem;
use std::test::Fail;

/// Numbers drawn one after another.
#[derive(Drop)]
pub(crate) struct Draws {
    pub(crate) state: u64,
}

impl Draws {
    /// The next number, below `count`.
    pub(crate) fn below(&mut self, count: u64) -> u64
        requires { 0 < count }
        ensures { result < count }
    {
        self.state = self
            .state
            .wrapping_mul(6_364_136_223_846_793_005)
            .wrapping_add(1_442_695_040_888_963_407);
        (self.state >> 33) % count
    }
}

const NUMBERS: [u32; Profile::NUMBERS] = [500_000, 501_000, 25, 350, 0, 100, 50, 0, 0, 25];

/// The word of a number below 4; `main` is the first zone.
fn word(number: u64) -> Option<Name> {
    match number {
        0 => Name::read(b"main"),
        1 => Name::read(b"x"),
        2 => Name::read(b"y"),
        _ => Name::read(b"z"),
    }
}

fn drawn_edit(draws: &mut Draws) -> Option<Edit>
    ensures { IfSome result (λ edit. IsTrue (is_edit edit)) }
{
    let name = word(draws.below(4))?;
    let other = word(draws.below(4))?;
    let number = draws.below(42) as u32;
    Some(match draws.below(25) {
        0 => Edit::AddProfile {
            name,
            numbers: NUMBERS,
        },
        1 => Edit::DropProfile { name },
        2 => Edit::AddRange {
            name,
            from: 502_000 + number,
            to: 503_000,
            step: 25,
        },
        3 => Edit::AddZone { name },
        4 => Edit::Couple { a: name, b: other },
        5 => Edit::Uncouple { a: name, b: other },
        6 | 7 | 8 | 9 => Edit::AddCarrier {
            name,
            profile: other,
            zone: other,
        },
        10 => Edit::Remove { name },
        11 => Edit::AddTime {
            name,
            from: 60 * number,
            to: 1_200,
        },
        12 => Edit::Always { name },
        13 | 14 | 15 | 16 => Edit::SetAt {
            name,
            khz: 500_000 + 25 * number,
        },
        17 => Edit::Clear { name },
        18 => Edit::Lock { name },
        19 | 20 => Edit::Unlock { name },
        21 => Edit::AddBan {
            lo: 500_000,
            hi: 500_000 + number,
            zone: Some(name),
        },
        22 => Edit::Far { a: name, b: other },
        _ => Edit::Unban { number },
    })
}

/// Whole shows as the lines that make them: the earlier ones, the one that stands, the later ones.
#[derive(Drop)]
struct Kept {
    earlier: Vec<Vec<u8>>,
    now: Vec<u8>,
    later: Vec<Vec<u8>>,
}

impl Kept {
    /// What stood is an earlier show now, and there is no later one.
    fn push(&mut self, now: Vec<u8>) -> Result<(), NoMemory> {
        let old = mem::replace(&mut self.now, now);
        self.later.clear();
        self.earlier.push(old)?;
        Ok(())
    }

    /// The last earlier show stands again, if there is one.
    fn undo(&mut self) -> Result<bool, NoMemory> {
        match self.earlier.pop() {
            Some(text) => {
                let now = mem::replace(&mut self.now, text);
                self.later.push(now)?;
                Ok(true)
            }
            None => Ok(false),
        }
    }

    /// The next later show stands again, if there is one.
    fn redo(&mut self) -> Result<bool, NoMemory> {
        match self.later.pop() {
            Some(text) => {
                let now = mem::replace(&mut self.now, text);
                self.earlier.push(now)?;
                Ok(true)
            }
            None => Ok(false),
        }
    }
}

/// An edit. Whether the editor took it.
fn edited(draws: &mut Draws, editor: &mut Editor) -> bool {
    match drawn_edit(draws) {
        Some(edit) => editor.apply(edit).is_ok(),
        None => false,
    }
}

/// One edit, undo or redo. Whether the editor went where the lists go.
fn goes_along(
    alloc: Global,
    draws: &mut Draws,
    editor: &mut Editor,
    kept: &mut Kept,
) -> Result<bool, NoMemory> {
    let both = match draws.below(5) {
        0 => editor.undo().is_ok() == kept.undo()?,
        1 => editor.redo().is_ok() == kept.redo()?,
        _ => {
            if edited(draws, editor) {
                kept.push(show_text(alloc, editor.show())?)?;
                return Ok(true);
            }
            true
        }
    };
    let text = show_text(alloc, editor.show())?;
    Ok(both && text.as_slice() == kept.now.as_slice())
}

/// The most carriers that stood at a time, in four thousand steps. None where the editor went elsewhere than the lists.
fn stormed(alloc: Global) -> Result<Option<usize>, NoMemory> {
    let mut draws = Draws { state: 7 };
    let mut editor = Editor::new(alloc)?;
    let mut kept = Kept {
        earlier: Vec::new(alloc),
        now: show_text(alloc, editor.show())?,
        later: Vec::new(alloc),
    };
    let mut most = 0;
    for _ in 0..4_000 {
        if !goes_along(alloc, &mut draws, &mut editor, &mut kept)? {
            return Ok(None);
        }
        most = most.max(editor.show().carriers().len());
    }
    Ok(Some(most))
}

fn all(alloc: Global) -> Result<(), Broken> {
    let most = stormed(alloc)?;
    hold(&[
        (most.is_some(), "the editor goes where the lists go"),
        (most == Some(4), "each of four names stood at some time"),
    ])
}

#[test]
fn a_storm_of_edits_goes_where_lists_of_whole_shows_go(rt: HostRuntime) -> Result<(), Fail> {
    told(all(rt.alloc()))
}
