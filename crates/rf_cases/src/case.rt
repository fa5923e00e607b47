//! One case: what the program is run on, and what is wanted of it.

use crate::escape::{append_line, append_times, number};
use crate::fault::Fault;
use crate::given::{Given, Limits, Named};
use crate::wanted::Wanted;
use std::alloc::Global;
use std::mem;

/// What a case keeps of its output for later cases.
#[derive(Drop)]
pub(crate) struct Keep {
    /// The name under which it is kept.
    pub(crate) name: String,
    /// The text with which it begins; where it is empty, what is kept begins behind the first lines `ok`.
    pub(crate) from: String,
}

impl Keep {
    /// What is kept of an output.
    pub(crate) fn of<'a>(&self, written: &'a [u8]) -> &'a [u8] {
        if self.from.is_empty() {
            behind_oks(written)
        } else {
            from(written, self.from.as_bytes())
        }
    }
}

/// What is left behind the first lines `ok`.
fn behind_oks(written: &[u8]) -> &[u8] {
    let mut left = written;
    for _ in 0..written.len() {
        match left {
            [b'o', b'k', b'\n', rest @ ..] => left = rest,
            _ => break,
        }
    }
    left
}

/// What is left from the first place on where a text stands; nothing, where it stands nowhere.
fn from<'a>(written: &'a [u8], text: &[u8]) -> &'a [u8] {
    let mut left = written;
    for _ in 0..written.len() {
        match left {
            [_, rest @ ..] if !left.starts_with(text) => left = rest,
            _ => break,
        }
    }
    left
}

/// A case, or a part of cases.
#[derive(Drop)]
pub(crate) struct Case {
    /// What it shows.
    pub(crate) name: String,
    /// Whether it is a part of other cases, and not run itself.
    pub(crate) is_part: bool,
    /// What the program is run on.
    pub(crate) given: Given,
    /// What is wanted of it.
    pub(crate) wanted: Wanted,
    /// What is kept of the output.
    pub(crate) keep: Option<Keep>,
}

/// What stands for one empty word of the command line.
const EMPTY_WORD: &str = "\"\"";

impl Case {
    /// A case of a session over nothing, which wants nothing.
    pub(crate) fn new(alloc: Global, name: &str, is_part: bool) -> Result<Case, Fault> {
        let name = String::from_str(alloc, name)?;
        let given = nothing(alloc)?;
        Ok(Case {
            name,
            is_part,
            given,
            wanted: Wanted::new(alloc),
            keep: None,
        })
    }

    /// Adds a line that is about the case alone.
    pub(crate) fn add(&mut self, alloc: Global, word: &str, rest: &str) -> Result<(), Fault> {
        match word {
            "<" => append_line(&mut self.given.input, rest),
            ">" => append_line(&mut self.wanted.output, rest),
            ":" => append_line(self.file()?, rest),
            "<*" => append_times(alloc, &mut self.given.input, rest),
            ">*" => append_times(alloc, &mut self.wanted.output, rest),
            ":*" => append_times(alloc, self.file()?, rest),
            ">.." => self.open_gap(alloc),
            "words" => self.set_words(alloc, rest),
            "file" => self.add_file(alloc, rest),
            "keep" => self.set_keep(alloc, rest),
            _ => self.set_number(word, number(rest)?),
        }
    }

    /// Gives a case the files, the input and the wanted output of a part.
    pub(crate) fn add_part(&mut self, alloc: Global, part: &Case) -> Result<(), Fault> {
        for file in &part.given.files {
            let name = String::from_str(alloc, file.name.as_str())?;
            let bytes = file.bytes.as_slice().to_vec(alloc)?;
            self.given.files.push(Named { name, bytes })?;
        }
        self.given
            .input
            .extend_from_slice(part.given.input.as_slice())?;
        self.wanted
            .output
            .extend_from_slice(part.wanted.output.as_slice())?;
        Ok(())
    }

    /// Where the next bytes of the file that was named last go.
    pub(crate) fn file(&mut self) -> Result<&mut Vec<u8>, Fault> {
        match self.given.files.last_mut() {
            Some(file) => Ok(&mut file.bytes),
            None => Err(Fault::Line("no file was named")),
        }
    }

    fn open_gap(&mut self, alloc: Global) -> Result<(), Fault> {
        if self.is_part || self.wanted.front.is_some() {
            return Err(Fault::Line("a gap in a part, or a second gap"));
        }
        let front = mem::replace(&mut self.wanted.output, Vec::new(alloc));
        self.wanted.front = Some(front);
        Ok(())
    }

    fn set_words(&mut self, alloc: Global, rest: &str) -> Result<(), Fault> {
        let mut words = Vec::new(alloc);
        if !rest.is_empty() {
            for word in rest.split(' ') {
                let word = if word == EMPTY_WORD { "" } else { word };
                words.push(String::from_str(alloc, word)?)?;
            }
        }
        self.given.words = words;
        Ok(())
    }

    fn add_file(&mut self, alloc: Global, rest: &str) -> Result<(), Fault> {
        let name = String::from_str(alloc, rest)?;
        let bytes = Vec::new(alloc);
        self.given.files.push(Named { name, bytes })?;
        Ok(())
    }

    fn set_keep(&mut self, alloc: Global, rest: &str) -> Result<(), Fault> {
        let (name, from) = rest.split_once(" from ").unwrap_or((rest, ""));
        let name = String::from_str(alloc, name)?;
        let from = String::from_str(alloc, from)?;
        self.keep = Some(Keep { name, from });
        Ok(())
    }

    fn set_number(&mut self, word: &str, value: usize) -> Result<(), Fault> {
        match word {
            "status" => self.wanted.status = value,
            "most" => self.given.limits.most = value,
            "room" => self.given.limits.room = value,
            "fail-read" => self.given.limits.read = value,
            "fail-write" => self.given.limits.write = value,
            "fail-fetch" => self.given.limits.fetch = value,
            _ => return Err(Fault::Line("no such line")),
        }
        Ok(())
    }
}

/// A session over an empty input and no files, where nothing fails.
fn nothing(alloc: Global) -> Result<Given, Fault> {
    let mut words: Vec<String> = Vec::new(alloc);
    let word = String::from_str(alloc, "session")?;
    words.push(word)?;
    Ok(Given {
        words,
        files: Vec::new(alloc),
        input: Vec::new(alloc),
        limits: LIMITS,
    })
}

/// The limits of a case that sets none.
const LIMITS: Limits = Limits {
    most: 4096,
    room: 1_000_000,
    read: 0,
    write: 0,
    fetch: 0,
};
