//! The cases of files, run one after another.

use crate::case::{Case, Keep};
use crate::fault::Fault;
use crate::given::{Named, Outcome, Program};
use crate::report::add_difference;
use std::alloc::Global;

/// What was read and run so far.
#[derive(Drop)]
pub struct Book {
    alloc: Global,
    parts: Vec<Case>,
    named: Vec<Named>,
    line: u64,
    passed: u64,
    failed: u64,
    report: String,
}

impl Book {
    /// A book of nothing.
    pub fn new(alloc: Global) -> Book {
        Book {
            alloc,
            parts: Vec::new(alloc),
            named: Vec::new(alloc),
            line: 0,
            passed: 0,
            failed: 0,
            report: String::new(alloc),
        }
    }

    /// How many cases came to what they say.
    pub fn passed(&self) -> u64 {
        self.passed
    }

    /// How many cases came to something else.
    pub fn failed(&self) -> u64 {
        self.failed
    }

    /// The number of the line that was read last, from 1.
    pub fn line(&self) -> u64 {
        self.line
    }

    /// What is to be said of the cases that came to something else.
    pub fn report(&self) -> &str {
        self.report.as_str()
    }

    /// Lets later lines insert bytes by a name.
    pub fn add_named(&mut self, name: &str, bytes: Vec<u8>) -> Result<(), Fault> {
        let name = String::from_str(self.alloc, name)?;
        self.named.push(Named { name, bytes })?;
        Ok(())
    }

    /// Runs the cases of a text. After a fault, `line` is the line that is at fault, and its case wasn't run.
    pub fn read<P: Program>(&mut self, program: &mut P, text: &str) -> Result<(), Fault> {
        self.line = 0;
        let mut case = None;
        for line in text.split('\n') {
            self.line = self.line.saturating_add(1);
            case = self.take(program, case, line)?;
        }
        self.finish(program, case)
    }

    /// Takes a line, and answers the case that goes on.
    fn take<P: Program>(
        &mut self,
        program: &mut P,
        case: Option<Case>,
        line: &str,
    ) -> Result<Option<Case>, Fault> {
        if line.is_empty() || line.starts_with('#') {
            return Ok(case);
        }
        let (word, rest) = line.split_once(' ').unwrap_or((line, ""));
        if word == "case" || word == "part" {
            self.finish(program, case)?;
            return Ok(Some(Case::new(self.alloc, rest, word == "part")?));
        }
        let Some(mut case) = case else {
            return Err(Fault::Line("no case was begun"));
        };
        self.add(&mut case, word, rest)?;
        Ok(Some(case))
    }

    /// Adds a line to a case.
    fn add(&self, case: &mut Case, word: &str, rest: &str) -> Result<(), Fault> {
        match word {
            "with" => self.add_part(case, rest),
            "<=" => self.insert(&mut case.given.input, rest),
            ">=" => self.insert(&mut case.wanted.output, rest),
            ":=" => self.insert(case.file()?, rest),
            _ => case.add(self.alloc, word, rest),
        }
    }

    /// Gives a case what the part of a name has.
    fn add_part(&self, case: &mut Case, name: &str) -> Result<(), Fault> {
        for part in &self.parts {
            if part.name.as_str() == name {
                return case.add_part(self.alloc, part);
            }
        }
        Err(Fault::Line("no such part"))
    }

    /// Appends the bytes that were named so first.
    fn insert(&self, out: &mut Vec<u8>, name: &str) -> Result<(), Fault> {
        for named in &self.named {
            if named.name.as_str() == name {
                out.extend_from_slice(named.bytes.as_slice())?;
                return Ok(());
            }
        }
        Err(Fault::Line("no bytes of this name"))
    }

    /// Runs a case, or puts a part by.
    fn finish<P: Program>(&mut self, program: &mut P, case: Option<Case>) -> Result<(), Fault> {
        match case {
            None => Ok(()),
            Some(part) if part.is_part => self.put_by(part),
            Some(case) => self.run(program, case),
        }
    }

    /// Keeps a part, and its input by the name of the part.
    fn put_by(&mut self, part: Case) -> Result<(), Fault> {
        let input = part.given.input.as_slice().to_vec(self.alloc)?;
        self.add_named(part.name.as_str(), input)?;
        self.parts.push(part)?;
        Ok(())
    }

    /// Runs a case, and counts what it came to.
    fn run<P: Program>(&mut self, program: &mut P, case: Case) -> Result<(), Fault> {
        let Case {
            name,
            given,
            wanted,
            keep,
            ..
        } = case;
        let outcome = program.run(given)?;
        if wanted.is_met(&outcome) {
            self.passed = self.passed.saturating_add(1);
        } else {
            self.failed = self.failed.saturating_add(1);
            add_difference(&mut self.report, name.as_str(), &wanted, &outcome)?;
        }
        match keep {
            Some(keep) => self.keep(&keep, &outcome),
            None => Ok(()),
        }
    }

    /// Keeps what a case says of its output.
    fn keep(&mut self, keep: &Keep, outcome: &Outcome) -> Result<(), Fault> {
        let kept = keep.of(outcome.written.as_slice()).to_vec(self.alloc)?;
        self.add_named(keep.name.as_str(), kept)
    }
}
