//! A text that grows by the lines of commands.

ghost use Rattle.std.specs.Prelude.{◌≡◌, ◌++◌, ◌∷◌, [], OnOk, string_bytes};
ghost use Rattle.rf_text.specs.Shows as spec;

use crate::command::Command;
use crate::writing::write_command;
use rf_base::NoMemory;
use std::alloc::Global;

/// Lines of commands, and how many they are.
#[derive(Drop)]
pub(crate) struct CommandLines {
    pub(crate) text: String,
    pub(crate) count: usize,
}

impl CommandLines {
    /// No lines.
    pub(crate) fn new(alloc: Global) -> CommandLines
        ensures text { string_bytes result.text ≡ [] }
        ensures count { result.count ≡ 0 }
    {
        CommandLines {
            text: String::new(alloc),
            count: 0,
        }
    }

    /// Adds the line of a command.
    #[tactic(auto, unfolding(crate::specs::Shows::command_line))]
    pub(crate) fn add(&mut self, command: &Command) -> Result<(), NoMemory>
        requires { spec.IsCounted self.old }
        ensures { OnOk result (spec.Adds self.old self.new (command.now ∷ [])) }
    {
        write_command(&mut self.text, command)?;
        writeln!(self.text)?;
        self.count += 1;
        Ok(())
    }
}
