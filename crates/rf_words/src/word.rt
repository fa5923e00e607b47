//! One word of the command line.

ghost use Rattle.std.specs.Prelude.{◌≡◌, IfOk};

use std::alloc::{AllocError, Global};
use std::marker::Model;

/// A word of the command line, which contracts see as its bytes.
#[derive(Drop)]
pub struct Word {
    text: String,
}

impl Model for Word {
    ghost use Rattle.std.specs.Prelude.{ℕ, List, string_bytes};

    ghost Value = { List ℕ };

    ghost view = { λ word. string_bytes word.text };
}

impl Word {
    /// The word of this text.
    pub fn of(alloc: Global, text: &str) -> Result<Word, AllocError>
        ensures { IfOk result (λ word. word ≡ text.now) }
    {
        Ok(Word {
            text: String::from_str(alloc, text)?,
        })
    }

    /// The word as text.
    pub fn as_str(&self) -> &str
        ensures { result.now ≡ self.now }
    {
        self.text.as_str()
    }
}
