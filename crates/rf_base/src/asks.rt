//! What a shelf in memory was asked for.

ghost use Rattle.std.specs.Prelude.{◌≡◌, ◌++◌, ◌∷◌, [], OnOk, IfOk, map};
ghost use Rattle.std.specs.String.{string_bytes};

use crate::outside::NoMemory;
use std::alloc::Global;

/// A name that was asked for, and whether it failed.
#[derive(Drop)]
pub struct Asked {
    name: String,
    failed: bool,
}

impl Asked {
    ghost use Rattle.rf_base.specs.Asks.{ask_of};

    /// The name.
    pub fn name(&self) -> &str
        ensures { result.now ≡ (ask_of self.now).0 }
    {
        self.name.as_str()
    }

    /// Whether the fetch failed.
    pub fn has_failed(&self) -> bool
        ensures { result ≡ (ask_of self.now).1 }
    {
        self.failed
    }
}

/// The asks, in order.
#[derive(Drop)]
pub struct Asks {
    items: Vec<Asked>,
}

impl Asks {
    ghost use Rattle.rf_base.specs.Asks.{ask_of, asks_in, HasRoom};

    pub fn new(alloc: Global) -> Self
        ensures { asks_in result ≡ [] }
    {
        Asks {
            items: Vec::new(alloc),
        }
    }

    /// The name of one ask more, for which there is room then.
    pub fn open(&mut self, alloc: Global, name: &str) -> Result<String, NoMemory>
        ensures kept { asks_in self.new ≡ asks_in self.old }
        ensures room { OnOk result (HasRoom self.new) }
        ensures name { IfOk result (λ text. string_bytes text ≡ name.now) }
    {
        self.items.reserve(1)?;
        Ok(String::from_str(alloc, name)?)
    }

    /// Keeps an ask for which there is room.
    pub fn note(&mut self, name: String, failed: bool)
        requires { HasRoom self.old }
        ensures { asks_in self.new ≡ asks_in self.old ++ (string_bytes name, failed) ∷ [] }
    {
        self.items.push(Asked { name, failed }).unwrap();
    }

    /// All of them.
    pub fn all(&self) -> &[Asked]
        ensures { map ask_of result.now ≡ asks_in self.now }
    {
        self.items.as_slice()
    }
}
