//! The script that a number makes.

ghost use Rattle.std.specs.Prelude.{◌≡◌, ◌+◌, ◌∷◌, [], IfOk, OnErr, IfSome, None, Ok, length, option_map, slice_get, string_bytes};
ghost use Rattle.rf_demo.specs.Lines.{demo_lines, opening};

use crate::generator::Generator;
use crate::line::draw_line;
use std::alloc::{AllocError, Global};
use std::marker::Model;

/// The lines of a script that are still to come.
#[derive(Drop)]
pub struct Script {
    opened: u8,
    left: u32,
    generator: Generator,
}

impl Model for Script {
    ghost use Rattle.std.specs.Prelude.{ℕ, List, ◌++◌, drop};
    ghost use Rattle.rf_demo.specs.Lines.{drawn_lines, opening};

    ghost Value = { List (List ℕ) };

    ghost view = { λ script. drop script.opened opening ++ drawn_lines script.left script.generator.state };
}

impl Script {
    /// The script of a number: three lines that make a profile and two coupled zones, and then `count` lines that are drawn.
    #[tactic(auto, using(crate::proofs::Counts::drawn_many))]
    pub fn new(seed: u32, count: u32) -> Script
        ensures lines { result ≡ demo_lines seed count }
        ensures many { length result ≡ count + 3 }
    {
        Script {
            opened: 0,
            left: count,
            generator: Generator {
                state: u64::from(seed),
            },
        }
    }

    /// The next line, without a line feed; none where the script is at its end. Where no memory is found, the script stays as it was.
    #[tactic(auto, using(crate::proofs::Counts::drawn_out, crate::proofs::Counts::drawn_next))]
    pub fn next(&mut self, alloc: Global) -> Result<Option<String>, AllocError>
        ensures line { IfOk result (λ next. IfSome next (λ line. self.old ≡ string_bytes line ∷ self.new)) }
        ensures end { result ≡ Ok None → self.old ≡ [] }
        ensures err { OnErr result (self.new ≡ self.old) }
    {
        if let Some(line) = opening_line(self.opened) {
            let line = String::from_str(alloc, line)?;
            self.opened += 1;
            return Ok(Some(line));
        }
        if self.left == 0 {
            return Ok(None);
        }
        let mut generator = self.generator;
        let line = draw_line(alloc, &mut generator)?;
        self.generator = generator;
        self.left -= 1;
        Ok(Some(line))
    }
}

/// A line of the opening.
fn opening_line(place: u8) -> Option<&'static str>
    ensures { option_map (λ line. line.now) result ≡ slice_get opening place }
{
    match place {
        0 => Some("profile P 470000 534000 25 350 0 100 50 0 0"),
        1 => Some("zone z1"),
        2 => Some("couple main z1"),
        _ => None,
    }
}
