//! The lines that are drawn.

ghost use Rattle.std.specs.Prelude.{◌≡◌, ◌<◌, IfOk, OnOk, string_bytes};
ghost use Rattle.rf_demo.specs.Lines as spec;

use crate::generator::Generator;
use std::alloc::{AllocError, Global};

/// Draws a line.
#[tactic(auto, unfolding(crate::specs::Lines::turn_from))]
pub fn draw_line(alloc: Global, generator: &mut Generator) -> Result<String, AllocError>
    ensures line { IfOk result (λ line. string_bytes line ≡ (spec.turn_from generator.old.state).line) }
    ensures state { OnOk result (generator.new.state ≡ (spec.turn_from generator.old.state).state) }
{
    let what = generator.draw(8);
    let carrier = generator.draw(24);
    line_of(alloc, what, carrier, generator)
}

/// The line of a first draw over a carrier, with the draws that it needs.
fn line_of(
    alloc: Global,
    what: u64,
    carrier: u64,
    generator: &mut Generator,
) -> Result<String, AllocError>
    ensures line { IfOk result (λ line. string_bytes line ≡ (spec.turn_by what (spec.carrier_name carrier) generator.old.state).line) }
    ensures state { OnOk result (generator.new.state ≡ (spec.turn_by what (spec.carrier_name carrier) generator.old.state).state) }
{
    match what {
        0 => carrier_line(alloc, carrier, zone_name(generator.draw(2))),
        1 => format!(in alloc; "remove c{carrier}"),
        2..=4 => set_line(alloc, carrier, generator.draw(2_561)),
        5 => time_line(alloc, carrier, generator.draw(168)),
        6 => format!(in alloc; "undo"),
        _ => format!(in alloc; "always c{carrier}"),
    }
}

/// A carrier is added in a zone.
fn carrier_line(alloc: Global, carrier: u64, zone: &str) -> Result<String, AllocError>
    ensures { IfOk result (λ line. string_bytes line ≡ spec.carrier_line (spec.carrier_name carrier) zone.now) }
{
    format!(in alloc; "carrier c{carrier} P {zone}")
}

/// A carrier is given the frequency of a draw.
fn set_line(alloc: Global, carrier: u64, step: u64) -> Result<String, AllocError>
    requires { step < 2_561 }
    ensures { IfOk result (λ line. string_bytes line ≡ spec.set_line (spec.carrier_name carrier) step) }
{
    let khz = 470_000 + 25 * step;
    format!(in alloc; "set c{carrier} {khz}")
}

/// A carrier is given the hour of a draw.
fn time_line(alloc: Global, carrier: u64, hour: u64) -> Result<String, AllocError>
    requires { hour < 168 }
    ensures { IfOk result (λ line. string_bytes line ≡ spec.time_line (spec.carrier_name carrier) hour) }
{
    let from = 60 * hour;
    let to = from + 60;
    format!(in alloc; "time c{carrier} {from} {to}")
}

/// The zone of a draw.
fn zone_name(drawn: u64) -> &'static str
    ensures { result.now ≡ spec.zone_name drawn }
{
    if drawn == 0 { "main" } else { "z1" }
}
