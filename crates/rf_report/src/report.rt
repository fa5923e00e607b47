//! The reply to `report`.
ghost use Rattle.std.specs.Prelude.{◌≡◌, ◌++◌, ◌∷◌, [], IfOk, OnOk, string_bytes};
ghost use Rattle.std.specs.List.{flat_map};
ghost use Rattle.rf_base.specs.Lines.{spaced};
ghost use Rattle.rf_report.specs.Reports as spec;

use crate::line::{name_at, write_product};
use rf_base::NoMemory;
use rf_rules::{Analysis, Conflict};
use rf_show::{Carrier, Show};
use std::alloc::Global;

/// The reply to `report`: a line for each shown conflict, then how many there are. The carriers of the analysis are
/// places in the show; one past its end has an empty name.
pub fn report_text(alloc: Global, show: &Show, analysis: &Analysis) -> Result<Vec<u8>, NoMemory>
    ensures { IfOk result (λ text. text.items ≡ spec.report_text_of show.now.carriers analysis.now) }
{
    let mut text = String::new(alloc);
    write_conflicts(&mut text, show.carriers(), analysis.shown.as_slice())?;
    let total = analysis.total;
    writeln!(text, "conflicts {total}")?;
    Ok(text.into_bytes())
}

fn write_conflicts(
    text: &mut String,
    carriers: &[Carrier],
    conflicts: &[Conflict],
) -> Result<(), NoMemory>
    ensures { OnOk result (string_bytes text.new ≡ string_bytes text.old ++ flat_map (spec.conflict_line carriers.now) conflicts.now) }
{
    for conflict in conflicts {
        write_conflict(text, carriers, conflict)?;
    }
    Ok(())
}

#[tactic(auto, using(crate::proofs::LineLemmas::pieces), unfolding(crate::specs::Reports::conflict_line))]
fn write_conflict(
    text: &mut String,
    carriers: &[Carrier],
    conflict: &Conflict,
) -> Result<(), NoMemory>
    ensures { OnOk result (string_bytes text.new ≡ string_bytes text.old ++ spec.conflict_line carriers.now conflict.now) }
{
    match conflict {
        Conflict::OffGrid { carrier } => {
            let name = name_at(carriers, *carrier);
            writeln!(text, "off-grid {name}")?;
        }
        Conflict::Banned { carrier } => {
            let name = name_at(carriers, *carrier);
            writeln!(text, "banned {name}")?;
        }
        Conflict::Spacing {
            a,
            b,
            distance,
            needs,
        } => {
            let a = name_at(carriers, *a);
            let b = name_at(carriers, *b);
            writeln!(text, "spacing {a} {b} distance {distance} needs {needs}")?;
        }
        Conflict::Product {
            kind,
            sources,
            victim,
            product,
            distance,
            needs,
        } => {
            write_product(text, carriers, *kind, sources)?;
            let victim = name_at(carriers, *victim);
            write_hit(text, victim, product, *distance, *needs)?;
        }
    }
    Ok(())
}

// Writes the end of a product's line.
fn write_hit(
    text: &mut String,
    victim: &str,
    product: &i64,
    distance: u32,
    needs: u32,
) -> Result<(), NoMemory>
    ensures { OnOk result (string_bytes text.new ≡ string_bytes text.old ++ (spaced (spec.hit_words victim.now product.now distance needs) ++ 10 ∷ [])) }
{
    writeln!(
        text,
        " hits {victim} at {product} distance {distance} needs {needs}"
    )?;
    Ok(())
}
