//! The names of carriers in replies.
ghost use Rattle.std.specs.Prelude.{◌≡◌, ◌++◌, OnOk, map, string_bytes};
ghost use Rattle.rf_base.specs.Lines.{spaced};
ghost use Rattle.rf_report.specs.Names as spec;
ghost use Rattle.rf_terms.specs.Kinds.{text_of};

use rf_base::NoMemory;
use rf_show::Carrier;
use rf_terms::{Kind, roles, text as kind_text};

/// The name of a carrier, which is a place in the show; empty past its end.
pub(crate) fn name_at(carriers: &[Carrier], carrier: usize) -> &str
    ensures { result.now ≡ spec.name_at carriers.now carrier }
{
    match carriers.get(carrier) {
        Some(carrier) => carrier.name.text(),
        None => "",
    }
}

/// Writes the names of carriers, each after a space.
pub(crate) fn write_names(
    text: &mut String,
    carriers: &[Carrier],
    places: &[usize],
) -> Result<(), NoMemory>
    ensures { OnOk result (string_bytes text.new ≡ string_bytes text.old ++ spaced (map (spec.name_at carriers.now) places.now)) }
{
    for place in places {
        let name = name_at(carriers, *place);
        write!(text, " {name}")?;
    }
    Ok(())
}

/// Writes a kind and the names of its sources in the order of their roles; further sources mean nothing.
pub(crate) fn write_product(
    text: &mut String,
    carriers: &[Carrier],
    kind: Kind,
    sources: &[usize; 3],
) -> Result<(), NoMemory>
    ensures { OnOk result (string_bytes text.new ≡ string_bytes text.old ++ (text_of kind ++ spaced (spec.source_names carriers.now kind sources.now))) }
{
    let kind_text = kind_text(kind);
    write!(text, "{kind_text}")?;
    write_names(text, carriers, &sources[..roles(kind) - 1])
}
