//! The reply to `csv`.
ghost use Rattle.std.specs.Prelude.{◌≡◌, ◌<◌, ◌∷◌, ◌++◌, [], IfOk, OnOk, codes, decimal};
ghost use Rattle.std.specs.List.{flat_map};
ghost use Rattle.csv.specs.Records.{fields_of, partial_of};
ghost use Rattle.rf_base.specs.Lines.{line_of};
ghost use Rattle.rf_report.specs.Csv as spec;

use crate::line::name_at;
use csv::{ByteRecord, Writer};
use rf_base::NoMemory;
use rf_rules::{Analysis, Conflict};
use rf_show::{Carrier, Show};
use rf_terms::{Kind, roles, text as kind_text};
use std::alloc::Global;

/// The reply to `csv`: how many conflicts are shown, the names of the columns, then a row for each shown conflict, where a
/// field that it doesn't have is empty. The carriers of the analysis are places in the show; one past its end has an empty
/// name.
pub fn csv_text(alloc: Global, show: &Show, analysis: &Analysis) -> Result<Vec<u8>, NoMemory>
    ensures { IfOk result (λ text. text.items ≡ spec.csv_text_of show.now.carriers analysis.now) }
{
    let conflicts = analysis.shown.as_slice();
    let mut writer = Writer::from_writer(count_line(alloc, conflicts.len())?);
    write_columns(alloc, &mut writer)?;
    write_rows(alloc, &mut writer, show.carriers(), conflicts)?;
    match writer.into_inner() {
        Ok(text) => Ok(text),
        // A `Vec` takes all that it has memory for, so nothing but want of memory is left.
        Err(_) => Err(NoMemory),
    }
}

fn count_line(alloc: Global, count: usize) -> Result<Vec<u8>, NoMemory>
    ensures { IfOk result (λ text. text.items ≡ line_of (codes "csv" ∷ decimal count ∷ [])) }
{
    let mut text = String::new(alloc);
    writeln!(text, "csv {count}")?;
    Ok(text.into_bytes())
}

fn write_columns(alloc: Global, writer: &mut Writer<Vec<u8>>) -> Result<(), NoMemory>
    ensures { OnOk result (spec.Gains writer.old writer.new (spec.row_of spec.columns)) }
{
    let row = columns_row(alloc)?;
    write_row(writer, &row)
}

fn columns_row(alloc: Global) -> Result<ByteRecord, NoMemory>
    ensures { IfOk result (λ row. fields_of row ≡ spec.columns) }
{
    Ok(ByteRecord::from_fields(
        alloc,
        &[
            "kind".as_bytes(),
            "source1".as_bytes(),
            "source2".as_bytes(),
            "source3".as_bytes(),
            "victim".as_bytes(),
            "product".as_bytes(),
            "distance".as_bytes(),
            "needs".as_bytes(),
        ],
    )?)
}

fn write_rows(
    alloc: Global,
    writer: &mut Writer<Vec<u8>>,
    carriers: &[Carrier],
    conflicts: &[Conflict],
) -> Result<(), NoMemory>
    ensures { OnOk result (spec.Gains writer.old writer.new (flat_map (λ conflict. spec.row_of (spec.conflict_fields carriers.now conflict)) conflicts.now)) }
{
    for conflict in conflicts {
        let row = conflict_row(alloc, carriers, conflict)?;
        write_row(writer, &row)?;
    }
    Ok(())
}

fn conflict_row(
    alloc: Global,
    carriers: &[Carrier],
    conflict: &Conflict,
) -> Result<ByteRecord, NoMemory>
    ensures { IfOk result (λ row. fields_of row ≡ spec.conflict_fields carriers.now conflict.now) }
{
    match conflict {
        Conflict::OffGrid { carrier } => {
            carrier_row(alloc, "off-grid", name_at(carriers, *carrier))
        }
        Conflict::Banned { carrier } => carrier_row(alloc, "banned", name_at(carriers, *carrier)),
        Conflict::Spacing {
            a,
            b,
            distance,
            needs,
        } => {
            let (a, b) = (name_at(carriers, *a), name_at(carriers, *b));
            let mut row = names_row(alloc, "spacing", a, b, "", "")?;
            row.push_field(b"")?;
            push_numbers(alloc, &mut row, *distance, *needs)?;
            Ok(row)
        }
        Conflict::Product {
            kind,
            sources,
            victim,
            product,
            distance,
            needs,
        } => {
            let first = source_at(carriers, *kind, sources, 0);
            let second = source_at(carriers, *kind, sources, 1);
            let third = source_at(carriers, *kind, sources, 2);
            let victim = name_at(carriers, *victim);
            let mut row = names_row(alloc, kind_text(*kind), first, second, third, victim)?;
            let product = format!(in alloc; "{product}")?;
            row.push_field(product.as_bytes())?;
            push_numbers(alloc, &mut row, *distance, *needs)?;
            Ok(row)
        }
    }
}

// The row of a conflict that has a carrier alone.
fn carrier_row(alloc: Global, rule: &str, name: &str) -> Result<ByteRecord, NoMemory>
    ensures { IfOk result (λ row. fields_of row ≡ rule.now ∷ [] ∷ [] ∷ [] ∷ name.now ∷ [] ∷ [] ∷ [] ∷ []) }
{
    let mut row = names_row(alloc, rule, "", "", "", name)?;
    row.push_field(b"")?;
    row.push_field(b"")?;
    row.push_field(b"")?;
    Ok(row)
}

// A row as far as its victim.
fn names_row<'a>(
    alloc: Global,
    rule: &'a str,
    first: &'a str,
    second: &'a str,
    third: &'a str,
    victim: &'a str,
) -> Result<ByteRecord, NoMemory>
    ensures fields { IfOk result (λ row. fields_of row ≡ rule.now ∷ first.now ∷ second.now ∷ third.now ∷ victim.now ∷ []) }
    ensures whole { IfOk result (λ row. partial_of row ≡ []) }
{
    Ok(ByteRecord::from_fields(
        alloc,
        &[
            rule.as_bytes(),
            first.as_bytes(),
            second.as_bytes(),
            third.as_bytes(),
            victim.as_bytes(),
        ],
    )?)
}

fn push_numbers(
    alloc: Global,
    row: &mut ByteRecord,
    distance: u32,
    needs: u32,
) -> Result<(), NoMemory>
    requires { partial_of row.old ≡ [] }
    ensures { OnOk result (fields_of row.new ≡ fields_of row.old ++ decimal distance ∷ decimal needs ∷ []) }
{
    let distance = format!(in alloc; "{distance}")?;
    row.push_field(distance.as_bytes())?;
    let needs = format!(in alloc; "{needs}")?;
    row.push_field(needs.as_bytes())?;
    Ok(())
}

// The name of a source; empty where the kind has fewer.
fn source_at<'a>(carriers: &'a [Carrier], kind: Kind, sources: &[usize; 3], place: usize) -> &'a str
    requires { place < 3 }
    ensures { result.now ≡ spec.source_field carriers.now kind sources.now place }
{
    if place + 1 < roles(kind) {
        name_at(carriers, sources[place])
    } else {
        ""
    }
}

#[tactic(auto, unfolding(crate::specs::Csv::row_of))]
fn write_row(writer: &mut Writer<Vec<u8>>, row: &ByteRecord) -> Result<(), NoMemory>
    ensures { OnOk result (spec.Gains writer.old writer.new (spec.row_of (fields_of row.now))) }
{
    match writer.write_byte_record(row) {
        Ok(()) => Ok(()),
        Err(_) => Err(NoMemory),
    }
}
