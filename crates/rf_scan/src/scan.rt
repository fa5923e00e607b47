//! A scan file read record by record.

ghost use Rattle.std.specs.Prelude.{◌≡◌, ◌≢◌, ◌≤◌, ◌+◌, ◌∷◌, List, Ok, Err, IfOk, IfErr, length};
ghost use Rattle.csv.specs.Records.{fields_of};
ghost use Rattle.rf_scan.specs.Scan as spec;

use crate::fault::ScanFault;
use crate::field::{is_passed_over, point_of};
use crate::point::Point;
use csv::{ByteRecord, ReaderBuilder};
use rf_exclusions::Sep;
use std::alloc::Global;

// How many points a scan file may have.
const MAX_POINTS: usize = 200_000;

/// The points of a scan file of at most 16,777,216 bytes, in its order. `NoPoints`, `BadRecord` and `Many` come exactly where the
/// records give them, and of two the one that comes first in the file. `Memory` where no memory is found.
pub fn read_scan(alloc: Global, bytes: &[u8], sep: Sep) -> Result<Vec<Point>, ScanFault>
    requires { length bytes.now ≤ 16777216 }
    ensures points { IfOk result (λ points. spec.scan_of sep bytes.now ≡ Ok points.items) }
    ensures fault { IfErr result (λ e. e ≢ ScanFault.Memory → spec.scan_of sep bytes.now ≡ Err e) }
{
    let rdr = ReaderBuilder::new()
        .delimiter(separator(sep))
        .has_headers(false)
        .flexible(true)
        .from_reader(alloc, bytes);
    let mut points = Vec::new(alloc);
    let mut number = 0;
    for row in rdr.into_byte_records() {
        let row = match row {
            Ok(row) => row,
            // Bytes in memory give `csv` no read error to report, so what is left is want of memory.
            Err(_) => return Err(ScanFault::Memory),
        };
        number += 1;
        take_record(&mut points, &row, number)?;
    }
    if points.is_empty() {
        return Err(ScanFault::NoPoints);
    }
    Ok(points)
}

// Adds the point of a record of this number, unless it is passed over.
fn take_record(points: &mut Vec<Point>, row: &ByteRecord, number: u32) -> Result<(), ScanFault>
    ensures taken { IfOk result (λ _. (rest : List spec.Fields) → spec.scan_from number points.old.items (fields_of row.now ∷ rest) ≡ spec.scan_from (number + 1) points.new.items rest) }
    ensures fault { IfErr result (λ e. e ≢ ScanFault.Memory → (rest : List spec.Fields) → spec.scan_from number points.old.items (fields_of row.now ∷ rest) ≡ Err e) }
{
    if is_passed_over(points.len(), row) {
        return Ok(());
    }
    let point = match point_of(row) {
        Ok(point) => point,
        Err(field) => return Err(ScanFault::BadRecord { number, field }),
    };
    if points.len() >= MAX_POINTS {
        return Err(ScanFault::Many);
    }
    if points.push(point).is_err() {
        return Err(ScanFault::Memory);
    }
    Ok(())
}

fn separator(sep: Sep) -> u8
    ensures { result ≡ spec.separator sep }
{
    match sep {
        Sep::Comma => b',',
        Sep::Semicolon => b';',
        Sep::Tab => b'\t',
    }
}
