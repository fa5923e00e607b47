//! The edit of a command that names a file, from what came of the file.

ghost use Rattle.std.specs.Prelude.{◌≡◌, ◌≢◌, IfOk, IfErr, IsTrue, Ok, Err};
ghost use Rattle.rf_show.specs.After.{is_edit};
ghost use Rattle.rf_show.specs.declared.edit.Edit.{Edit};
ghost use Rattle.rf_session.specs.Fetches.{got_of};
ghost use Rattle.rf_session.specs.Files as spec;
ghost use Rattle.rf_session.specs.Shows.{profiles_edit, scan_edit};

use crate::file::File;
use crate::file_fault::FileFault;
use rf_base::{Decimal, FileName, Items, Name, NoMemory};
use rf_exclusions::{HotPoints, Sep};
use rf_profiles::{Profile, read_profiles};
use rf_scan::{hot_points, read_scan};
use rf_show::Edit;
use std::alloc::Global;

/// The edit that adds the profiles of a file.
pub(crate) fn profiles_edit(alloc: Global, file: File) -> Result<Edit, FileFault>
    requires { spec.IsSmall (got_of file) }
    ensures edit { IfOk result (λ edit. profiles_edit (spec.profiles_in (got_of file)) ≡ Ok edit) }
    ensures fault { IfErr result (λ e. e ≢ FileFault.Memory → profiles_edit (spec.profiles_in (got_of file)) ≡ Err e) }
    ensures is_edit { IfOk result (λ edit. IsTrue (is_edit edit)) }
{
    match profiles_in(alloc, file) {
        Ok(list) => Ok(Edit::AddProfiles { list }),
        Err(fault) => Err(fault),
    }
}

/// The edit that adds a scan with the hot points of its file.
pub(crate) fn scan_edit(
    alloc: Global,
    name: FileName,
    zone: Name,
    threshold: Decimal,
    width: u32,
    sep: Sep,
    file: File,
) -> Result<Edit, FileFault>
    requires { spec.IsSmall (got_of file) }
    ensures edit { IfOk result (λ edit. scan_edit name zone threshold width sep (spec.hot_in sep threshold (got_of file)) ≡ Ok edit) }
    ensures fault { IfErr result (λ e. e ≢ FileFault.Memory → scan_edit name zone threshold width sep (spec.hot_in sep threshold (got_of file)) ≡ Err e) }
    ensures is_edit { IfOk result (λ edit. IsTrue (is_edit edit)) }
{
    match hot_in(alloc, file, sep, threshold) {
        Ok(hot) => Ok(Edit::AddScan {
            file: name,
            sep,
            zone,
            threshold,
            width,
            hot,
        }),
        Err(fault) => Err(fault),
    }
}

/// The profiles of a file, in the order of their keys.
fn profiles_in(alloc: Global, file: File) -> Result<Items<Profile>, FileFault>
    requires { spec.IsSmall (got_of file) }
    ensures profiles { IfOk result (λ list. spec.profiles_in (got_of file) ≡ Ok list) }
    ensures fault { IfErr result (λ e. e ≢ FileFault.Memory → spec.profiles_in (got_of file) ≡ Err e) }
    ensures edit { IfOk result (λ list. IsTrue (is_edit (Edit.AddProfiles list))) }
{
    let bytes = match file.bytes() {
        Ok(bytes) => bytes,
        Err(fault) => return Err(fault),
    };
    match read_profiles(alloc, bytes.as_slice()) {
        Ok(list) => Ok(Items::from_vec(list)),
        Err(fault) => Err(FileFault::from(fault)),
    }
}

/// The hot points of a scan file, of which the level is at or above the threshold.
fn hot_in(alloc: Global, file: File, sep: Sep, threshold: Decimal) -> Result<HotPoints, FileFault>
    requires { spec.IsSmall (got_of file) }
    ensures hot { IfOk result (λ hot. spec.hot_in sep threshold (got_of file) ≡ Ok hot) }
    ensures fault { IfErr result (λ e. e ≢ FileFault.Memory → spec.hot_in sep threshold (got_of file) ≡ Err e) }
{
    let bytes = match file.bytes() {
        Ok(bytes) => bytes,
        Err(fault) => return Err(fault),
    };
    let points = match read_scan(alloc, bytes.as_slice(), sep) {
        Ok(points) => points,
        Err(fault) => return Err(FileFault::from(fault)),
    };
    match hot_points(alloc, points.as_slice(), threshold) {
        Ok(hot) => Ok(hot),
        Err(NoMemory) => Err(FileFault::Memory),
    }
}
