//! Files that lines name, fetched from the shelf.

ghost use Rattle.std.specs.Prelude.{◌≡◌, ◌≢◌, ◌≤◌, ◌∷◌, [], ℕ, List, IfOk, IfErr, Err};
ghost use Rattle.std.specs.declared.option.Option.{Option};
ghost use Rattle.rf_base.specs.declared.decimal.Decimal.{Decimal};
ghost use Rattle.rf_exclusions.specs.declared.scan_set.Sep.{Sep};
ghost use Rattle.rf_session.specs.Fetches.{outside, of_file, found, got_of, Brought, BroughtWithin};
ghost use Rattle.rf_session.specs.Files as spec;

use crate::file_fault::FileFault;
use rf_base::{Fetch, NoMemory, Shelf};
use std::alloc::Global;

/// The largest file that a line may name, in bytes.
const FILE_LIMIT: usize = 16_777_216;

/// What came of a file.
#[derive(Drop)]
pub(crate) enum File {
    /// Its bytes.
    Found(Vec<u8>),
    /// It has more bytes than a file may have.
    TooLarge,
    /// The shelf failed at it.
    Fault,
}

impl File {
    /// Its bytes, or why there are none.
    pub(crate) fn bytes(self) -> Result<Vec<u8>, FileFault>
        ensures found { IfOk result (λ bytes. got_of self ≡ found bytes.items) }
        ensures profiles { IfErr result (λ e. spec.profiles_in (got_of self) ≡ Err e) }
        ensures hot { IfErr result (λ e. (sep : Sep) (threshold : Decimal) → spec.hot_in sep threshold (got_of self) ≡ Err e) }
    {
        match self {
            File::Found(bytes) => Ok(bytes),
            File::TooLarge => Err(FileFault::Large),
            File::Fault => Err(FileFault::Shelf),
        }
    }
}

/// Fetches a file that a line names.
pub(crate) fn fetch_file<F: Shelf>(
    alloc: Global,
    shelf: &mut F,
    name: &str,
) -> Result<File, NoMemory>
    ensures kept { (other : List ℕ) → other ≢ name.now → F.faults shelf.new other ≡ F.faults shelf.old other }
    ensures brought { IfOk result (λ file. (written : Option (List ℕ)) → Brought
        (outside written (F.file shelf.old) (F.faults shelf.old) (F.asked shelf.old))
        (outside written (F.file shelf.new) (F.faults shelf.new) (F.asked shelf.new)) (of_file name.now (got_of file) ∷ [])) }
    ensures small { IfOk result (λ file. spec.IsSmall (got_of file)) }
    ensures later { (other : List ℕ) → F.faults shelf.old other ≤ F.faults shelf.new other }
{
    fetch_within(alloc, shelf, name, FILE_LIMIT)
}

/// Fetches a file of at most `limit` bytes.
pub(crate) fn fetch_within<F: Shelf>(
    alloc: Global,
    shelf: &mut F,
    name: &str,
    limit: usize,
) -> Result<File, NoMemory>
    ensures kept { (other : List ℕ) → other ≢ name.now → F.faults shelf.new other ≡ F.faults shelf.old other }
    ensures brought { IfOk result (λ file. (written : Option (List ℕ)) → BroughtWithin limit
        (outside written (F.file shelf.old) (F.faults shelf.old) (F.asked shelf.old))
        (outside written (F.file shelf.new) (F.faults shelf.new) (F.asked shelf.new)) (of_file name.now (got_of file) ∷ [])) }
    ensures small { IfOk result (λ file. spec.IsWithin limit (got_of file)) }
    ensures later { (other : List ℕ) → F.faults shelf.old other ≤ F.faults shelf.new other }
{
    match shelf.fetch(alloc, name, limit) {
        Ok(bytes) => Ok(File::Found(bytes)),
        Err(Fetch::Large) => Ok(File::TooLarge),
        Err(Fetch::Failed) => Ok(File::Fault),
        Err(Fetch::Memory) => Err(NoMemory),
    }
}
