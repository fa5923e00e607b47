//! Why a file that a line names gives nothing, and how that is replied.

ghost use Rattle.std.specs.Prelude.{◌≡◌, ◌≢◌, ◌++◌, IfOk, OnOk, string_bytes};
ghost use Rattle.rf_session.specs.Files as spec;

use crate::reply::{Code, Reply};
use rf_base::{Items, NoMemory};
use rf_profiles::{Field, ProfilesFault};
use rf_scan::ScanFault;
use std::alloc::Global;

/// Why a file gives nothing.
#[derive(Clone, Copy, PartialEq, Eq)]
pub enum FileFault {
    /// The shelf failed at it.
    Shelf,
    /// It has more bytes than a file may have.
    Large,
    /// It is no TOML document.
    Toml,
    /// A profile is bad: the first in key order, counted from 1, and its first bad field.
    Profile { number: u32, field: Field },
    /// No record of a scan begins with a number.
    Points,
    /// A record of a scan is bad. Records and fields count from 1.
    Record { number: u32, field: u32 },
    /// A scan has too many points.
    Many,
    /// No memory was found.
    Memory,
}

impl From<ProfilesFault> for FileFault {
    fn from(fault: ProfilesFault) -> FileFault
        ensures { result ≡ spec.of_profiles fault }
    {
        match fault {
            ProfilesFault::Toml => FileFault::Toml,
            ProfilesFault::BadProfile { number, field } => FileFault::Profile { number, field },
            ProfilesFault::Memory => FileFault::Memory,
        }
    }
}

impl From<ScanFault> for FileFault {
    fn from(fault: ScanFault) -> FileFault
        ensures { result ≡ spec.of_scan fault }
    {
        match fault {
            ScanFault::NoPoints => FileFault::Points,
            ScanFault::BadRecord { number, field } => FileFault::Record { number, field },
            ScanFault::Many => FileFault::Many,
            ScanFault::Memory => FileFault::Memory,
        }
    }
}

/// Refuses a line whose file gives nothing.
pub(crate) fn refuse_file(alloc: Global, fault: FileFault) -> Result<Reply, NoMemory>
    ensures reply { IfOk result (λ reply. reply ≡ spec.fault_reply fault) }
    ensures memory { OnOk result (fault ≢ FileFault.Memory) }
{
    match fault {
        FileFault::Shelf => Ok(Reply::Error(Code::ShelfFault)),
        FileFault::Memory => Err(NoMemory),
        _ => {
            let mut text = String::new(alloc);
            write!(text, "error E10 ")?;
            write_fault(&mut text, fault)?;
            writeln!(text)?;
            Ok(Reply::BadFile(Items::from_vec(text.into_bytes())))
        }
    }
}

fn write_fault(text: &mut String, fault: FileFault) -> Result<(), NoMemory>
    ensures { OnOk result (string_bytes text.new ≡ string_bytes text.old ++ spec.fault_words fault) }
{
    match fault {
        FileFault::Large => write!(text, "large")?,
        FileFault::Toml => write!(text, "toml")?,
        FileFault::Profile { number, field } => {
            let field = field_word(field);
            write!(text, "profile {number} {field}")?;
        }
        FileFault::Points => write!(text, "points")?,
        FileFault::Record { number, field } => write!(text, "record {number} field {field}")?,
        FileFault::Many => write!(text, "many")?,
        FileFault::Shelf | FileFault::Memory => {}
    }
    Ok(())
}

fn field_word(field: Field) -> &'static str
    ensures { result.now ≡ spec.field_word field }
{
    match field {
        Field::Name => "name",
        Field::Table => "table",
        Field::Ranges => "ranges",
        Field::Spacing => "spacing",
        Field::Half => "half",
        Field::M2t3 => "m2t3",
        Field::M3t3 => "m3t3",
        Field::M2t5 => "m2t5",
        Field::M3t5 => "m3t5",
        Field::M2t7 => "m2t7",
        Field::Other => "other",
    }
}
