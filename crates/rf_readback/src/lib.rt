//! The law that what is written of a log reads back.
#![tactic(auto)]

ghost use Rattle.rf_readback.specs.Law.{WrittenReadsBack};

/// The lines of a log over names, written one after another, read back as the same lines with the same names, also where
/// `plan`, `refuted` or `spent` with a number comes after them, and anything behind that line.
pub fn written_log_reads_back()
    ensures { WrittenReadsBack }
{}
