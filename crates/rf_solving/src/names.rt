//! The names of a show's carriers, in the show's order.

ghost use Rattle.std.specs.Prelude.{◌≡◌, IfOk};
ghost use Rattle.rf_show.specs.Show.{carrier_names};

use rf_base::{Name, NoMemory};
use rf_show::Carrier;
use std::alloc::Global;

/// The names of carriers.
pub(crate) fn names_of(alloc: Global, carriers: &[Carrier]) -> Result<Vec<Name>, NoMemory>
    ensures { IfOk result (λ names. names.items ≡ carrier_names carriers.now) }
{
    let mut names = Vec::new(alloc);
    for carrier in carriers {
        names.push(carrier.name)?;
    }
    Ok(names)
}
