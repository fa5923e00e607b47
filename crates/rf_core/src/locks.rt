//! The locked carriers of a show, and the show with fewer locks.

ghost use Rattle.std.specs.Prelude.{◌≡◌, ◌<◌, IfOk, length, remove, true};
ghost use Rattle.rf_log.specs.Case as case;
ghost use Rattle.rf_show.specs.After.{edited};
ghost use Rattle.rf_show.specs.Show.{has_carrier};
ghost use Rattle.rf_show.specs.declared.edit.Edit.TheVariants.{Unlock};
ghost use Rattle.rf_tighter.specs.Locked.{kept};
ghost use Rattle.rf_core.specs.Blocking.{locks_of};

use rf_base::{Name, NoMemory};
use rf_show::{Edit, Show};
use rf_tighter::all_locks_are_kept;
use std::alloc::Global;

/// The places of the locked carriers.
pub(crate) fn locks_in(alloc: Global, show: &Show) -> Result<Vec<u32>, NoMemory>
    ensures { IfOk result (λ locks. locks.items ≡ locks_of show.now) }
{
    let mut locks = Vec::new(alloc);
    let carriers = show.carriers();
    for i in 0..carriers.len() {
        if carriers[i].locked {
            locks.push(i as u32)?;
        }
    }
    Ok(locks)
}

/// The list without the item at a place.
pub(crate) fn without(alloc: Global, keep: &[u32], at: usize) -> Result<Vec<u32>, NoMemory>
    requires { at < length keep.now }
    ensures { IfOk result (λ fewer. fewer.items ≡ remove keep.now at) }
{
    let mut fewer = keep.to_vec(alloc)?;
    fewer.remove(at);
    Ok(fewer)
}

/// A copy of the show, where of the locked carriers only these are still locked.
pub(crate) fn eased(alloc: Global, show: &Show, keep: &[u32]) -> Result<Show, NoMemory>
    ensures { IfOk result (λ eased. eased ≡ kept show.now keep.now) }
{
    all_locks_are_kept();
    let mut eased = show.copy(alloc)?;
    let carriers = show.carriers();
    for i in 0..carriers.len() {
        if !is_among(keep, i as u32) {
            unlock(&mut eased, carriers[i].name);
        }
    }
    Ok(eased)
}

// Whether a carrier is one of these.
fn is_among(set: &[u32], carrier: u32) -> bool
    ensures { result ≡ case.is_among set.now carrier }
{
    set.contains(&carrier)
}

// Unlocks a carrier of the show, which is never refused.
fn unlock(show: &mut Show, name: Name)
    requires { has_carrier show.old.carriers name ≡ true }
    ensures { show.new ≡ edited show.old (Unlock name) }
{
    let _undo = show.apply(Edit::Unlock { name });
}
