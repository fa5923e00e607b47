//! Which channels are spare, and which of them can be taken side by side.

ghost use Rattle.std.specs.Prelude.{◌≡◌, ◌<◌, ◌≤◌, ◌+◌, All, IfOk, length};
ghost use Rattle.rf_show.specs.Limits.{most_carriers};
ghost use Rattle.rf_rules.specs.Instances.{ats_of};
ghost use Rattle.rf_spares.specs.Fields.{IsField, channels_of};
ghost use Rattle.rf_spares.specs.Spare.{ChosenKeepTheAnalysis, chosen, spare_channels};
ghost use Rattle.rf_spares.specs.Texts.{IsListed};

use crate::answer::Spares;
use crate::field::Field;
use rf_base::{Items, NoMemory};
use rf_show::Show;
use std::alloc::Global;

/// Finds the channels of a profile on which a further carrier of it, in this zone and always on, could be added, and takes
/// up to `count`, at most 32, of them that can be added together: in rising order each that is still spare beside those
/// taken before. The show's carriers and `count` are at most `Show::MAX_CARRIERS`. `NoMemory` where no memory is found.
pub fn spares(
    alloc: Global,
    show: &Show,
    profile: usize,
    zone: u8,
    count: u32,
) -> Result<Spares, NoMemory>
    requires profile { profile < length show.now.profiles }
    requires zone { zone < length show.now.zones.names }
    requires few { count ≤ 32 }
    requires room { length show.now.carriers + count ≤ most_carriers }
    ensures free { IfOk result (λ answer. answer.free ≡ spare_channels show.now profile zone) }
    ensures taken { IfOk result (λ answer. answer.taken ≡ chosen show.now profile zone count) }
    ensures listed { IfOk result (λ answer. IsListed show.now profile answer) }
{
    let mut field = Field::of(alloc, show, profile, zone)?;
    let free = field.all_open(alloc)?;
    let taken = take(alloc, &mut field, count)?;
    Ok(Spares {
        free: Items::from_vec(free),
        taken: Items::from_vec(taken),
    })
}

/// Takes up to `count` channels that are open, in rising order, each beside those before it.
fn take(alloc: Global, field: &mut Field, count: u32) -> Result<Vec<u32>, NoMemory>
    requires known { IsField field.old }
    requires fresh { field.old.ats.items ≡ ats_of field.old.crowd.show.now }
    requires room { length field.old.ats.items + count ≤ most_carriers }
    ensures taken { IfOk result (λ taken. taken.items ≡ chosen field.old.crowd.show.now field.old.crowd.profile field.old.crowd.zone count) }
    ensures within { IfOk result (λ taken. All (λ k. k < length (channels_of field.old)) taken.items) }
{
    let most = count.min(field.channels().count());
    let mut taken = Vec::with_capacity(alloc, most as usize)?;
    let mut from = 0;
    for turn in 0..count {
        let Some(k) = field.first_open(from) else {
            return Ok(taken);
        };
        field.settle(field.channels().freq(k))?;
        taken.push(k)?;
        from = k + 1;
    }
    Ok(taken)
}

/// Where carriers are added at all channels that are taken, the conflicts of the show stay as they are, entry for entry.
pub fn chosen_keep_the_analysis()
    ensures { ChosenKeepTheAnalysis }
{}
