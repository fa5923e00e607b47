//! The minutes of the week that matter, each as a mask of the carriers that are on.

ghost use Rattle.std.specs.Prelude.{◌≡◌, ℕ, ◌<◌, ◌≤◌, Bool, List, ◌||◌, true, false, IfOk, length, map, nat_eq};
ghost use Rattle.std.specs.List.{list_all, list_any};
ghost use Rattle.rf_zones.specs.Masks.{has_bits};
ghost use Rattle.rf_zones.specs.Slices.{is_slice, mask_at, share_minute};
ghost use Rattle.rf_zones.specs.Times.{is_interval};

use crate::mask::{self, MAX_CARRIERS, Mask};
use crate::times::Times;
use rf_base::NoMemory;
use std::alloc::Global;
use std::marker::Model;

/// Which carriers are on together: masks of those that are on in a minute. The masks are those of minute 0 and of each minute
/// in which an interval begins, so that carriers have a common minute exactly where one mask has all their bits.
#[derive(Drop)]
pub struct Slices {
    masks: Vec<Mask>,
}

impl Model for Slices {
    ghost use Rattle.std.specs.Prelude.{ℕ, List};

    ghost Value = { List ℕ };

    ghost view = { λ s. s.masks.items };
}

impl Slices {
    /// The slices of carriers with these times, at most `MAX_CARRIERS`. `NoMemory` where no memory is found.
    pub fn of(alloc: Global, times: &[Times]) -> Result<Slices, NoMemory>
        requires { length times.now ≤ MAX_CARRIERS }
        ensures common { IfOk result (λ masks. (set : List ℕ) → list_any (has_bits set) masks ≡ share_minute times.now set) }
        ensures real { IfOk result (λ masks. list_all (is_slice times.now) masks ≡ true) }
    {
        let mut masks = Vec::new(alloc);
        add_mask(&mut masks, mask_at(times, 0))?;
        for time in times {
            add_starts(&mut masks, times, time.list())?;
        }
        Ok(Slices { masks })
    }

    /// The masks.
    pub fn masks(&self) -> &[Mask]
        ensures { result.now ≡ self.now }
    {
        self.masks.as_slice()
    }
}

// Adds the masks of the minutes in which these intervals begin.
fn add_starts(masks: &mut Vec<Mask>, times: &[Times], list: &[(u16, u16)]) -> Result<(), NoMemory>
    requires few { length times.now ≤ MAX_CARRIERS }
    requires valid { list_all is_interval list.now ≡ true }
    ensures { IfOk result (λ _. (test : ℕ → Bool) → list_any test masks.new.items ≡ (list_any test masks.old.items || list_any (λ i. test (mask_at times.now i.0)) list.now)) }
{
    for interval in list {
        add_mask(masks, mask_at(times, interval.0))?;
    }
    Ok(())
}

// Adds a mask that isn't there.
fn add_mask(masks: &mut Vec<Mask>, mask: Mask) -> Result<(), NoMemory>
    ensures { IfOk result (λ _. (test : ℕ → Bool) → list_any test masks.new.items ≡ (list_any test masks.old.items || test mask)) }
{
    if !has_mask(masks, mask) {
        masks.push(mask)?;
    }
    Ok(())
}

fn has_mask(masks: &[Mask], mask: Mask) -> bool
    ensures { result ≡ list_any (nat_eq mask) masks.now }
{
    masks.iter().any(|m| mask == *m)
}

// The carriers that are on in a minute.
fn mask_at(times: &[Times], minute: u16) -> Mask
    requires few { length times.now ≤ MAX_CARRIERS }
    requires within { minute < 10080 }
    ensures { result ≡ mask_at times.now minute }
{
    let mut on = mask::none();
    for k in 0..times.len() {
        if times[k].on(minute) {
            on = mask::with(on, k);
        }
    }
    on
}
