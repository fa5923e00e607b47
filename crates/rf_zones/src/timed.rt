//! Whoever has times, and whether several are on in one minute.

ghost use Rattle.std.specs.Prelude.{◌≡◌, ℕ, ◌<◌, List, [], map, length, slice_index_or, true};
ghost use Rattle.std.specs.List.{list_all, list_any};
ghost use Rattle.rf_zones.specs.Slices.{share_minute, on_at};
ghost use Rattle.rf_zones.specs.Timed.{all_below, share_begin};
ghost use Rattle.rf_zones.specs.Times.{is_interval};

use crate::times::Times;

/// What has times, as a carrier.
pub trait Timed {
    /// Its intervals.
    ghost intervals: { Self → List (ℕ × ℕ) };

    /// When it is on.
    fn times(&self) -> Times
        ensures { result ≡ intervals self.now };
}

impl Timed for Times {
    ghost intervals = { λ t. t };

    fn times(&self) -> Times {
        *self
    }
}

/// Whether all of a set are on in one minute of the week. The numbers in `set` are places in `all`.
pub fn share_minute<T: Timed>(all: &[T], set: &[usize]) -> bool
    requires { all_below (length all.now) set.now ≡ true }
    ensures { result ≡ share_minute (map T.intervals all.now) set.now }
{
    are_on(all, set, 0) || share_start(all, set)
}

// Whether all of a set are on in a minute in which an interval of one of them begins.
fn share_start<T: Timed>(all: &[T], set: &[usize]) -> bool
    requires { all_below (length all.now) set.now ≡ true }
    ensures { result ≡ list_any (λ k. share_begin (map T.intervals all.now) set.now (slice_index_or (map T.intervals all.now) k [])) set.now }
{
    for k in set {
        if share_begin(all, set, all[*k].times().list()) {
            return true;
        }
    }
    false
}

// Whether all of a set are on in a minute in which one of these intervals begins.
fn share_begin<T: Timed>(all: &[T], set: &[usize], list: &[(u16, u16)]) -> bool
    requires in_all { all_below (length all.now) set.now ≡ true }
    requires valid { list_all is_interval list.now ≡ true }
    ensures { result ≡ share_begin (map T.intervals all.now) set.now list.now }
{
    for interval in list {
        if are_on(all, set, interval.0) {
            return true;
        }
    }
    false
}

fn are_on<T: Timed>(all: &[T], set: &[usize], minute: u16) -> bool
    requires in_all { all_below (length all.now) set.now ≡ true }
    requires within { minute < 10080 }
    ensures { result ≡ list_all (on_at (map T.intervals all.now) minute) set.now }
{
    for k in set {
        if !all[*k].times().on(minute) {
            return false;
        }
    }
    true
}
