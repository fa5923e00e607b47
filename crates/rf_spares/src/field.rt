//! What is open to a newcomer, beside the carriers of a show and the newcomers before it.

ghost use Rattle.std.specs.Prelude.{◌≡◌, ◌<◌, ◌≤◌, ◌+◌, ◌-◌, ◌∷◌, ◌++◌, [], All, ℕ, IfOk, IfSome, IfNone, Some, false, filter, length, map, slice_get, slice_index, true};
ghost use Rattle.rf_show.specs.Limits.{most_carriers};
ghost use Rattle.rf_rules.specs.Instances.{ats_of};
ghost use Rattle.rf_rules.specs.Tuples.{upto};
ghost use Rattle.rf_spares.specs.Crowds.{IsCrowd};
ghost use Rattle.rf_spares.specs.Fields.{AreClosed, IsField, IsFirstOpen, IsSwept, channels_of, is_open, is_open_channel};
ghost use Rattle.rf_spares.specs.Searches.{site};
ghost use Rattle.rf_profiles.specs.Channels.{channels};
ghost use Rattle.rf_spares.specs.Markings.{IsReach, Spans};
ghost use Rattle.rf_spares.specs.Newcomers.{channels_at};

use crate::crowd::Crowd;
use crate::marks::Marks;
use crate::search::mark_all;
use rf_base::{Khz, NoMemory};
use rf_profiles::Channels;
use rf_show::Show;
use std::alloc::Global;

/// The carriers of a show and newcomers behind them, with their frequencies, and marks on those that a further newcomer
/// would break.
#[derive(Drop)]
pub struct Field<'a> {
    pub crowd: Crowd<'a>,
    pub ats: Vec<Option<Khz>>,
    pub marks: Marks,
}

/// How far the marks are looked through: the places, and the greatest end that was met.
#[derive(Clone, Copy)]
pub struct Sweep {
    pub place: usize,
    pub reach: u32,
}

impl<'a> Field<'a> {
    /// The show without newcomers. `NoMemory` where no memory is found.
    pub fn of(
        alloc: Global,
        show: &'a Show,
        profile: usize,
        zone: u8,
    ) -> Result<Field<'a>, NoMemory>
        requires profile { profile < length show.now.profiles }
        requires zone { zone < length show.now.zones.names }
        ensures known { IfOk result (λ field. IsField field) }
        ensures of { IfOk result (λ field. site field.crowd ≡ record { show = show.now; profile = profile; zone = zone }) }
        ensures ats { IfOk result (λ field. field.ats.items ≡ ats_of show.now) }
    {
        let crowd = Crowd::of(alloc, show, profile, zone)?;
        let ats = assigned(alloc, show)?;
        let channels = &crowd.own_profile().channels;
        let low = channels.ranges()[0].from();
        let high = channels.freq(channels.count() - 1).get();
        let mut marks = Marks::none(alloc, low, high - low + 1)?;
        mark_all(&crowd, &ats, None, &mut marks);
        Ok(Field { crowd, ats, marks })
    }

    /// The channels of the newcomers' profile.
    pub fn channels(&self) -> &Channels
        requires { IsCrowd self.now.crowd }
        ensures { channels result.now ≡ channels_of self.now }
    {
        &self.crowd.own_profile().channels
    }

    /// Adds a newcomer at a frequency. `NoMemory` where no memory is found.
    pub fn settle(&mut self, khz: Khz) -> Result<(), NoMemory>
        requires known { IsField self.old }
        requires room { length self.old.ats.items < most_carriers }
        ensures known { IfOk result (λ _. IsField self.new) }
        ensures crowd { IfOk result (λ _. self.new.crowd ≡ self.old.crowd) }
        ensures ats { IfOk result (λ _. self.new.ats.items ≡ self.old.ats.items ++ Some khz ∷ []) }
    {
        let place = self.ats.len();
        self.ats.push(Some(khz))?;
        mark_all(&self.crowd, &self.ats, Some(place), &mut self.marks);
        Ok(())
    }

    /// The channels that are open, in rising order. `NoMemory` where no memory is found.
    pub fn all_open(&self, alloc: Global) -> Result<Vec<u32>, NoMemory>
        requires { IsField self.now }
        ensures found { IfOk result (λ found. found.items ≡ filter (is_open_channel self.now) (upto (length (channels_of self.now)))) }
        ensures within { IfOk result (λ found. All (λ k. k < length (channels_of self.now)) found.items) }
    {
        let channels = self.channels();
        let mut sweep = Sweep { place: 0, reach: 0 };
        let mut open = Vec::new(alloc);
        for k in 0..channels.count() {
            let khz = channels.freq(k);
            sweep = self.advance(sweep, khz);
            if !self.is_open(sweep, khz) {
                continue;
            }
            open.push(k)?;
        }
        Ok(open)
    }

    /// The first channel from number `from` on that is open.
    pub fn first_open(&self, from: u32) -> Option<u32>
        requires { IsField self.now }
        ensures none { IfNone result (AreClosed self.now from (length (channels_of self.now))) }
        ensures some { IfSome result (λ k. IsFirstOpen self.now from k) }
    {
        let channels = self.channels();
        let mut sweep = Sweep { place: 0, reach: 0 };
        for k in from..channels.count() {
            let khz = channels.freq(k);
            sweep = self.advance(sweep, khz);
            if self.is_open(sweep, khz) {
                return Some(k);
            }
        }
        None
    }

    // Looks through the marks up to a frequency.
    fn advance(&self, sweep: Sweep, khz: Khz) -> Sweep
        requires spans { Spans self.now.marks khz }
        requires order { sweep.place + self.now.marks.low ≤ khz }
        requires reached { IsReach self.now.marks sweep.place sweep.reach }
        ensures { IsSwept self.now result khz }
    {
        let place = (khz.get() - self.marks.low + 1) as usize;
        Sweep {
            place,
            reach: self.marks.reach(sweep.reach, sweep.place, place),
        }
    }

    // The frequency up to which the marks were looked through is open.
    fn is_open(&self, sweep: Sweep, khz: Khz) -> bool
        requires known { IsField self.now }
        requires spans { Spans self.now.marks khz }
        requires swept { IsSwept self.now sweep khz }
        ensures { result ≡ is_open self.now khz }
    {
        !self.crowd.bans(khz) && khz.get() >= sweep.reach
    }
}

/// The frequencies at which the carriers of a show stand.
fn assigned(alloc: Global, show: &Show) -> Result<Vec<Option<Khz>>, NoMemory>
    ensures { IfOk result (λ ats. ats.items ≡ ats_of show.now) }
{
    let mut ats = Vec::new(alloc);
    for carrier in show.carriers() {
        ats.push(carrier.at)?;
    }
    Ok(ats)
}
