//! Searches of small shows that are made as if by chance, all of whose plans are tried one by one. What is saved of each
//! search is read and judged.
ghost use Rattle.std.specs.Prelude.{◌<◌, ◌≤◌};
ghost use Rattle.rf_search.specs.declared.limits.TheConstants.{MAX_BUDGET};

use crate::hold::{Broken, hold, told};
use crate::logs::log_of;
use crate::shows::{add_carrier, add_profile, add_time, change};
use rf_audit::{Audit, audit};
use rf_base::{Items, Khz, MemSink, Name};
use rf_checker::check;
use rf_log::{LogLine, Verdict};
use rf_profiles::Profile;
use rf_rules::keeps;
use rf_search::MAX_BUDGET;
use rf_show::{Edit, Show};
use rf_solving::{Found, write_search};
use std::alloc::Global;
use std::test::Fail;

/// What a search comes to.
#[derive(Clone, Copy, PartialEq, Eq)]
enum End {
    Plan,
    Refuted,
    Spent,
}

/// What a search comes to, and how many branchings it makes.
type Ending = (End, u32);

// ---- what is saved

/// Writes a search, with its verdict.
fn searched(alloc: Global, show: &Show, budget: u32) -> Result<(Vec<u8>, Found), Broken>
    requires { budget ≤ MAX_BUDGET }
{
    let Ok(mut sink) = MemSink::new(alloc, 1_000_000, 4096, Vec::new(alloc)) else {
        return Err(Broken("memory"));
    };
    let Ok(found) = write_search(alloc, show, budget, &mut sink) else {
        return Err(Broken("a sink with room"));
    };
    let mut text = sink.bytes().to_vec(alloc)?;
    text.extend_from_slice(found.verdict.as_slice())?;
    Ok((text, found))
}

fn branch_lines(lines: &[LogLine]) -> u32 {
    let mut count = 0u32;
    for line in lines {
        if let LogLine::Branch { .. } = line {
            count = count.saturating_add(1);
        }
    }
    count
}

/// How many branch lines a saved log has. A failure where the checker doesn't find its tree closed or open as is said.
fn accepted(alloc: Global, show: &Show, text: &[u8], closed: bool) -> Result<u32, Broken> {
    let log = match log_of(alloc, text) {
        Ok(log) => log,
        Err(_) => return Err(Broken("a log")),
    };
    let branchings = branch_lines(log.lines());
    let wanted = if closed {
        Verdict::Closed
    } else {
        Verdict::Unfinished { branchings }
    };
    let verdict = check(alloc, show, &log)?;
    hold(&[(verdict == wanted, "the verdict of the search")])?;
    let found = audit(alloc, show, &log)?;
    hold(&[(
        found == Audit::Honest { branchings },
        "honest branchings alone",
    )])?;
    Ok(branchings)
}

fn keeps_rules(show: &Show, plan: [u32; 4]) -> bool {
    let carriers = show.carriers().len();
    carriers <= 4 && keeps(show, &plan[..carriers])
}

/// The channels at these frequencies, one for each of at most four carriers.
fn plan_of(show: &Show, ats: &[Option<Khz>]) -> Option<[u32; 4]> {
    let carriers = show.carriers().len();
    if ats.len() != carriers || carriers > 4 {
        return None;
    }
    let mut plan = [0; 4];
    for carrier in 0..carriers {
        let khz = ats[carrier]?;
        plan[carrier] = show.profile_of(carrier).channels.index_of(khz)?;
    }
    Some(plan)
}

/// Whether the frequencies of a plan keep the rules.
fn is_plan(show: &Show, ats: &Items<Option<Khz>>) -> bool {
    match plan_of(show, ats.as_slice()) {
        Some(plan) => keeps_rules(show, plan),
        None => false,
    }
}

fn spent_text(budget: u32) -> &'static [u8] {
    match budget {
        0 => b"spent 0\n",
        1 => b"spent 1\n",
        2 => b"spent 2\n",
        _ => b"spent 20000\n",
    }
}

/// What a search says that it came to. A failure where its plan doesn't keep the rules, or its verdict is none.
fn end_of(show: &Show, found: &Found, budget: u32) -> Result<End, Broken> {
    if let Some(ats) = &found.ats {
        hold(&[(is_plan(show, ats), "a plan that keeps the rules")])?;
        return Ok(End::Plan);
    }
    let verdict = found.verdict.as_slice();
    if verdict == b"refuted\n".as_slice() {
        return Ok(End::Refuted);
    }
    hold(&[(verdict == spent_text(budget), "a budget that is used up")])?;
    Ok(End::Spent)
}

/// What a search comes to and how many branchings it makes. A failure where its plan doesn't keep the rules, or the checker
/// judges its saved log otherwise than it ends.
fn ended(alloc: Global, show: &Show, budget: u32) -> Result<Ending, Broken>
    requires { budget ≤ MAX_BUDGET }
{
    let (text, found) = searched(alloc, show, budget)?;
    let end = end_of(show, &found, budget)?;
    let branchings = accepted(alloc, show, text.as_slice(), end == End::Refuted)?;
    hold(&[
        (
            branchings <= budget,
            "at most as many branchings as the budget",
        ),
        (
            branchings == budget || end != End::Spent,
            "as many where it is used up",
        ),
    ])?;
    Ok((end, branchings))
}

// ---- small shows by chance

/// Numbers as if by chance, always the same.
#[derive(Drop)]
pub(crate) struct Chance {
    pub(crate) state: u32,
}

impl Chance {
    /// The next number, below `limit`.
    pub(crate) fn below(&mut self, limit: u32) -> u32
        requires { 0 < limit }
        ensures { result < limit }
    {
        self.state = self
            .state
            .wrapping_mul(1_664_525)
            .wrapping_add(1_013_904_223);
        (self.state >> 16) % limit
    }

    /// A multiple of 50 kHz, of the first so many.
    fn width(&mut self, limit: u32) -> u32
        requires { 0 < limit }
    {
        self.below(limit).saturating_mul(50)
    }

    /// True one time in two.
    fn tossed(&mut self) -> bool {
        self.below(2) == 1
    }
}

/// The numbers of a profile of two to four channels near 500 MHz.
fn some_numbers(chance: &mut Chance) -> [u32; Profile::NUMBERS] {
    let from = 500_000u32.saturating_add(chance.width(8));
    let step = 100u32.saturating_add(chance.width(6));
    let steps = chance.below(3) + 1;
    let to = from.saturating_add(step.saturating_mul(steps));
    let spacing = chance.width(9);
    let m2t3 = chance.width(4);
    let m3t3 = chance.width(4);
    let m2t5 = chance.width(3);
    let m3t5 = chance.width(3);
    let m2t7 = chance.width(3);
    [from, to, step, spacing, 25, m2t3, m3t3, m2t5, m3t5, m2t7]
}

/// Profiles `P` and `Q`, and a zone `far` that may be coupled with `main`, also far.
fn add_places(show: &mut Show, chance: &mut Chance) -> Result<(), Broken> {
    add_profile(show, b"P", some_numbers(chance))?;
    add_profile(show, b"Q", some_numbers(chance))?;
    let far = Name::read(b"far").ok_or("a name")?;
    change(show, Edit::AddZone { name: far })?;
    let main = Name::read(b"main").ok_or("a name")?;
    match chance.below(4) {
        0 => Ok(()),
        1 => change(show, Edit::Far { a: main, b: far }),
        _ => change(show, Edit::Couple { a: main, b: far }),
    }
}

/// A carrier, which is on for ten minutes or always.
fn add_some_carrier(show: &mut Show, word: &[u8], chance: &mut Chance) -> Result<(), Broken> {
    let profile: &[u8] = if chance.tossed() { b"P" } else { b"Q" };
    let zone: &[u8] = if chance.below(4) == 0 {
        b"far"
    } else {
        b"main"
    };
    add_carrier(show, word, profile, zone)?;
    if chance.below(3) != 0 {
        return Ok(());
    }
    let from = chance.below(3) * 5;
    add_time(show, word, from, from + 10)
}

/// The frequency of a channel of the first carrier, or one off its channels.
pub(crate) fn some_place(show: &Show, chance: &mut Chance) -> u32 {
    let k = chance.below(4);
    if show.carriers().len() == 0 {
        return 500_010;
    }
    let channels = &show.profile_of(0).channels;
    if k < channels.count() {
        channels.freq(k).get()
    } else {
        500_010
    }
}

/// Perhaps a ban of all zones or of `main`.
fn add_some_ban(show: &mut Show, chance: &mut Chance) -> Result<(), Broken> {
    if chance.below(3) != 0 {
        return Ok(());
    }
    let lo = 500_000u32.saturating_add(chance.width(10));
    let hi = lo.saturating_add(chance.width(3));
    let main = Name::read(b"main").ok_or("a name")?;
    let zone = if chance.tossed() { Some(main) } else { None };
    change(show, Edit::AddBan { lo, hi, zone })
}

/// Perhaps a lock of the first carrier.
fn lock_some_place(show: &mut Show, chance: &mut Chance) -> Result<(), Broken> {
    if chance.below(3) != 0 {
        return Ok(());
    }
    let khz = some_place(show, chance);
    lock_at(show, b"a", khz)
}

/// A carrier is locked at a frequency, where it is there.
pub(crate) fn lock_at(show: &mut Show, word: &[u8], khz: u32) -> Result<(), Broken> {
    let name = Name::read(word).ok_or("a name")?;
    if !show.carriers().iter().any(|carrier| carrier.name == name) {
        return Ok(());
    }
    change(show, Edit::SetAt { name, khz })?;
    change(show, Edit::Lock { name })
}

pub(crate) fn some_show(alloc: Global, chance: &mut Chance) -> Result<Show, Broken> {
    let mut show = Show::new(alloc)?;
    add_places(&mut show, chance)?;
    let count = 2 + chance.below(3);
    for (number, word) in [(0, b"a"), (1, b"b"), (2, b"c"), (3, b"d")] {
        if number < count {
            add_some_carrier(&mut show, word, chance)?;
        }
    }
    add_some_ban(&mut show, chance)?;
    lock_some_place(&mut show, chance)?;
    Ok(show)
}

/// Whether some plan keeps the rules. Each is tried, where there are at most four carriers of at most four channels.
pub(crate) fn has_plan(show: &Show) -> bool {
    let plans = match show.carriers().len() {
        0 => 1u32,
        1 => 4,
        2 => 16,
        3 => 64,
        _ => 256,
    };
    for number in 0..plans {
        let plan = [number % 4, number / 4 % 4, number / 16 % 4, number / 64];
        if keeps_rules(show, plan) {
            return true;
        }
    }
    false
}

/// How many of the budgets 0, 1 and 2 are used up. A failure where another ending comes than that of the whole search.
fn used_up(alloc: Global, show: &Show, whole: Ending) -> Result<u32, Broken> {
    let mut spent = 0u32;
    for budget in 0..3u32 {
        let found = ended(alloc, show, budget)?;
        let wanted = if whole.1 <= budget {
            whole
        } else {
            (End::Spent, budget)
        };
        hold(&[(
            found.0 == wanted.0 && found.1 == wanted.1,
            "a small budget is used up or enough",
        )])?;
        if found.0 == End::Spent {
            spent = spent.saturating_add(1);
        }
    }
    Ok(spent)
}

/// Whether a show has a plan, and how many small budgets are used up in a search of it.
fn tried(alloc: Global, chance: &mut Chance) -> Result<(bool, u32), Broken> {
    let show = some_show(alloc, chance)?;
    let whole = ended(alloc, &show, MAX_BUDGET)?;
    let planned = has_plan(&show);
    let wanted = if planned { End::Plan } else { End::Refuted };
    hold(&[(
        whole.0 == wanted,
        "a plan exactly where one keeps the rules",
    )])?;
    Ok((planned, used_up(alloc, &show, whole)?))
}

fn all(alloc: Global) -> Result<(), Broken> {
    let mut chance = Chance { state: 5 };
    let mut with_plan = 0u32;
    let mut spent = 0u32;
    for _ in 0..60u32 {
        let (planned, used_up) = tried(alloc, &mut chance)?;
        if planned {
            with_plan = with_plan.saturating_add(1);
        }
        spent = spent.saturating_add(used_up);
    }
    hold(&[
        (20 <= with_plan, "twenty shows or more have a plan"),
        (with_plan <= 40, "twenty or more have none"),
        (20 <= spent, "twenty budgets or more are used up"),
    ])
}

#[test]
fn a_search_finds_a_plan_exactly_where_one_keeps_the_rules(rt: HostRuntime) -> Result<(), Fail> {
    told(all(rt.alloc()))
}
