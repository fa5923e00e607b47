//! How much wider the spacings and margins of small shows can be, where each number from 0 to 1,000 is tried.
ghost use Rattle.std.specs.Prelude.{◌≤◌};
ghost use Rattle.rf_search.specs.declared.limits.TheConstants.{MAX_BUDGET};

use crate::copies::{are_narrow, raised};
use crate::hold::{Broken, hold, told};
use crate::logs::log_of;
use crate::searches::{Chance, has_plan, some_show};
use crate::shows::{add_carrier, add_profile, change};
use rf_base::Name;
use rf_checker::check;
use rf_decide::Solver;
use rf_log::Verdict;
use rf_margin::{Widest, widen_text, widest};
use rf_profiles::Profile;
use rf_rules::keeps;
use rf_search::MAX_BUDGET;
use rf_show::{Edit, Show};
use std::alloc::Global;
use std::test::Fail;

// ---- every number is tried

/// A show that is raised by so much.
fn wider(alloc: Global, show: &Show, extra: u32) -> Result<Show, Broken> {
    let mut copy = show.copy(alloc)?;
    hold(&[(raised(&mut copy, extra), "a show that may be raised")])?;
    Ok(copy)
}

/// The greatest number by which a show can be raised, None where it has no plan as it is: each from 0 to 1,000 is tried. A
/// failure where there is a plan beyond a number that has none.
fn greatest(alloc: Global, show: &Show) -> Result<Option<u32>, Broken> {
    let mut last = None;
    let mut ended = false;
    for extra in 0..1001u32 {
        if has_plan(&wider(alloc, show, extra)?) {
            hold(&[(!ended, "no plan beyond a number that has none")])?;
            last = Some(extra);
        } else {
            ended = true;
        }
    }
    Ok(last)
}

// ---- what is answered

/// What is answered of a show, and its text.
fn answered(alloc: Global, show: &Show, budget: u32) -> Result<(Widest, Vec<u8>), Broken>
    requires { budget ≤ MAX_BUDGET }
{
    if !are_narrow(show.profiles()) {
        return Err(Broken("a show that may be raised"));
    }
    let mut solver = Solver::new(alloc);
    let answer = widest(alloc, show, budget, &mut solver)?;
    let text = widen_text(alloc, show, &answer)?;
    Ok((answer, text))
}

/// Whether the plan of an answer keeps the rules of the show that is raised by so much.
fn keeps_at(alloc: Global, show: &Show, extra: u32, plan: &[u32]) -> Result<(), Broken> {
    let there = wider(alloc, show, extra)?;
    hold(&[(keeps(&there, plan), "a plan of the show that is raised")])
}

/// By how much an answer says that a show can be raised. A failure where its plan is none, or where the budget is used up.
fn told_of(alloc: Global, show: &Show, answer: &Widest) -> Result<Option<u32>, Broken> {
    match answer {
        Widest::Greatest { extra, plan, .. } => {
            keeps_at(alloc, show, *extra, plan.as_slice())?;
            Ok(Some(*extra))
        }
        Widest::Most { plan } => {
            keeps_at(alloc, show, Show::MAX_RAISED, plan.as_slice())?;
            Ok(Some(Show::MAX_RAISED))
        }
        Widest::Refuted { .. } => Ok(None),
        Widest::Spent { .. } => Err(Broken("a budget that is enough")),
    }
}

/// A failure where an answer isn't the greatest number that is found by trying each.
fn tried(alloc: Global, show: &Show) -> Result<Option<u32>, Broken> {
    let (answer, _) = answered(alloc, show, MAX_BUDGET)?;
    let found = greatest(alloc, show)?;
    let same = told_of(alloc, show, &answer)? == found;
    hold(&[(same, "the number that is found by trying each")])?;
    Ok(found)
}

// ---- shows that are made by hand

/// A show with carriers of a profile `Q`, of which the first may be locked at a frequency.
fn made(
    alloc: Global,
    numbers: [u32; Profile::NUMBERS],
    words: &[&[u8]],
    locked: Option<u32>,
) -> Result<Show, Broken> {
    let mut show = Show::new(alloc)?;
    add_profile(&mut show, b"Q", numbers)?;
    for word in words {
        add_carrier(&mut show, *word, b"Q", b"main")?;
    }
    if let Some(khz) = locked {
        let name = Name::read(b"a").ok_or("a name")?;
        change(&mut show, Edit::SetAt { name, khz })?;
        change(&mut show, Edit::Lock { name })?;
    }
    Ok(show)
}

/// Two channels 300 kHz apart and two carriers with this spacing, of which the first is locked at the lower channel.
fn two_channels(alloc: Global, spacing: u32) -> Result<Show, Broken> {
    let numbers = [500_000, 500_300, 300, spacing, 0, 0, 0, 0, 0, 0];
    made(alloc, numbers, &[b"a", b"b"], Some(500_000))
}

/// The verdict on the log that a text has behind its head.
fn judged(alloc: Global, show: &Show, text: &[u8], head: &[u8]) -> Result<Verdict, Broken> {
    if text.len() < head.len() || &text[..head.len()] != head {
        return Err(Broken("the head of the text"));
    }
    match log_of(alloc, &text[head.len()..]) {
        Ok(log) => Ok(check(alloc, show, &log)?),
        Err(_) => Err(Broken("a log behind the head")),
    }
}

/// The log behind `log 51` closes the tree of the show whose spacing is 301, and of none whose spacing is less.
fn logs_are_judged(alloc: Global) -> Result<(), Broken> {
    let show = two_channels(alloc, 250)?;
    let (_, text) = answered(alloc, &show, 1)?;
    let head = b"margin 50\nat a 500000\nat b 500300\nlog 51\n";
    let whole =
        b"margin 50\nat a 500000\nat b 500300\nlog 51\nn ; ban a 1 1 rule spacing a b 2 0 1\nu 1\nrefuted\n";
    let next = judged(alloc, &two_channels(alloc, 301)?, text.as_slice(), head)?;
    let same = judged(alloc, &two_channels(alloc, 300)?, text.as_slice(), head)?;
    hold(&[
        (text.as_slice() == whole.as_slice(), "the whole reply"),
        (next == Verdict::Closed, "a log of the next show"),
        (same != Verdict::Closed, "which is none of the show before"),
    ])
}

fn texts_are_whole(alloc: Global) -> Result<(), Broken> {
    let near = [500_000, 500_300, 300, 350, 0, 0, 0, 0, 0, 0];
    let near = made(alloc, near, &[b"a", b"b"], None)?;
    let (_, spent) = answered(alloc, &near, 0)?;
    let (_, refuted) = answered(alloc, &near, 1)?;
    let empty = Show::new(alloc)?;
    let (_, most) = answered(alloc, &empty, 0)?;
    let closed =
        b"log 0\nb fix a 0\nn in a 0 0 ; rule spacing a b 2 0 1\nu 2\nn ; line 2 rule spacing a b 2 0 1\nu 4\nrefuted\n";
    hold(&[
        (
            spent.as_slice() == b"log 0\nspent 0\n".as_slice(),
            "used up at once",
        ),
        (refuted.as_slice() == closed.as_slice(), "no plan as it is"),
        (most.as_slice() == b"margin 1000\n".as_slice(), "no carrier"),
    ])
}

/// Numbers of a profile, how many carriers it has, and by how much they can be raised.
type Row = ([u32; Profile::NUMBERS], usize, Option<u32>);

const ROWS: [Row; 9] = [
    // nothing is asked
    ([500_000, 500_300, 300, 0, 0, 0, 0, 0, 0, 0], 2, Some(1_000)),
    // one carrier asks nothing of itself
    (
        [500_000, 500_300, 300, 100, 0, 50, 0, 0, 0, 0],
        1,
        Some(1_000),
    ),
    // 300 kHz between two carriers
    ([500_000, 500_300, 300, 250, 0, 0, 0, 0, 0, 0], 2, Some(50)),
    ([500_000, 500_300, 300, 300, 0, 0, 0, 0, 0, 0], 2, Some(0)),
    ([500_000, 500_300, 300, 301, 0, 0, 0, 0, 0, 0], 2, None),
    // 1,099 kHz and 1,100 kHz
    (
        [500_000, 501_099, 1_099, 100, 0, 0, 0, 0, 0, 0],
        2,
        Some(999),
    ),
    (
        [500_000, 501_100, 1_100, 100, 0, 0, 0, 0, 0, 0],
        2,
        Some(1_000),
    ),
    // three carriers evenly spaced: the margin of 0 stays, else the products would hit
    ([500_000, 500_600, 300, 100, 0, 0, 0, 0, 0, 0], 3, Some(200)),
    // four channels: the products of three carriers miss by 300 kHz at most, which the spacing lets no one use up
    ([500_000, 500_900, 300, 1, 0, 50, 0, 0, 0, 0], 3, Some(250)),
];

fn rows_are_found(alloc: Global) -> Result<(), Broken> {
    let words: [&[u8]; 3] = [b"a", b"b", b"c"];
    for (numbers, count, wanted) in ROWS {
        if count > words.len() {
            return Err(Broken("a carrier without a name"));
        }
        let show = made(alloc, numbers, &words[..count], None)?;
        let found = tried(alloc, &show)?;
        hold(&[(found == wanted, "the number that was worked out by hand")])?;
    }
    Ok(())
}

fn shows_by_chance_are_found(alloc: Global) -> Result<(), Broken> {
    let mut chance = Chance { state: 29 };
    let mut planned = 0u32;
    for _ in 0..8u32 {
        let show = some_show(alloc, &mut chance)?;
        if tried(alloc, &show)?.is_some() {
            planned = planned.saturating_add(1);
        }
    }
    hold(&[(2 <= planned, "two shows or more have a plan")])
}

/// Whether a budget is used up within a bracket. A failure where it isn't one round 50, the greatest number.
fn is_stuck(alloc: Global, show: &Show, answer: &Widest) -> Result<bool, Broken> {
    let Widest::Spent {
        extra,
        below: Some((low, plan)),
        above,
        ..
    } = answer
    else {
        return Ok(false);
    };
    keeps_at(alloc, show, *low, plan.as_slice())?;
    let high = match above {
        Some((high, _)) => *high,
        None => 1_001,
    };
    hold(&[
        (*low <= 50 && 50 < high, "a bracket round the number"),
        (
            *extra == low.saturating_add(high) / 2,
            "used up in its middle",
        ),
    ])?;
    Ok(true)
}

/// Four carriers on four channels 100 kHz apart: a plan is found with few branchings, and to refute wider shows takes more.
fn budgets_are_used_up_within(alloc: Global) -> Result<(), Broken> {
    let numbers = [500_000, 500_300, 100, 50, 0, 0, 0, 0, 0, 0];
    let show = made(alloc, numbers, &[b"a", b"b", b"c", b"d"], None)?;
    let mut stuck = 0u32;
    for budget in 0..8u32 {
        let (answer, _) = answered(alloc, &show, budget)?;
        if is_stuck(alloc, &show, &answer)? {
            stuck = stuck.saturating_add(1);
        }
    }
    hold(&[(1 <= stuck, "some budget is used up within a bracket")])
}

fn by_hand(alloc: Global) -> Result<(), Broken> {
    logs_are_judged(alloc)?;
    texts_are_whole(alloc)?;
    budgets_are_used_up_within(alloc)
}

#[test]
fn replies_of_small_shows_are_those_worked_out_by_hand(rt: HostRuntime) -> Result<(), Fail> {
    told(by_hand(rt.alloc()))
}

#[test]
fn the_greatest_widening_is_that_found_by_trying_each(rt: HostRuntime) -> Result<(), Fail> {
    told(rows_are_found(rt.alloc()))
}

#[test]
fn shows_by_chance_are_widened_as_far_as_trying_each_finds(rt: HostRuntime) -> Result<(), Fail> {
    told(shows_by_chance_are_found(rt.alloc()))
}
