//! Locks that block a plan. In small shows that are made as if by chance every set of the locks is tried, each with every list
//! of channels; what is told of an answer is read and judged.
ghost use Rattle.std.specs.Prelude.{◌≤◌};
ghost use Rattle.rf_search.specs.declared.limits.TheConstants.{MAX_BUDGET};

use crate::hold::{Broken, hold, told};
use crate::logs::log_of;
use crate::searches::{Chance, has_plan, lock_at, some_place, some_show};
use crate::shows::{add_carrier, add_profile, change};
use rf_base::NoMemory;
use rf_checker::check;
use rf_core::{Blocked, blocked_can_be_written, least, why_text};
use rf_decide::{Decide, Decision, Solver};
use rf_log::Verdict;
use rf_profiles::Profile;
use rf_rules::keeps;
use rf_search::MAX_BUDGET;
use rf_show::{Edit, Show};
use std::alloc::Global;
use std::test::Fail;

/// Whether each of at most four carriers is in a set.
type Set = [bool; 4];

/// A solver that counts what it is asked.
#[derive(Drop)]
struct Counted {
    solver: Solver,
    calls: usize,
}

impl Decide for Counted {
    ghost asked = { λ old show new. Unit {0} };

    fn decide(&mut self, show: &Show, budget: u32) -> Result<Decision, NoMemory> {
        self.calls = self.calls.saturating_add(1);
        self.solver.decide(show, budget)
    }
}

/// What blocks a plan, and the text of it. A failure where more shows are asked for than there are locks and one.
fn answered(alloc: Global, show: &Show, budget: u32) -> Result<(Blocked, Vec<u8>), Broken>
    requires { budget ≤ MAX_BUDGET }
{
    blocked_can_be_written();
    let mut counted = Counted {
        solver: Solver::new(alloc),
        calls: 0,
    };
    let answer = least(alloc, show, budget, &mut counted)?;
    let text = why_text(alloc, show, &answer)?;
    let mut locks = 0usize;
    for carrier in show.carriers() {
        if carrier.locked {
            locks = locks.saturating_add(1);
        }
    }
    hold(&[(
        counted.calls <= locks.saturating_add(1),
        "a call for the show, and one for each lock",
    )])?;
    Ok((answer, text))
}

// ---- sets of locks

fn set_of(number: u32) -> Set {
    [
        number % 2 == 1,
        number / 2 % 2 == 1,
        number / 4 % 2 == 1,
        number / 8 % 2 == 1,
    ]
}

fn has(set: Set, carrier: usize) -> bool {
    carrier < 4 && set[carrier]
}

fn is_part(few: Set, many: Set) -> bool {
    for i in 0..4 {
        if few[i] && !many[i] {
            return false;
        }
    }
    true
}

/// The set of a list of carriers, unless one is after the fourth.
fn set_among(list: &[u32]) -> Option<Set> {
    let mut set = [false; 4];
    for carrier in list {
        if *carrier >= 4 {
            return None;
        }
        set[*carrier as usize] = true;
    }
    Some(set)
}

/// The show where of the locked carriers only those of a set are still locked.
fn eased(alloc: Global, show: &Show, set: Set) -> Result<Show, Broken> {
    let mut copy = show.copy(alloc)?;
    let carriers = show.carriers();
    for i in 0..carriers.len() {
        if carriers[i].locked && !has(set, i) {
            let name = carriers[i].name;
            change(&mut copy, Edit::Unlock { name })?;
        }
    }
    Ok(copy)
}

/// A set with all of these locks has no plan; one with a part of them has one. Each set is tried.
fn is_least(alloc: Global, show: &Show, keep: Set) -> Result<(), Broken> {
    for number in 0..16u32 {
        let set = set_of(number);
        let planned = has_plan(&eased(alloc, show, set)?);
        if is_part(keep, set) {
            hold(&[(!planned, "no plan with all of these locks")])?;
        } else if is_part(set, keep) {
            hold(&[(planned, "a plan with fewer of these locks")])?;
        }
    }
    Ok(())
}

// ---- what is answered

/// What stands behind the last line `log` of a text.
fn last_log(text: &[u8]) -> &[u8] {
    let mut from = text.len();
    for i in 0..text.len() {
        if text[i..].starts_with(b"\nlog\n") {
            from = i;
        }
    }
    if from < text.len() && 5 <= text.len() - from {
        &text[from + 5..]
    } else {
        &text[text.len()..]
    }
}

/// The log that a text ends with refutes the show with these locks alone.
fn is_refuted(alloc: Global, show: &Show, set: Set, text: &[u8]) -> Result<(), Broken> {
    let Ok(log) = log_of(alloc, last_log(text)) else {
        return Err(Broken("a log"));
    };
    let verdict = check(alloc, &eased(alloc, show, set)?, &log)?;
    hold(&[
        (verdict == Verdict::Closed, "a log that refutes the show"),
        (text.ends_with(b"refuted\n"), "a text that says so"),
    ])
}

/// How many locks are answered; 4 and more where the budget is used up.
fn judged(alloc: Global, show: &Show, budget: u32) -> Result<usize, Broken>
    requires { budget ≤ MAX_BUDGET }
{
    let (answer, text) = answered(alloc, show, budget)?;
    match answer {
        Blocked::Plan { plan } => {
            hold(&[(keeps(show, plan.as_slice()), "a plan of the show")])?;
            Ok(0)
        }
        Blocked::Locks { keep, plans, .. } => {
            let list = keep.as_slice();
            let set = set_among(list).ok_or("four carriers")?;
            is_least(alloc, show, set)?;
            is_refuted(alloc, show, set, text.as_slice())?;
            let plans = plans.as_slice();
            hold(&[(plans.len() == list.len(), "a plan for each lock")])?;
            for i in 0..list.len().min(plans.len()) {
                let mut without = set;
                without[(list[i] % 4) as usize] = false;
                let eased = eased(alloc, show, without)?;
                hold(&[(keeps(&eased, plans[i].as_slice()), "a plan without it")])?;
            }
            Ok(list.len())
        }
        Blocked::Spent { keep, dropped, .. } => {
            let set = set_among(keep.as_slice()).ok_or("four carriers")?;
            if let Some((carrier, _)) = dropped {
                hold(&[(!has(set, carrier as usize), "a lock that isn't kept")])?;
            }
            Ok(4usize.saturating_add(keep.as_slice().len()))
        }
    }
}

// ---- shows by chance

/// A show whose carriers are locked, but perhaps one.
fn locked_show(alloc: Global, chance: &mut Chance) -> Result<Show, Broken> {
    let mut show = some_show(alloc, chance)?;
    for word in [b"b", b"c", b"d"] {
        let khz = some_place(&show, chance);
        if chance.below(4) != 0 {
            lock_at(&mut show, word, khz)?;
        }
    }
    Ok(show)
}

fn shows(alloc: Global) -> Result<(), Broken> {
    let mut chance = Chance { state: 11 };
    let mut found = [0u32; 4];
    let mut spent = 0u32;
    for _ in 0..60u32 {
        let show = locked_show(alloc, &mut chance)?;
        let count = judged(alloc, &show, MAX_BUDGET)?;
        if count < 4 {
            found[count] = found[count].saturating_add(1);
        }
        if 4 <= judged(alloc, &show, 0)? {
            spent = spent.saturating_add(1);
        }
    }
    hold(&[
        (0 < found[1], "one lock blocks a plan"),
        (0 < found[2], "two locks do"),
        (0 < spent, "a budget is used up"),
    ])
}

// ---- rows

const WIDE: [u32; Profile::NUMBERS] = [500_000, 510_000, 25, 350, 0, 100, 50, 0, 0, 0];

const NARROW: [u32; Profile::NUMBERS] = [500_000, 500_300, 300, 350, 0, 0, 0, 0, 0, 0];

/// A profile, and a carrier of it for each of these words.
fn carriers(
    alloc: Global,
    numbers: [u32; Profile::NUMBERS],
    words: &[&[u8]],
) -> Result<Show, Broken> {
    let mut show = Show::new(alloc)?;
    add_profile(&mut show, b"P", numbers)?;
    for word in words {
        add_carrier(&mut show, *word, b"P", b"main")?;
    }
    Ok(show)
}

fn contains(text: &[u8], part: &[u8]) -> bool {
    for i in 0..text.len() {
        if text[i..].starts_with(part) {
            return true;
        }
    }
    false
}

fn two_locks(alloc: Global) -> Result<(), Broken> {
    let mut show = carriers(alloc, WIDE, &[b"a".as_slice(), b"b".as_slice()])?;
    lock_at(&mut show, b"a", 500_000)?;
    lock_at(&mut show, b"b", 500_200)?;
    let text = answered(alloc, &show, 400)?.1;
    let text = text.as_slice();
    let begins = text.starts_with(b"why 2\nblocks a\nblocks b\nwithout a\nat a ");
    let ends = text.ends_with(b"\nrefuted\n");
    hold(&[
        (begins, "both locks block a plan"),
        (
            contains(text, b"\nat b 500200\nwithout b\nat a 500000\nat b "),
            "the other stays where it is",
        ),
        (contains(text, b"\nlog\nn "), "a log without branch lines"),
        (ends, "its end"),
    ])
}

fn three_of_four(alloc: Global) -> Result<(), Broken> {
    let words = [
        b"a".as_slice(),
        b"b".as_slice(),
        b"c".as_slice(),
        b"d".as_slice(),
    ];
    let mut show = carriers(alloc, WIDE, &words)?;
    lock_at(&mut show, b"a", 500_000)?;
    lock_at(&mut show, b"b", 500_400)?;
    lock_at(&mut show, b"c", 500_800)?;
    lock_at(&mut show, b"d", 505_000)?;
    let text = answered(alloc, &show, 400)?.1;
    let text = text.as_slice();
    let begins = text.starts_with(b"why 3\nblocks a\nblocks b\nblocks c\nwithout a\nat a ");
    let others = b"\nat b 500400\nat c 500800\nat d 505000\nwithout b\nat a 500000\nat b ";
    hold(&[
        (begins, "an even spacing, and one that is far off"),
        (contains(text, others), "the others stay where they are"),
    ])
}

fn one_lock(alloc: Global) -> Result<(), Broken> {
    let mut show = carriers(alloc, WIDE, &[b"a".as_slice()])?;
    lock_at(&mut show, b"a", 500_010)?;
    let text = answered(alloc, &show, 400)?.1;
    let text = text.as_slice();
    let begins = text.starts_with(b"why 1\nblocks a\nwithout a\nat a 50");
    hold(&[
        (begins, "it stands on no channel"),
        (text.ends_with(b"\nrefuted\n"), "its end"),
    ])
}

fn no_lock(alloc: Global) -> Result<(), Broken> {
    let show = carriers(alloc, NARROW, &[b"a".as_slice(), b"b".as_slice()])?;
    let refuted = answered(alloc, &show, 3)?.1;
    let spent = answered(alloc, &show, 0)?.1;
    let begins = refuted.as_slice().starts_with(b"why 0\nlog\nb ");
    let used_up = spent.as_slice() == b"keeping 0\nlog\nspent 0\n".as_slice();
    hold(&[
        (begins, "no lock is to blame"),
        (refuted.as_slice().ends_with(b"\nrefuted\n"), "its end"),
        (used_up, "no branching is allowed"),
    ])?;
    let none = Show::new(alloc)?;
    let text = answered(alloc, &none, 0)?.1;
    hold(&[(text.as_slice() == b"plan\n".as_slice(), "no carrier")])
}

fn all(alloc: Global) -> Result<(), Broken> {
    two_locks(alloc)?;
    three_of_four(alloc)?;
    one_lock(alloc)?;
    no_lock(alloc)
}

#[test]
fn the_locks_that_are_named_block_a_plan(rt: HostRuntime) -> Result<(), Fail> {
    told(all(rt.alloc()))
}

#[test]
fn every_set_of_the_locks_of_small_shows_is_tried(rt: HostRuntime) -> Result<(), Fail> {
    told(shows(rt.alloc()))
}
