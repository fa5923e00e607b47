//! Audits of logs of small shows: closures that were worked out by hand.
ghost use Rattle.std.specs.Prelude.{◌≤◌};

use crate::hold::{Broken, hold, told};
use crate::logs::log_of;
use crate::shows::{add_carrier, add_profile, change};
use rf_audit::{Audit, audit};
use rf_log::Cause;
use rf_show::{Edit, Show};
use std::alloc::Global;
use std::test::Fail;

/// What the audit of a log over a show finds.
fn found(alloc: Global, show: &Show, text: &[u8]) -> Result<Audit, Broken> {
    match log_of(alloc, text) {
        Ok(log) => Ok(audit(alloc, show, &log)?),
        Err(_) => Err(Broken("a log")),
    }
}

/// Two channels, 300 kHz apart, of which one bars both of the other carrier.
fn crowded(alloc: Global) -> Result<Show, Broken> {
    let mut show = Show::new(alloc)?;
    let numbers = [500_000, 500_300, 300, 350, 0, 0, 0, 0, 0, 0];
    add_profile(&mut show, b"Q", numbers)?;
    add_carrier(&mut show, b"a", b"Q", b"main")?;
    add_carrier(&mut show, b"b", b"Q", b"main")?;
    Ok(show)
}

fn add_ban(show: &mut Show, khz: u32) -> Result<(), Broken>
    requires low { 1 ≤ khz }
    requires high { khz ≤ 10000000 }
{
    let ban = Edit::AddBan {
        lo: khz,
        hi: khz,
        zone: None,
    };
    change(show, ban)
}

/// Five channels, of which the first and the last are banned.
fn banned_at_its_ends(alloc: Global) -> Result<Show, Broken> {
    let mut show = Show::new(alloc)?;
    let numbers = [500_000, 500_100, 25, 0, 0, 0, 0, 0, 0, 0];
    add_profile(&mut show, b"R", numbers)?;
    add_carrier(&mut show, b"a", b"R", b"main")?;
    add_ban(&mut show, 500_000)?;
    add_ban(&mut show, 500_100)?;
    Ok(show)
}

fn small_logs_are_audited(alloc: Global) -> Result<(), Broken> {
    let crowded = crowded(alloc)?;
    let banned = banned_at_its_ends(alloc)?;
    hold(&[
        (
            found(alloc, &crowded, b"")? == Audit::Honest { branchings: 0 },
            "an empty log",
        ),
        (
            found(alloc, &crowded, b"b fix a 0\nb fix b 0\n")? == Audit::Dishonest { line: 2 },
            "no channel is left to b after a's choice",
        ),
        (
            found(
                alloc,
                &crowded,
                b"b fix a 0\nn in a 0 0 ; rule spacing a b 2 0 1\nu 2\nb fix a 1\n",
            )? == Audit::Dishonest { line: 4 },
            "a has one channel left",
        ),
        (
            found(
                alloc,
                &crowded,
                b"b fix a 0\nn in a 0 0 ; rule spacing a b 2 0 1\nu 2\nn out a 0 0 ; rule spacing a b 2 0 1\nu 4\n",
            )? == Audit::Honest { branchings: 1 },
            "a tree that is closed",
        ),
        (
            found(alloc, &crowded, b"b fix a 9\nb fix a 0\nb fix b 0\n")?
                == Audit::Refused {
                    line: 1,
                    cause: Cause::Index,
                },
            "an invalid line before a dishonest one",
        ),
        (
            found(alloc, &crowded, b"b fix a 0\nb fix b 0\nu 9\n")? == Audit::Dishonest { line: 2 },
            "a dishonest line before an invalid one",
        ),
        (
            found(alloc, &banned, b"b split a 3\n")? == Audit::Dishonest { line: 1 },
            "what is right of channel 3 is banned",
        ),
        (
            found(alloc, &banned, b"b split a 2\n")? == Audit::Honest { branchings: 1 },
            "channel 3 is right of channel 2",
        ),
        (
            found(alloc, &banned, b"b split a 0\n")? == Audit::Dishonest { line: 1 },
            "what is left of channel 1 is banned",
        ),
        (
            found(alloc, &banned, b"b split a 5\n")?
                == Audit::Refused {
                    line: 1,
                    cause: Cause::Index,
                },
            "no channel 5",
        ),
    ])
}

#[test]
fn the_first_line_that_is_invalid_or_dishonest_is_told(rt: HostRuntime) -> Result<(), Fail> {
    told(small_logs_are_audited(rt.alloc()))
}
