//! Lists of channels that are plans, and such that aren't.
use crate::hold::{Broken, hold, told};
use crate::shows::{change, evenly_spaced, in_turns};
use rf_rules::keeps;
use rf_show::Edit;
use std::alloc::Global;
use std::test::Fail;

fn free(alloc: Global) -> Result<(), Broken> {
    let show = evenly_spaced(alloc)?;
    hold(&[
        (keeps(&show, &[0, 16, 36]), "no product hits"),
        (!keeps(&show, &[0, 16, 32]), "an even spacing"),
        (!keeps(&show, &[0, 16]), "a channel too few"),
        (!keeps(&show, &[0, 16, 401]), "no such channel"),
    ])
}

fn banned(alloc: Global) -> Result<(), Broken> {
    let mut show = evenly_spaced(alloc)?;
    let edit = Edit::AddBan {
        lo: 500_400,
        hi: 500_500,
        zone: None,
    };
    change(&mut show, edit)?;
    hold(&[
        (!keeps(&show, &[0, 16, 36]), "a channel that is banned"),
        (keeps(&show, &[0, 60, 200]), "channels beside the ban"),
    ])
}

fn apart(alloc: Global) -> Result<(), Broken> {
    let show = in_turns(alloc)?;
    hold(&[(keeps(&show, &[0, 16, 32]), "three that share no minute")])
}

fn all(alloc: Global) -> Result<(), Broken> {
    free(alloc)?;
    banned(alloc)?;
    apart(alloc)
}

#[test]
fn plans_keep_every_rule(rt: HostRuntime) -> Result<(), Fail> {
    told(all(rt.alloc()))
}
