//! An analysis, from that of an earlier show.

ghost use Rattle.std.specs.Prelude.{◌≡◌, ◌≤◌, IfOk, OnOk, filter, length};
ghost use Rattle.std.specs.List.{flat_map};
ghost use Rattle.rf_terms.specs.Kinds.{kinds};
ghost use Rattle.rf_zones.specs.Masks.{has_bit};
ghost use Rattle.rf_show.specs.Show.{ShowData};
ghost use Rattle.rf_rules.specs.Analyses.{analysed, analysis, banned_carriers, off_grid};
ghost use Rattle.rf_rules.specs.Companies.{IsCompany};
ghost use Rattle.rf_rules.specs.Instances.{ats_of};
ghost use Rattle.rf_rules.specs.Renewed as renewed;
ghost use Rattle.rf_rules.specs.Renewed.{Agrees, renewed_of};
ghost use Rattle.rf_rules.specs.Tallies.{Extends};
ghost use Rattle.rf_rules.specs.Touched as touched;

use crate::analysis::{Analysis, add_carriers, analyse_counted};
use crate::company::Company;
use crate::conflict::Conflict;
use crate::frequencies::assigned;
use crate::merged::{add_merged, roles_in};
use crate::tally::Tally;
use crate::touched::add_touched;
use rf_base::{Items, Khz, NoMemory};
use rf_show::Show;
use rf_terms::{Kind, kinds};
use rf_zones::Mask;
use std::alloc::Global;

// How many bits a mask has.
const WIDTH: usize = 128;

/// The analysis of a show, from that of an earlier one that agrees with it on the carriers that are not in `changed`: what
/// has none of these stays, and what has one is found anew. Where more was found than is shown, all is found anew. The products
/// whose values are computed are counted.
pub fn renew(
    alloc: Global,
    show: &Show,
    changed: Mask,
    before: &Analysis,
    evaluated: &mut u64,
) -> Result<Analysis, NoMemory>
    ensures value { (old : ShowData) → before.now ≡ analysed old → Agrees changed old show.now → IfOk result (λ a. a ≡ analysed show.now) }
    ensures rises { evaluated.old ≤ evaluated.new }
{
    if before.total > Tally::MAX_SHOWN as u64 {
        return analyse_counted(alloc, show, evaluated);
    }
    renew_from(alloc, show, changed, before.shown.as_slice(), evaluated)
}

/// The same from all conflicts of the earlier show.
fn renew_from(
    alloc: Global,
    show: &Show,
    changed: Mask,
    before: &[Conflict],
    evaluated: &mut u64,
) -> Result<Analysis, NoMemory>
    ensures value { IfOk result (λ a. renewed.renewed changed before.now show.now ≡ analysis show.now → a ≡ analysed show.now) }
    ensures rises { evaluated.old ≤ evaluated.new }
{
    let ats = assigned(show);
    let ats = &ats[..show.carriers().len()];
    let mut tally = Tally::new(alloc);
    add_carriers(show, ats, &mut tally)?;
    let company = Company::of(alloc, show)?;
    add_kinds(alloc, &company, ats, changed, before, &mut tally)?;
    *evaluated = evaluated.saturating_add(tally.evaluated);
    Ok(Analysis {
        shown: Items::from_vec(tally.shown),
        total: tally.total,
    })
}

fn add_kinds(
    alloc: Global,
    company: &Company,
    ats: &[Option<Khz>],
    mask: Mask,
    before: &[Conflict],
    tally: &mut Tally,
) -> Result<(), NoMemory>
    requires known { IsCompany company.now }
    requires carriers { ats.now ≡ ats_of company.now.show.now }
    ensures { OnOk result (Extends tally.old tally.new (flat_map (renewed_of mask before.now company.now.show.now) kinds)) }
{
    for kind in kinds() {
        add_renewed(alloc, company, ats, *kind, mask, before, tally)?;
    }
    Ok(())
}

/// Adds the broken instances of a kind: those of before that have no carrier of the mask, and those of now that have one.
fn add_renewed(
    alloc: Global,
    company: &Company,
    ats: &[Option<Khz>],
    kind: Kind,
    mask: Mask,
    before: &[Conflict],
    tally: &mut Tally,
) -> Result<(), NoMemory>
    requires known { IsCompany company.now }
    requires carriers { ats.now ≡ ats_of company.now.show.now }
    ensures { OnOk result (Extends tally.old tally.new (renewed_of mask before.now company.now.show.now kind)) }
{
    let kept = kept_of(alloc, kind, mask, before)?;
    let mut found = Tally::new(alloc);
    add_touched(alloc, company, ats, kind, mask, &mut found)?;
    tally.count_products(found.evaluated);
    add_merged(kind, kept.as_slice(), &found, tally)?;
    Ok(())
}

/// The broken instances of a kind that have no carrier of the mask.
fn kept_of(
    alloc: Global,
    kind: Kind,
    mask: Mask,
    before: &[Conflict],
) -> Result<Vec<Conflict>, NoMemory>
    ensures { IfOk result (λ kept. kept.items ≡ filter (renewed.is_kept kind mask) before.now) }
{
    let mut kept = Vec::new(alloc);
    for conflict in before {
        if is_kept(kind, mask, conflict) {
            kept.push(*conflict)?;
        }
    }
    Ok(kept)
}

fn is_kept(kind: Kind, mask: Mask, conflict: &Conflict) -> bool
    ensures { result ≡ renewed.is_kept kind mask conflict.now }
{
    is_of(kind, conflict) && !has_changed(kind, mask, conflict)
}

/// A conflict that is a broken instance of a kind has a carrier of the mask.
fn has_changed(kind: Kind, mask: Mask, conflict: &Conflict) -> bool
    ensures { result ≡ touched.meets mask (renewed.roles_in kind conflict.now) }
{
    let (roles, many) = roles_in(kind, conflict);
    meets(mask, &roles[..many])
}

fn is_of(kind: Kind, conflict: &Conflict) -> bool
    ensures { result ≡ renewed.is_of kind conflict.now }
{
    match *conflict {
        Conflict::Spacing { .. } => number_of(kind) == 0,
        Conflict::Product { kind: other, .. } => number_of(kind) == number_of(other),
        _ => false,
    }
}

fn number_of(kind: Kind) -> usize
    ensures { result ≡ renewed.number_of kind }
{
    match kind {
        Kind::Spacing => 0,
        Kind::T3Two => 1,
        Kind::T3Three => 2,
        Kind::T5Two => 3,
        Kind::T5ThreeA => 4,
        Kind::T5ThreeB => 5,
        Kind::T7Two => 6,
    }
}

fn meets(mask: Mask, t: &[usize]) -> bool
    ensures { result ≡ touched.meets mask t.now }
{
    t.iter().any(|c| is_in(mask, *c))
}

#[tactic(auto, unfolding(rf_zones::specs::Masks::has_bit))]
fn is_in(mask: Mask, carrier: usize) -> bool
    ensures { result ≡ has_bit mask carrier }
{
    if carrier >= WIDTH {
        return false;
    }
    mask >> carrier & 1 == 1
}
