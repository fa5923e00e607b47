//! The analysis of a show, made afresh: conflicts in their order, and how many there are.

ghost use Rattle.std.specs.Prelude.{◌≡◌, ◌<◌, ◌≤◌, ◌++◌, OnOk, IfOk, length};
ghost use Rattle.std.specs.List.{flat_map};
ghost use Rattle.rf_terms.specs.Kinds.{kinds};
ghost use Rattle.rf_rules.specs.Instances.{ats_of};
ghost use Rattle.rf_rules.specs.Analyses as analyses;
ghost use Rattle.rf_rules.specs.Analyses.{analysed, analysis, banned_carriers, conflicts_of, off_grid};
ghost use Rattle.rf_rules.specs.Companies.{IsCompany};
ghost use Rattle.rf_rules.specs.Tallies.{Extends};

use crate::company::Company;
use crate::conflict::Conflict;
use crate::frequencies::{assigned, at};
use crate::lane::{ask_nothing, make_lanes};
use crate::pairings::Pairings;
use crate::search::Search;
use crate::tally::Tally;
use rf_base::{Items, Khz, NoMemory};
use rf_show::Show;
use rf_terms::{Kind, coefficients, kinds};
use std::alloc::Global;

/// What is reported of a show: the first 10,000 of its conflicts, and how many it has.
///
/// The conflicts are the assigned carriers that are off their grid, in the order of the show; the assigned carriers whose
/// frequency is banned for them, in that order; then, for each kind in the order of the rule table, its broken instances
/// over assigned carriers, by the carrier of the first role, then by that of the second, and so on.
#[derive(Drop)]
pub struct Analysis {
    pub shown: Items<Conflict>,
    pub total: u64,
}

/// Analyses a show afresh.
pub fn analyse(alloc: Global, show: &Show) -> Result<Analysis, NoMemory>
    ensures { IfOk result (λ a. a ≡ analysed show.now) }
{
    let mut evaluated = 0;
    analyse_counted(alloc, show, &mut evaluated)
}

/// Analyses a show afresh, and counts the products whose values are computed.
pub fn analyse_counted(
    alloc: Global,
    show: &Show,
    evaluated: &mut u64,
) -> Result<Analysis, NoMemory>
    ensures value { IfOk result (λ a. a ≡ analysed show.now) }
    ensures rises { evaluated.old ≤ evaluated.new }
{
    let ats = assigned(show);
    let ats = &ats[..show.carriers().len()];
    let mut tally = Tally::new(alloc);
    add_carriers(show, ats, &mut tally)?;
    let company = Company::of(alloc, show)?;
    add_broken(alloc, &company, ats, &mut tally)?;
    *evaluated = evaluated.saturating_add(tally.evaluated);
    Ok(Analysis {
        shown: Items::from_vec(tally.shown),
        total: tally.total,
    })
}

/// Adds the assigned carriers that are off their grid, and those whose frequency is banned.
pub fn add_carriers(show: &Show, ats: &[Option<Khz>], tally: &mut Tally) -> Result<(), NoMemory>
    requires { ats.now ≡ ats_of show.now }
    ensures { OnOk result (Extends tally.old tally.new (off_grid show.now ++ banned_carriers show.now)) }
{
    add_off_grid(show, ats, tally)?;
    add_banned(show, ats, tally)?;
    Ok(())
}

/// Adds the assigned carriers that are off their grid.
fn add_off_grid(show: &Show, ats: &[Option<Khz>], tally: &mut Tally) -> Result<(), NoMemory>
    requires { ats.now ≡ ats_of show.now }
    ensures { OnOk result (Extends tally.old tally.new (off_grid show.now)) }
{
    for carrier in 0..ats.len() {
        if !is_off_grid(show, carrier, at(ats, carrier)) {
            continue;
        }
        tally.add(Conflict::OffGrid { carrier })?;
    }
    Ok(())
}

fn is_off_grid(show: &Show, carrier: usize, at: Option<Khz>) -> bool
    requires { carrier < length show.now.carriers }
    ensures { result ≡ analyses.is_off_grid show.now carrier at }
{
    match at {
        Some(khz) => !show.has_channel(carrier, khz),
        None => false,
    }
}

/// Adds the assigned carriers whose frequency is banned.
fn add_banned(show: &Show, ats: &[Option<Khz>], tally: &mut Tally) -> Result<(), NoMemory>
    requires { ats.now ≡ ats_of show.now }
    ensures { OnOk result (Extends tally.old tally.new (banned_carriers show.now)) }
{
    for carrier in 0..ats.len() {
        if !stands_banned(show, carrier, at(ats, carrier)) {
            continue;
        }
        tally.add(Conflict::Banned { carrier })?;
    }
    Ok(())
}

fn stands_banned(show: &Show, carrier: usize, at: Option<Khz>) -> bool
    requires { carrier < length show.now.carriers }
    ensures { result ≡ analyses.stands_banned show.now carrier at }
{
    match at {
        Some(khz) => show.banned(carrier, khz),
        None => false,
    }
}

/// Adds the broken instances of all kinds.
fn add_broken(
    alloc: Global,
    company: &Company,
    ats: &[Option<Khz>],
    tally: &mut Tally,
) -> Result<(), NoMemory>
    requires known { IsCompany company.now }
    requires carriers { ats.now ≡ ats_of company.now.show.now }
    ensures { OnOk result (Extends tally.old tally.new (flat_map (conflicts_of company.now.show.now ats.now) kinds)) }
{
    for kind in kinds() {
        add_kind(alloc, company, ats, *kind, tally)?;
    }
    Ok(())
}

/// Adds the broken instances of a kind.
fn add_kind(
    alloc: Global,
    company: &Company,
    ats: &[Option<Khz>],
    kind: Kind,
    tally: &mut Tally,
) -> Result<(), NoMemory>
    requires known { IsCompany company.now }
    requires carriers { length ats.now ≡ length company.now.show.now.carriers }
    ensures { OnOk result (Extends tally.old tally.new (conflicts_of company.now.show.now ats.now kind)) }
{
    let show = company.show;
    let lanes = make_lanes(show, ats, kind);
    let lanes = &lanes[..ats.len()];
    if ask_nothing(lanes) {
        return Ok(());
    }
    let search = Search {
        show,
        ats,
        kind,
        coefficients: coefficients(kind),
        lanes,
    };
    let pairings = Pairings::of(alloc, &search)?;
    search.extend(company, &pairings, [0; 4], 0, 0, tally)
}
