//! The products of a show between two frequencies.

ghost use Rattle.std.specs.Prelude.{◌≡◌, ◌++◌, ◌<◌, IfOk, OnOk, length};
ghost use Rattle.std.specs.List.{flat_map};
ghost use Rattle.rf_terms.specs.Kinds.{kinds, roles_of};
ghost use Rattle.rf_rules.specs.Instances.{ats_of};
ghost use Rattle.rf_rules.specs.Companies.{IsCompany};
ghost use Rattle.rf_rules.specs.Products.{listed, noted_of};

use crate::company::Company;
use crate::frequencies::assigned;
use crate::front::front;
use crate::lane::make_lanes;
use crate::product::{Product, Products};
use crate::search::Search;
use crate::tally::Tally;
use rf_base::{Items, Khz, NoMemory};
use rf_show::Show;
use rf_terms::{Kind, coefficients, has_victim, kinds};
use std::alloc::Global;

/// The intermodulation products from `lo` to `hi` of all kinds that have a victim, over assigned sources that hear each
/// other in a common minute, whatever the margins; by value, then by kind in the order of the rule table, then by sources.
pub fn products(alloc: Global, show: &Show, lo: Khz, hi: Khz) -> Result<Products, NoMemory>
    ensures { IfOk result (λ r. r ≡ listed show.now lo hi) }
{
    let ats = assigned(show);
    let ats = &ats[..show.carriers().len()];
    let company = Company::of(alloc, show)?;
    let mut found = Vec::new(alloc);
    add_products(&company, ats, lo, hi, &mut found)?;
    let mut shown = front(alloc, lo, hi, &found)?;
    shown.truncate(Tally::MAX_SHOWN);
    Ok(Products {
        shown: Items::from_vec(shown),
        total: found.len() as u64,
    })
}

/// Adds the products from `lo` to `hi` of all kinds that have a victim.
fn add_products(
    company: &Company,
    ats: &[Option<Khz>],
    lo: Khz,
    hi: Khz,
    found: &mut Vec<Product>,
) -> Result<(), NoMemory>
    requires known { IsCompany company.now }
    requires carriers { length ats.now ≡ length company.now.show.now.carriers }
    ensures { OnOk result (found.new.items ≡ found.old.items ++ flat_map (noted_of company.now.show.now ats.now lo hi) kinds) }
{
    for kind in kinds() {
        add_kind(company, ats, *kind, lo, hi, found)?;
    }
    Ok(())
}

/// Adds the products from `lo` to `hi` of a kind, if it has a victim.
fn add_kind(
    company: &Company,
    ats: &[Option<Khz>],
    kind: Kind,
    lo: Khz,
    hi: Khz,
    found: &mut Vec<Product>,
) -> Result<(), NoMemory>
    requires known { IsCompany company.now }
    requires carriers { length ats.now ≡ length company.now.show.now.carriers }
    ensures { OnOk result (found.new.items ≡ found.old.items ++ noted_of company.now.show.now ats.now lo hi kind) }
{
    if !has_victim(kind) {
        return Ok(());
    }
    let show = company.show;
    let lanes = make_lanes(show, ats, kind);
    let search = Search {
        show,
        ats,
        kind,
        coefficients: coefficients(kind),
        lanes: &lanes[..ats.len()],
    };
    search.sources(company, [0; 4], 0, 0, lo, hi, found)
}
