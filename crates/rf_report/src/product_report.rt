//! The reply to `products`.
ghost use Rattle.std.specs.Prelude.{◌≡◌, ◌++◌, IfOk, OnOk, string_bytes};
ghost use Rattle.std.specs.List.{flat_map};
ghost use Rattle.rf_report.specs.Reports as spec;

use crate::line::write_product;
use rf_base::NoMemory;
use rf_rules::{Product, Products};
use rf_show::{Carrier, Show};
use std::alloc::Global;

/// The reply to `products`: a line for each shown product, then how many there are. The carriers of the products are
/// places in the show; one past its end has an empty name.
pub fn products_text(alloc: Global, show: &Show, products: &Products) -> Result<Vec<u8>, NoMemory>
    ensures { IfOk result (λ text. text.items ≡ spec.products_text_of show.now.carriers products.now) }
{
    let mut text = String::new(alloc);
    write_lines(&mut text, show.carriers(), products.shown.as_slice())?;
    let total = products.total;
    writeln!(text, "products {total}")?;
    Ok(text.into_bytes())
}

fn write_lines(
    text: &mut String,
    carriers: &[Carrier],
    products: &[Product],
) -> Result<(), NoMemory>
    ensures { OnOk result (string_bytes text.new ≡ string_bytes text.old ++ flat_map (spec.product_line carriers.now) products.now) }
{
    for product in products {
        write_line(text, carriers, product)?;
    }
    Ok(())
}

#[tactic(auto, using(crate::proofs::LineLemmas::pieces), unfolding(crate::specs::Reports::product_line))]
fn write_line(text: &mut String, carriers: &[Carrier], product: &Product) -> Result<(), NoMemory>
    ensures { OnOk result (string_bytes text.new ≡ string_bytes text.old ++ spec.product_line carriers.now product.now) }
{
    let value = product.value;
    write!(text, "product {value} ")?;
    write_product(text, carriers, product.kind, &product.sources)?;
    writeln!(text)?;
    Ok(())
}
