//! The rules of a show looked at afresh: its conflicts, from the definitions alone.
#![tactic(auto)]

mod analysis;
mod arithmetic;
mod breaks;
mod company;
mod conflict;
mod frequencies;
mod front;
mod instance;
mod lane;
mod merged;
mod pairings;
mod plan;
mod product;
mod product_list;
mod renewed;
mod search;
mod sources;
mod tally;
mod touched;

pub use analysis::{Analysis, analyse, analyse_counted};
pub use conflict::Conflict;
pub use plan::keeps;
pub use product::{Product, Products};
pub use product_list::products;
pub use renewed::renew;
