//! The show: its profiles, zones, carriers, bans and scans; its edits, each with what leads back.
#![tactic(auto)]

mod admit;
mod carrier;
mod carrier_steps;
mod case_law;
mod change;
mod company;
mod copies;
mod edit;
mod exclusion_steps;
mod exclusions;
mod find;
mod frequencies;
mod profile_steps;
mod query;
mod raise;
mod refusal;
mod room;
mod show;
mod together;
mod undo;
mod zone_change;

pub use carrier::Carrier;
pub use case_law::case_is_asked;
pub use change::Change;
pub use company::meeting_is_mutual;
pub use edit::Edit;
pub use refusal::Refusal;
pub use room::Room;
pub use show::Show;
pub use undo::{Step, Undo};
pub use zone_change::ZoneChange;
