//! A show with its history.
#![tactic(auto)]

mod analysed;
mod editor;
mod walk;

pub use analysed::EditFault;
pub use editor::Editor;
pub use walk::StepFault;
