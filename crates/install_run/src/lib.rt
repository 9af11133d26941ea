//! An installation, once what it begins with is read: it is planned, reported, and carried out in the order of
//! install_order. What boots is as before until the commit, and as is meant from then on.
#![tactic(auto)]

mod answer_laws;
mod carry;
mod install;
mod laws;
mod path;
mod plan;
mod prepare;
mod preview_answer;
mod refusal;
mod report;
mod text;
mod trial;
mod write;

pub use answer_laws::{status_is_the_models, text_is_the_models};
pub use install::install_begun;
pub use laws::{devices_outside_the_volume_stay, installations_answer_by_their_entry};
pub use preview_answer::preview;
pub use refusal::{fault_line, fault_status, say_fault, say_halt};
pub use report::Report;
pub use trial::{preview_begun, say_zone};
