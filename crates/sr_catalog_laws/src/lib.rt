//! What each statement makes of a catalog, what every catalog keeps that accepted statements have made of a new one, and that its script is
//! read back.
//!
//! It stands on sr_catalog_script_laws, sr_publish and sr_database_history, and has no code but the laws.
#![tactic(auto)]

mod keeping;
mod making;
mod reading;

pub use keeping::catalogs_are_sound;
pub use making::statements_make;
pub use reading::scripts_are_read_back;
