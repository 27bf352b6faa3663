//! Two databases over devices in memory, and the folders that they share: what a test of the program stands on.
//!
//! It stands on sr_memsite for the devices, and runs nothing. Like the test itself it promises nothing: what it answers is compared with rows.
#![tactic(auto)]

mod calls;
mod scripts;
mod shifting;
mod standing;
mod test_sites;

pub use calls::say_mail;
pub use scripts::{CUSTOMERS_ABOVE, CUSTOMERS_BELOW, PAPERS_ABOVE, PAPERS_BELOW, papers};
pub use shifting::{Change, Shifting};
pub use standing::stand;
pub use test_sites::TestSites;
