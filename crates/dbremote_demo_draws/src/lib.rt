//! What the demonstration draws and counts: statements, lost messages, what became of what was taken, and how far two databases differ; and what its
//! four databases and the mail between them come to.
//!
//! Nothing runs here: the demonstration's runs are made of it by the crate above. The contracts that matter most are that of `differing`, at how
//! many keys what a view shows of the rows above is not what is held below, and that of `summed`: each number is the count of a history for which
//! the files stand, or of the mail.
#![tactic(auto)]

mod agreeing;
mod counting;
mod demo_site;
mod demo_sites;
mod drawing;
mod draws;
mod keys;
mod losing;
mod parts;
mod reading;
mod statements;
mod summary;
mod sums;

pub use agreeing::{count_rows, differing};
pub use counting::{Outcomes, outcomes_of};
pub use demo_site::{DemoSite, name_in};
pub use demo_sites::DemoSites;
pub use drawing::{Scripts, scripts_of};
pub use draws::Draws;
pub use keys::Keys;
pub use losing::lose_some;
pub use parts::summed;
pub use statements::{Drawn, DrawnStatement};
pub use summary::{Part, Parts, Summary, lines_of};
pub use sums::{sum, sum_of_four};
