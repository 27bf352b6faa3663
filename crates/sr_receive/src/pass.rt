//! A pass over what came from a partner.

use sr_base::{Name, Offset};
use sr_database_did::Place;
use sr_receive_gather::Report;
use sr_site::Site;

/// How far a pass has come: what was received, how many transactions were taken, and where in the list of reports those of ops end.
#[derive(Clone, Copy)]
pub(crate) struct Progress {
    pub received: Offset,
    pub took: u64,
    pub told: usize,
}

/// A pass: the database on its site, the partner, what is reported, and how far it has come.
#[derive(Drop)]
pub(crate) struct Pass<'d, 's, 'p, 'r, S: Site> {
    pub place: Place<'d, 's, S>,
    pub user: &'p Name,
    pub reports: &'r mut Vec<Report>,
    pub progress: Progress,
}
