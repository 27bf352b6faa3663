use crate::chart::Chart;
use crate::given_up::GivenUp;
use crate::office::Office;
use sr_base::Name;
use sr_survey_places::Listings;
use std::collections::BTreeMap;

/// What of a log concerns whom: its entries from an offset on, listed under few keys each, and the catalog behind them.
#[derive(Drop)]
pub struct Survey {
    /// The catalog behind the entries that it took.
    pub(crate) catalog: Chart,
    /// Where it began, as a stream offset.
    pub(crate) begin: u64,
    /// Where the last entry ends that it took.
    pub(crate) end: u64,
    pub(crate) places: Listings,
    pub(crate) offices: BTreeMap<Name, Office>,
    /// Where the last entry ends that may have changed what every user is shown.
    pub(crate) since: u64,
    /// How many places it lists at most.
    pub(crate) most: u32,
    pub(crate) given_up: Option<GivenUp>,
}
