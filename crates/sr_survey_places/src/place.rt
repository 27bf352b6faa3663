/// Where an entry of a log begins and ends, as stream offsets in bytes.
#[derive(Clone, Copy)]
pub struct Place {
    pub start: u64,
    pub end: u64,
}
