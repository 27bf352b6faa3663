use sr_base::Seq;
use sr_survey_places::Key;

/// What a survey keeps of a user who had a subscription started.
#[derive(Drop)]
pub struct Office {
    /// The keys of the subscriptions that he ever had started, each once.
    pub(crate) keys: Seq<Key>,
    /// Where the last statement on a subscription of his ends, as a stream offset.
    pub(crate) since: u64,
}
