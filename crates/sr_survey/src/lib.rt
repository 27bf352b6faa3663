//! What of a log concerns whom: a survey reads each entry once, and lists it under few keys of which each user has some.
//!
//! It stands on sr_publish for the rows that articles give, on sr_scan for what an entry gives, and on sr_survey_places for places under keys. What
//! it promises is one-sided: an entry behind where it began that is not listed for a user gives him nothing. The contract that matters most is that of
//! `Survey::take` with the law `a_survey_keeps_up`: the survey of a history is one of the history with the entry more that it takes.
#![tactic(auto)]

mod chart;
mod effects;
mod entries;
mod given_up;
mod keys;
mod laws;
mod office;
mod offices;
mod routes;
mod rows;
mod survey;
mod surveying;
mod takes;
mod taking_up;

pub use given_up::GivenUp;
pub use laws::{
    a_brief_entry_is_taken_as_the_entry, a_survey_begins, a_survey_keeps_up, held_rows_have_keys,
    nothing_is_due_before_the_next, shares_stay, told_alike, unheld_gives_nothing,
    what_gives_nothing_may_be_passed_over, what_is_given_is_told_by_the_catalog_of_now,
    what_is_not_listed_gives_nothing,
};
pub use survey::Survey;
