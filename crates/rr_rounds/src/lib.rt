//! What members of a search do side by side: events, rounds, the hand-over of short clauses, and the
//! journal that joins the lines of all; and its laws, whatever the order of the events. There is no code
//! here that runs.
#![tactic(auto)]

mod laws;
mod place;

pub use laws::{
    all_fresh, events_commute, joined_derives, joined_is_hinted, joined_lists_all, joined_refutes,
    lines_are_few, order_of_events_is_free,
};
pub use place::Place;
