//! The states that the machine reaches, and what holds of them.
//!
//! It owns what it means to reach a state from a start (`specs/Reaching.antt`), and laws over reached
//! states. It has no program code.
#![tactic(auto)]

mod laws;

pub use laws::{
    active_is_joined, all_queued_where_reached, closing_is_open, few_are_open, goes_on,
    held_where_reached, live_keep_bytes, log_grows, new_is_untold, one_for_one_where_reached,
    open_after, serials_rise, taken_is_queued, untaken_is_bounded,
};
