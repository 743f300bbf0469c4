//! The raw calls by which threads make categories, learn and change their own labels, and make threads.
#![tactic(auto)]

mod threads;

pub use threads::{
    check_own_label, make_category, make_thread, own_label, set_clearance, set_label,
};
