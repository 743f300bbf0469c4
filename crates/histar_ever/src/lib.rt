//! Who could ever do what in a run: for each path that was there and each process that ran, or each user, the rights
//! that the process or the user had at the path before some line or after the last one.
#![tactic(auto)]

mod by_users;
mod ever;
pub mod ever_laws;
mod following;
mod gather;
mod gathering;
mod member;
mod session;
mod texts;
mod users_texts;

pub use session::{access_ever, access_users_ever};
