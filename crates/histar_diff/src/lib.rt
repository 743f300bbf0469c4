//! What changed between two tables of rights: the processes or users that one alone has, and the
//! paths and processes or users of both whose letters differ.
#![tactic(auto)]

mod columns;
pub mod diff_laws;
mod differences;
mod gains;
mod lines;
mod lone;
mod table;
mod texts;
mod user_differences;
mod user_texts;
mod users;

pub use differences::{Difference, Differences, differences_between};
pub use gains::{keep_gains, keep_user_gains};
pub use lone::Lone;
pub use table::{Runner, Table, TableLine};
pub use texts::text_of;
pub use user_differences::{UserDifference, UserDifferences, user_differences_between};
pub use user_texts::users_text_of;
pub use users::{LoneUser, UsersTable};
