//! Words, calls and replies of the Unix library, as a user of it writes and reads them.
//!
//! What calls mean is defined in `specs/Meaning.antt`, by the rules of `specs/CallRules.antt`. [`rule_laws`]
//! says what every rule keeps to, and [`flat_laws`] what follows from the meaning.
#![tactic(auto)]

mod accounts;
mod calls;
pub mod flat_laws;
mod groups;
mod names;
mod owned_paths;
mod paths;
mod processes;
mod readers;
mod replies;
pub mod rule_laws;
mod suffix;
mod words;

pub use accounts::Accounts;
pub use calls::{CallLine, Mode, UnixCall, User, each_call_is_right};
pub use groups::Group;
pub use names::{Name, Password};
pub use owned_paths::{OwnedPath, read_owned_path};
pub use paths::Path;
pub use processes::{MOST_NUMBERS, ProcName};
pub use readers::{
    is_name, read_mode, read_name, read_number, read_password, read_path, read_process,
    read_status, read_user_name, split_at_first,
};
pub use replies::{Errno, FileMode, Listing, Reply, Stat};
