//! How each process that is trusted with a file reveals what is in it, how each login reads it, and
//! how each changer changes what is at a path: lines of a script, with the replies that are
//! expected of them; and the titles of these lines for each secret file.
#![tactic(auto)]

mod changers;
mod changes;
mod lines;
mod output;
mod readers;
mod session;
mod titles;

pub use session::{leak, secret_titles};
