//! Scripts that say what they expect: the line `#= TEXT` after a call is the expected reply to that call, and
//! the line `#! PATH PROC RIGHTS` the expected rights of a process at a path there. The line
//! `#trusted PATH PROC PROC ..` claims that exactly these processes are trusted with what is at a path, and the
//! line `#never PATH WHO LETTERS`, anywhere, that somebody has a right at a path after no call of the script.
//!
//! `specs/Steps.antt` defines the steps of a text, and `specs/Checks.antt` what is written of each
//! expectation, question and claim, in the form of the Test Anything Protocol. A strict test also has a check
//! for each refusal that nobody expected. [`test_laws`] says what a test checks.
#![tactic(auto)]

mod asking;
mod checks;
mod claims;
mod faults;
mod questions;
mod running;
mod session;
mod steps;
pub mod test_laws;
mod watching;

pub use asking::Asking;
pub use checks::{Check, Made, Wanted};
pub use claims::Claim;
pub use faults::fault_sentence;
pub use questions::Question;
pub use session::{TestFile, test};
pub use steps::{Step, TestScript, read_test};
