//! Claims that somebody never has a right: `#never PATH WHO LETTERS` on a line of a script. `WHO`
//! is a process, a user, or everyone but some users, and the claim is that after no call of the
//! script one of these has one of the letters at the path.
//!
//! `specs/Claims.antt` defines the claim in a text, `specs/Faults.antt` the rules that it has to
//! keep, and `specs/Breaches.antt` what breaks it. [`never_laws`] says what a claim that is never
//! broken means.
#![tactic(auto)]

mod breaches;
mod changing;
mod claims;
mod faults;
mod letters;
mod machines;
pub mod never_laws;
mod whom;
mod words;

pub use breaches::{Breach, Holder, LateBreach, breach_text};
pub use changing::{is_question, may_change};
pub use claims::{Never, read_never};
pub use faults::{PATH, never_sentence};
pub use machines::breach_on;
pub use whom::{Excepted, Whom};
pub use words::split_at_spaces;
