//! Raw sessions with explanations: the output of `run_raw_script` of `histar_raw_session`, and after it the
//! reasons of each denial.
#![tactic(auto)]

mod act_texts;
mod lines;
mod party_texts;
mod session;
mod wording;

pub use lines::push_explanation;
pub use session::explain_raw_script;
pub use wording::{ByNumber, Wording};
