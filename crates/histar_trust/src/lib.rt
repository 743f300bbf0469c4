//! Which processes have to be trusted to keep a file secret and unchanged, for one path, and for each file
//! that not everyone may read; and to whom each process can pass on what it learns. All of it is computed
//! from a machine's own objects.
#![tactic(auto)]

mod ancestors;
mod files;
mod flow_lines;
mod members;
mod output;
mod reasons;
mod session;
pub mod trust_laws;
mod way;

pub use files::secret_paths;
pub use members::members_among;
pub use output::{is_open_way, push_head};
pub use session::{TrustOptions, flows, secrets, trust};
pub use way::{node_at, push_classes};
