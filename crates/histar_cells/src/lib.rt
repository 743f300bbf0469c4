//! What one process or one user may do at one path of a machine: the rights there, computed from the labels of the
//! kernel's own objects.
#![tactic(auto)]

mod by_class;
mod by_user;
mod cells;
mod one_path;
mod whose;

pub use by_class::{from_above, nobody, user_below};
pub use by_user::rights_of_user;
pub use cells::{Cell, visitor_at};
pub use one_path::rights_of;
pub use whose::user_of_process;
