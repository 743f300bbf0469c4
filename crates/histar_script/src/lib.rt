//! Scripts: users, groups and numbered call lines, read from bytes.
#![tactic(auto)]

mod calls;
mod declarations;
mod fault;
mod groups;
mod items;
mod lines;
mod script;
mod script_laws;

pub use calls::{read_call, read_item};
pub use declarations::{are_distinct, are_users, has_user, is_declared_call};
pub use fault::Fault;
pub use groups::read_group;
pub use items::Item;
pub use lines::{is_plain, split_line, split_word};
pub use script::{Script, is_too_long, read_script};
pub use script_laws::{
    bad_line_is_first, comments_leave_out, each_call_has_a_form, one_reading, reading_is_grammar,
    script_or_bad_line,
};
