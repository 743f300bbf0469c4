//! The bytes of files and directories in segments, and their labels.
#![tactic(auto)]

mod categories;
mod checked;
mod class;
mod directory;
mod entry;
mod jobs;
mod labels;
mod lookup;
mod owners;
mod push_entry;
mod read_entry;
mod shown;
mod span;
mod status;
mod user_table;

pub use categories::{read_category, write_category};
pub use checked::{NotADirectory, look_up_checked};
pub use class::{Chain, Class, class_label, class_of, classes_are_shown, labels_have_one_class};
pub use directory::{Dir, MOST_ENTRIES, one_directory, read_dir, write_dir};
pub use entry::Target;
pub use jobs::{is_in_job, is_three, jobs_in};
pub use labels::{guarded_by, label_made, label_of, scratch_label, set_each, user_of};
pub use lookup::look_up;
pub use owners::{group_owner, owners_among, owners_of};
pub use shown::{ShownClass, shown_class};
pub use status::{
    Child, NotAStatus, StatusHead, add_child, exit_status, find_child, first_status, read_status,
    remove_child, statuses_are_spelled,
};
pub use user_table::UserTable;
