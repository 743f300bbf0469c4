//! The categories of users and groups.
ghost use Rattle.std.specs.Prelude.{◌≡◌, ◌+◌, ◌*◌};
ghost use Rattle.histar_layout.specs.Categories.{read_category, write_category};

use histar_label::Category;

/// Returns the category whose level keeps others from reading the files of a user or a group.
pub fn read_category(user: u8) -> Category
    ensures { result ≡ read_category user }
{
    Category::new(2 + 2 * u64::from(user))
}

/// Returns the category whose level keeps others from writing the files of a user or a group.
pub fn write_category(user: u8) -> Category
    ensures { result ≡ write_category user }
{
    Category::new(3 + 2 * u64::from(user))
}
