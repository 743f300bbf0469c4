//! Differences that give more.
ghost use Rattle.std.specs.Prelude.{◌≡◌};
ghost use Rattle.histar_diff.specs.Gains.{gains, gives_more as gives_a_letter_more, new_ones};
ghost use Rattle.histar_diff.specs.Gains.{new_users, user_gains};

use crate::differences::{Differences, letters};
use crate::user_differences::UserDifferences;
use histar_rights::Rights;

/// Keeps the processes that run in the new table only, and the differences in which it gives a letter that
/// the old table doesn't.
pub fn keep_gains(differences: &mut Differences)
    ensures lone { differences.new.lone.items ≡ new_ones differences.old.lone.items }
    ensures pairs { differences.new.pairs.items ≡ gains differences.old.pairs.items }
{
    differences.lone.retain(|process| process.is_new);
    differences.pairs.retain(|pair| gives_more(letters(pair.before), letters(pair.after)));
}

/// Keeps the users of the new table only, and the differences in which it gives a letter that the
/// old table doesn't.
pub fn keep_user_gains(differences: &mut UserDifferences)
    ensures lone { differences.new.lone.items ≡ new_users differences.old.lone.items }
    ensures pairs { differences.new.pairs.items ≡ user_gains differences.old.pairs.items }
{
    differences.lone.retain(|user| user.is_new);
    differences.pairs.retain(|pair| gives_more(letters(pair.before), letters(pair.after)));
}

/// Checks whether the new rights have a letter that the old ones lack.
fn gives_more(old: Rights, new: Rights) -> bool
    ensures { result ≡ gives_a_letter_more old new }
{
    (new.stat && !old.stat)
        || (new.read && !old.read)
        || (new.write && !old.write)
        || (new.remove && !old.remove)
}
