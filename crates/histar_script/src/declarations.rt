//! Checks of names and modes against the users and groups declared so far.
ghost use Rattle.std.specs.Prelude.{◌≡◌};
ghost use Rattle.histar_flat.specs.Accounts.{has as list_has, is_declared_mode as declared_mode};
ghost use Rattle.histar_script.specs.Script.{is_declared_call as declared_call};
ghost use Rattle.histar_script.specs.Reading.{has_user as user_known, are_users as users_named, are_distinct as distinct, is_new_name as new_name};

use histar_flat::{Accounts, Mode, Name, UnixCall, User};

/// Returns whether a user has this name.
pub fn has_user(users: &[User], name: Name) -> bool
    ensures { result ≡ user_known users.now name }
{
    users.iter().any(|user| user.name == name)
}

/// Returns whether no user and no group has this name.
pub fn is_new_name(accounts: &Accounts, name: Name) -> bool
    ensures { result ≡ new_name accounts.now name }
{
    !has_user(accounts.users(), name) && !accounts.has_group(name)
}

/// Returns whether each name is a user's.
pub fn are_users(users: &[User], names: &[Name]) -> bool
    ensures { result ≡ users_named users.now names.now }
{
    names.iter().all(|name| has_user(users, *name))
}

/// Returns whether no name occurs twice.
pub fn are_distinct(names: &[Name]) -> bool
    ensures { result ≡ distinct names.now }
{
    let mut rest = names;
    while let [first, others @ ..] = rest {
        if has(others, *first) {
            return false;
        }
        rest = others;
    }
    true
}

fn has(names: &[Name], name: Name) -> bool
    ensures { result ≡ list_has names.now name }
{
    names.iter().any(|other| name == *other)
}

/// Returns whether the group of the mode that a call names is declared; other modes and calls always pass.
pub fn is_declared_call(accounts: &Accounts, call: &UnixCall) -> bool
    ensures { result ≡ declared_call accounts.now call.now }
{
    match call {
        UnixCall::Create(_, mode) | UnixCall::Mkdir(_, mode) => is_declared_mode(accounts, *mode),
        _ => true,
    }
}

fn is_declared_mode(accounts: &Accounts, mode: Mode) -> bool
    ensures { result ≡ declared_mode accounts.now mode }
{
    match mode {
        Mode::Group(name) => accounts.has_group(name),
        _ => true,
    }
}
