ghost use Rattle.std.specs.Prelude.{◌≡◌};
ghost use Rattle.std.specs.List.{list_all, list_any};
ghost use Rattle.sccs_flags.specs.Logins.{admits, denies, is_allowed, is_denial};

use sccs_base::{Line, Login};
use sccs_history::Header;

// whether a line keeps a name out
fn is_denial(user: &[u8]) -> bool
    ensures { result ≡ is_denial user.now }
{
    matches!(user, [b'!', ..])
}

// whether a line keeps the login out
fn denies(login: &[u8], user: &[u8]) -> bool
    ensures { result ≡ denies login.now user.now }
{
    match user {
        [b'!', name @ ..] => name == login,
        _ => false,
    }
}

// whether a line lets the login in
fn admits(login: &[u8], user: &[u8]) -> bool
    ensures { result ≡ admits login.now user.now }
{
    !is_denial(user) && user == login
}

// whether some line keeps the login out
fn is_denied(users: &[Line], login: &[u8]) -> bool
    ensures { result ≡ list_any (denies login.now) users.now }
{
    users.iter().any(|user| denies(login, user.bytes()))
}

// whether no line names anyone who is let in
fn names_none(users: &[Line]) -> bool
    ensures { result ≡ list_all is_denial users.now }
{
    users.iter().all(|user| is_denial(user.bytes()))
}

// whether some line lets the login in
fn is_admitted(users: &[Line], login: &[u8]) -> bool
    ensures { result ≡ list_any (admits login.now) users.now }
{
    users.iter().any(|user| admits(login, user.bytes()))
}

/// Whether a login may make deltas: no line of the users keeps it out, and the list of the other
/// names is empty or holds it. A line that begins with `!` keeps its name out; the number of a group
/// lets in only a login that is spelled so. sccsfile(4), "User names"; POSIX, admin -a.
pub fn is_allowed(header: &Header, login: &Login) -> bool
    ensures { result ≡ is_allowed header.now.users login.now }
{
    let (users, login) = (header.users.items(), login.bytes());
    !is_denied(users, login) && (names_none(users) || is_admitted(users, login))
}
