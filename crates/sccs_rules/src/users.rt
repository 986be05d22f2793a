ghost use Rattle.std.specs.Prelude.{◌≡◌, [], ◌∷◌, ◌++◌, IfOk, OnOk, fold};
ghost use Rattle.std.specs.List.{list_any};
ghost use Rattle.sccs_base.specs.NameSets.{HasNames, names_in};
ghost use Rattle.sccs_sid.specs.SidLists.{begins};
ghost use Rattle.sccs_rules.specs.Users.{changed_users, has_lf, is_own_line, with_user, without_users};

use sccs_base::{
    Bytes, LF, Line, Memory, NameSet, SOH, Text, Words, has_name, insert_name, set_of,
};
use std::alloc::Global;
use std::collections::BTreeSet;

/// Whether LF is among bytes.
pub fn has_lf(bytes: &[u8]) -> bool
    ensures { result ≡ has_lf bytes.now }
{
    bytes.iter().any(|byte| *byte == LF)
}

// whether SOH comes first
fn begins_with_soh(bytes: &[u8]) -> bool
    ensures { result ≡ begins 1 bytes.now }
{
    match bytes.first() {
        Some(first) => *first == SOH,
        None => false,
    }
}

// whether a name can stand in a line of its own
fn is_own_line(name: &[u8]) -> bool
    ensures { result ≡ is_own_line name.now }
{
    !begins_with_soh(name) && !has_lf(name)
}

// the names of users, as a set
fn known_users(alloc: Global, users: &[Line]) -> Result<NameSet, Memory>
    ensures { IfOk result (λ set. HasNames set users.now) }
{
    let mut set = BTreeSet::new(alloc);
    for user in users {
        insert_name(&mut set, alloc, user.bytes())?;
    }
    Ok(set)
}

// puts a name behind users
fn push_user(alloc: Global, users: &mut Text, name: &[u8]) -> Result<(), Memory>
    ensures { OnOk result (users.new ≡ users.old ++ (name.now ∷ [])) }
{
    let Ok(line) = Line::new(alloc, name) else {
        return Err(Memory);
    };
    users.push(line)
}

// adds a name last, unless it is there
fn add_user(alloc: Global, known: &mut NameSet, users: &mut Text, name: &[u8]) -> Result<(), Memory>
    requires { HasNames known.old users.old }
    ensures users { OnOk result (users.new ≡ with_user users.old name.now) }
    ensures known { OnOk result (HasNames known.new users.new) }
{
    if !is_own_line(name) {
        return Ok(());
    }
    if !insert_name(known, alloc, name)? {
        return Ok(());
    }
    push_user(alloc, users, name)
}

// adds names in their order
fn add_users(alloc: Global, users: Text, names: &[Bytes]) -> Result<Text, Memory>
    ensures { IfOk result (λ after. after ≡ fold with_user users names.now) }
{
    if names.is_empty() {
        return Ok(users);
    }
    let mut known = known_users(alloc, users.items())?;
    let mut users = users;
    for name in names {
        add_user(alloc, &mut known, &mut users, name.bytes())?;
    }
    Ok(users)
}

// copies a user behind others, unless it is among names
fn keep_user(alloc: Global, kept: &mut Text, names: &NameSet, user: &Line) -> Result<(), Memory>
    ensures { OnOk result (kept.new ≡ kept.old ++ without_users (names_in names.now) (user.now ∷ [])) }
{
    if has_name(names, user.bytes()) {
        return Ok(());
    }
    push_user(alloc, kept, user.bytes())
}

// the users that are not among names
fn without_users(alloc: Global, names: &[Bytes], users: Text) -> Result<Text, Memory>
    ensures { IfOk result (λ after. after ≡ without_users names.now users) }
{
    if names.is_empty() {
        return Ok(users);
    }
    let names = set_of(alloc, names)?;
    let mut kept = Text::empty(alloc);
    for user in users.items() {
        keep_user(alloc, &mut kept, &names, user)?;
    }
    Ok(kept)
}

/// The users with names added last, each unless it is there, and then without others: POSIX, admin -a
/// and -e.
pub fn change_users(
    alloc: Global,
    users: Text,
    added: &Words,
    erased: &Words,
) -> Result<Text, Memory>
    ensures { IfOk result (λ after. after ≡ changed_users users added.now erased.now) }
{
    let users = add_users(alloc, users, added.items())?;
    without_users(alloc, erased.items(), users)
}
