//! Reads the file of users.

ghost use Rattle.std.specs.Prelude.{◌≡◌, ◌≤◌, ◌&&◌, nat_le, ◌∷◌, [], IfOk, length, option_map, option_and_then, codes};
ghost use Rattle.std.specs.List.{list_any, list_all};
ghost use Rattle.toml.specs.Data.{as_table, as_str};
ghost use Rattle.toml.specs.View.{table_view, items_view, array_view, view};
ghost use Rattle.net_types.specs.Names.{is_name_byte};
ghost use Rattle.toml_fields.specs.Tables.{rows_from, first_repeat};
ghost use Rattle.toml_fields.specs.Document.{Answers, then_form};
ghost use Rattle.user_file.specs.Users.{is_token, token_at, says, is_word, is_role, are_roles, count_of, at_most_once, fit, if_fit, roles_at, has_role, user_in, tables_of, is_same_user, with_names, users_of_top, users_of};

use desk_tables::User;
use net_types::{FormRefusal, List, NoMemory, Text};
use std::alloc::Global;
use toml::{Table, Value};
use toml_fields::{array_at, document, has_only, host_at, tables_at, text_at};

/// The most users that a file may have.
const MOST_USERS: usize = 256;

fn is_printed(byte: u8) -> bool
    ensures { result ≡ is_name_byte byte }
{
    33 <= byte && byte <= 126
}

fn are_printed(text: &[u8]) -> bool
    ensures { result ≡ list_all is_name_byte text.now }
{
    text.iter().all(|byte| is_printed(*byte))
}

// Whether the text may be a token.
fn is_token(text: &[u8]) -> bool
    ensures { result ≡ is_token text.now }
{
    1 <= text.len() && text.len() <= 128 && are_printed(text)
}

fn token_at(table: &Table) -> Option<&str>
    ensures { option_map (λ s. s.now) result ≡ token_at (table_view table.now) }
{
    match text_at(table, "token") {
        Some(text) if is_token(text.as_bytes()) => Some(text),
        _ => None,
    }
}

// Whether the value is this word.
fn is_word(word: &str, value: &Value) -> bool
    ensures { result ≡ is_word word.now (view value.now) }
{
    match value.as_str() {
        Some(text) => text == word,
        None => false,
    }
}

fn is_role(value: &Value) -> bool
    ensures { result ≡ is_role (view value.now) }
{
    is_word("author", value) || is_word("approver", value) || is_word("admin", value)
}

fn are_roles(values: &[Value]) -> bool
    ensures { result ≡ are_roles (items_view values.now) }
{
    for value in values.iter() {
        if !is_role(value) {
            return false;
        }
    }
    true
}

// How often the word stands among the values.
fn count_of(word: &str, values: &[Value]) -> usize
    ensures value { result ≡ count_of word.now (items_view values.now) }
    ensures few { result ≤ length values.now }
{
    let mut count = 0;
    for value in values.iter() {
        if is_word(word, value) {
            count += 1;
        }
    }
    count
}

fn at_most_once(word: &str, values: &[Value]) -> bool
    ensures { result ≡ at_most_once word.now (items_view values.now) }
{
    count_of(word, values) <= 1
}

fn has_role(word: &str, values: &[Value]) -> bool
    ensures { result ≡ has_role word.now (items_view values.now) }
{
    1 <= count_of(word, values)
}

// Whether each value is a role, and none stands twice.
fn fit(values: &[Value]) -> bool
    ensures { result ≡ fit (items_view values.now) }
{
    are_roles(values)
        && at_most_once("author", values)
        && at_most_once("approver", values)
        && at_most_once("admin", values)
}

fn if_fit(values: &[Value]) -> Option<&[Value]>
    ensures { option_map (λ roles. items_view roles.now) result ≡ if_fit (items_view values.now) }
{
    if fit(values) { Some(values) } else { None }
}

fn roles_at(table: &Table) -> Option<&[Value]>
    ensures { option_map (λ roles. items_view roles.now) result ≡ roles_at (table_view table.now) }
{
    match array_at(table, "roles") {
        Some(values) => if_fit(values.as_slice()),
        None => None,
    }
}

// The user of these fields.
fn made(alloc: Global, name: &str, token: &str, roles: &[Value]) -> Result<User, NoMemory>
    ensures { IfOk result (λ user. user ≡ record { name = name.now; token = token.now; author = has_role (codes "author") (items_view roles.now); approver = has_role (codes "approver") (items_view roles.now); admin = has_role (codes "admin") (items_view roles.now) }) }
{
    Ok(User {
        name: Text::from_str(alloc, name)?,
        token: Text::from_str(alloc, token)?,
        author: has_role("author", roles),
        approver: has_role("approver", roles),
        admin: has_role("admin", roles),
    })
}

// The user of a table, where each of its fields is there, known and in range.
#[tactic(auto, unfolding(crate::specs::Users::user_in))]
fn user_in(alloc: Global, table: &Table) -> Result<Option<User>, NoMemory>
    ensures { IfOk result (λ user. user ≡ user_in (table_view table.now)) }
{
    let Some(name) = host_at(table, "name") else {
        return Ok(None);
    };
    let Some(token) = token_at(table) else {
        return Ok(None);
    };
    let Some(roles) = roles_at(table) else {
        return Ok(None);
    };
    if !has_only(table, &["name", "token", "roles"]) {
        return Ok(None);
    }
    Ok(Some(made(alloc, name, token, roles)?))
}

// The user of a value, where it is a table of one.
fn user_of(alloc: Global, value: &Value) -> Result<Option<User>, NoMemory>
    ensures { IfOk result (λ user. user ≡ option_and_then user_in (as_table (view value.now))) }
{
    match value.as_table() {
        Some(table) => user_in(alloc, table),
        None => Ok(None),
    }
}

// The users of the tables, or the place of the first that has none.
fn users(alloc: Global, tables: &[Value]) -> Result<List<User>, FormRefusal>
    ensures { Answers (rows_from user_in 1 (items_view tables.now)) result }
{
    let mut all = List::new(alloc);
    for (i, value) in tables.iter().enumerate() {
        match user_of(alloc, value)? {
            Some(user) => all.push(user)?,
            None => return Err(FormRefusal::BadField(i as u64 + 1)),
        }
    }
    Ok(all)
}

fn is_same_user(a: &User, b: &User) -> bool
    ensures { result ≡ is_same_user a.now b.now }
{
    a.name.as_bytes() == b.name.as_bytes() || a.token.as_bytes() == b.token.as_bytes()
}

fn is_among(users: &[User], user: &User) -> bool
    ensures { result ≡ list_any (λ earlier. is_same_user earlier user.now) users.now }
{
    users.iter().any(|earlier| is_same_user(earlier, user))
}

// The place of the first user that repeats the name or the token of one before it.
fn first_repeat(users: &[User]) -> Option<u64>
    ensures { result ≡ first_repeat is_same_user 1 [] users.now }
{
    for (i, user) in users.iter().enumerate() {
        if is_among(&users[..i], user) {
            return Some(i as u64 + 1);
        }
    }
    None
}

fn with_names(users: List<User>) -> Result<List<User>, FormRefusal>
    ensures { result ≡ with_names users }
{
    if let Some(place) = first_repeat(users.as_slice()) {
        return Err(FormRefusal::SameName(place));
    }
    if users.len() > MOST_USERS {
        return Err(FormRefusal::TooMany(users.len() as u64));
    }
    Ok(users)
}

// The tables of the array `user`, where the top level has nothing else.
#[tactic(auto, unfolding(crate::specs::Users::tables_of))]
fn tables_of(top: &Table) -> Option<&[Value]>
    ensures { option_map (λ tables. items_view tables.now) result ≡ tables_of (table_view top.now) }
{
    if has_only(top, &["user"]) {
        tables_at(top, "user")
    } else {
        None
    }
}

// The users of the tables of an array.
fn users_of_tables(alloc: Global, tables: &[Value]) -> Result<List<User>, FormRefusal>
    ensures { Answers (then_form (rows_from user_in 1 (items_view tables.now)) with_names) result }
{
    match users(alloc, tables) {
        Ok(all) => with_names(all),
        Err(refusal) => Err(refusal),
    }
}

// The users of a document's top level.
fn users_of_top(alloc: Global, top: &Table) -> Result<List<User>, FormRefusal>
    ensures { Answers (users_of_top (table_view top.now)) result }
{
    match tables_of(top) {
        Some(tables) => users_of_tables(alloc, tables),
        None => Err(FormRefusal::BadField(0)),
    }
}

/// The users of a file. A file without bytes has none.
///
/// # Errors
///
/// The first of these that stands: `TooLong` past 262,144 bytes; `NotToml`; `BadField` with the least place of a bad
/// table, 0 for the top level; `SameName` with the place of the first user whose name or token stands before;
/// `TooMany` past 256 users. `NoMemory` may come at any time.
#[tactic(auto, unfolding(crate::specs::Users::users_of))]
pub fn read_users(alloc: Global, text: &[u8]) -> Result<List<User>, FormRefusal>
    ensures { Answers (users_of text.now) result }
{
    match document(alloc, text) {
        Ok(top) => users_of_top(alloc, &top),
        Err(refusal) => Err(refusal),
    }
}
