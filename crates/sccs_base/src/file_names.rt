ghost use Rattle.std.specs.Prelude.{◌≡◌, ◌≢◌, ◌<◌, ◌≤◌, ◌↔◌, List, [], ◌∷◌, length, drop, is_some, IsTrue, IfSome};
ghost use Rattle.std.specs.Prelude.{OnSome};
ghost use Rattle.std.specs.Str.{bytes_eq};
ghost use Rattle.sccs_base.specs.Name.{IsName, IsSFileName, is_name, is_sfile_name, sibling};

use crate::constants::{LF, NAME_LENGTH};
use crate::short_bytes::ShortBytes;
use std::marker::Model;

/// The name of a file in the current folder: 1 to 250 bytes of UTF-8 without slash, LF and NUL,
/// neither `.` nor `..`. Contracts see it as its bytes.
#[derive(Clone, Copy)]
pub struct Name {
    bytes: ShortBytes<NAME_LENGTH>,
}

impl Model for Name {
    ghost use Rattle.std.specs.Prelude.{List, ℕ};
    ghost use Rattle.sccs_base.specs.Name.{IsName};

    ghost Value = { List ℕ };

    ghost view = { λ n. n.bytes };

    ghost invariant = { λ n. IsName n.bytes };

    ghost inverse = { λ bytes. record { bytes = bytes } };
}

// whether bytes are as many as a name has, and neither `.` nor `..`
fn is_sized(bytes: &[u8]) -> bool
    ensures { IsTrue result ↔ ((0 < length bytes.now) × ((length bytes.now < 251)
        × ((bytes.now ≢ 46 ∷ []) × (bytes.now ≢ 46 ∷ 46 ∷ [])))) }
{
    0 < bytes.len()
        && bytes.len() <= NAME_LENGTH
        && bytes != b".".as_slice()
        && bytes != b"..".as_slice()
}

// whether bytes are a name
fn fits(bytes: &[u8]) -> bool
    ensures { IsTrue result ↔ IsName bytes.now }
{
    is_sized(bytes)
        && bytes.iter().all(|b| *b != b'/' && *b != LF && *b != 0)
        && std::str::from_utf8(bytes).is_ok()
}

// whether bytes are `s.` and a name by itself
fn names_sfile(bytes: &[u8]) -> bool
    ensures { IsTrue result ↔ IsSFileName bytes.now }
{
    match bytes {
        [b's', b'.', rest @ ..] => fits(rest),
        _ => false,
    }
}

// the name that bytes are
fn named(bytes: &[u8]) -> Name
    requires { IsName bytes.now }
    ensures { result ≡ bytes.now }
{
    Name {
        bytes: ShortBytes::new(bytes),
    }
}

impl Name {
    /// The name that bytes are; None exactly where they are none.
    pub fn read(bytes: &[u8]) -> Option<Name>
        ensures found { IfSome result (λ name. name ≡ bytes.now) }
        ensures exact { is_some result ≡ is_name bytes.now }
    {
        if fits(bytes) {
            Some(named(bytes))
        } else {
            None
        }
    }

    /// The name of an s-file that bytes are: `s.` and a name by itself; None exactly where they are none.
    pub fn read_sfile(bytes: &[u8]) -> Option<Name>
        ensures found { IfSome result (λ name. name ≡ bytes.now) }
        ensures sfile { OnSome result (IsSFileName bytes.now) }
        ensures exact { is_some result ≡ is_sfile_name bytes.now }
    {
        match Name::read(bytes) {
            Some(name) => { if name.is_sfile() { Some(name) } else { None } }
            None => None,
        }
    }

    pub fn bytes(&self) -> &[u8]
        ensures value { result.now ≡ self.now }
        ensures name { IsName self.now }
    {
        self.bytes.bytes()
    }

    /// The name as text.
    pub fn text(&self) -> &str
        ensures value { result.now ≡ self.now }
        ensures name { IsName self.now }
    {
        match std::str::from_utf8(self.bytes()) {
            Ok(text) => text,
            Err(_) => unreachable!(),
        }
    }

    /// Whether two names are one.
    pub fn is(&self, other: &Name) -> bool
        ensures { result ≡ bytes_eq self.now other.now }
    {
        self.bytes() == other.bytes()
    }

    /// Whether it is the name of an s-file: `s.` and a name by itself.
    pub fn is_sfile(&self) -> bool
        ensures value { result ≡ is_sfile_name self.now }
        ensures fact { IsTrue result ↔ IsSFileName self.now }
    {
        names_sfile(self.bytes())
    }

    /// The name of an s-file with another first letter: `p.a` for `s.a`.
    pub fn sibling(&self, letter: u8) -> Name
        requires sfile { IsSFileName self.now }
        requires low { 97 ≤ letter }
        requires high { letter ≤ 122 }
        ensures { result ≡ sibling letter self.now }
    {
        Name {
            bytes: self.bytes.with_first(letter),
        }
    }

    /// The name of an s-file without its first two bytes.
    pub fn module(&self) -> Name
        requires { IsSFileName self.now }
        ensures { result ≡ drop 2 self.now }
    {
        named(&self.bytes()[2..])
    }
}
