use std::marker::Model;

/// What a token of an RCS file is: rcsfile(5).
#[derive(Clone, Copy, Debug, PartialEq, Eq)]
pub enum TokenKind {
    /// A word of digits and dots.
    Number,
    Word,
    /// A string: its bytes are those between its at signs, in which each at sign is doubled.
    Quoted,
    Semicolon,
    Colon,
}

/// A token of an RCS file, with its bytes.
#[derive(Drop)]
pub struct Token<'a> {
    pub(crate) kind: TokenKind,
    pub(crate) bytes: &'a [u8],
}

impl<'a> Model for Token<'a> {
    ghost use Rattle.sccs_rcs_file.specs.TokenValues.{Token, token_of};

    ghost Value = { Token };

    ghost view = { λ s. token_of s.kind s.bytes.now };

    ghost invariant = { λ s. Unit {0} };
}
