use crate::kinds::Token;
use std::marker::Model;

/// A phrase of an RCS file: a word, and what stands between it and the next semicolon.
#[derive(Drop)]
pub struct Phrase<'a> {
    pub(crate) name: &'a [u8],
    pub(crate) inside: Vec<Token<'a>>,
}

impl<'a> Model for Phrase<'a> {
    ghost use Rattle.sccs_rcs_file.specs.Forms.{Phrase};

    ghost Value = { Phrase };

    ghost view = { λ s. record { name = s.name.now; inside = s.inside.items } };

    ghost invariant = { λ s. Unit {0} };
}

/// A revision's number, and its phrases.
#[derive(Drop)]
pub struct RcsEntry<'a> {
    pub(crate) number: &'a [u8],
    pub(crate) phrases: Vec<Phrase<'a>>,
}

impl<'a> Model for RcsEntry<'a> {
    ghost use Rattle.sccs_rcs_file.specs.Forms.{RcsEntry};

    ghost Value = { RcsEntry };

    ghost view = { λ s. record { number = s.number.now; phrases = s.phrases.items } };

    ghost invariant = { λ s. Unit {0} };
}

/// A revision's number, its log and its text as they stand in the file, and the phrases between them.
#[derive(Drop)]
pub struct DeltaText<'a> {
    pub(crate) number: &'a [u8],
    pub(crate) log: &'a [u8],
    pub(crate) phrases: Vec<Phrase<'a>>,
    pub(crate) text: &'a [u8],
}

impl<'a> Model for DeltaText<'a> {
    ghost use Rattle.sccs_rcs_file.specs.Forms.{DeltaText};

    ghost Value = { DeltaText };

    ghost view = { λ s. record {
      number = s.number.now;
      log = s.log.now;
      phrases = s.phrases.items;
      text = s.text.now;
    } };

    ghost invariant = { λ s. Unit {0} };
}

/// What an RCS file has, in its order.
#[derive(Drop)]
pub struct RcsFile<'a> {
    pub(crate) head: Vec<Phrase<'a>>,
    pub(crate) entries: Vec<RcsEntry<'a>>,
    pub(crate) description: &'a [u8],
    pub(crate) texts: Vec<DeltaText<'a>>,
}

impl<'a> Model for RcsFile<'a> {
    ghost use Rattle.sccs_rcs_file.specs.Forms.{RcsFile};

    ghost Value = { RcsFile };

    ghost view = { λ s. record {
      head = s.head.items;
      entries = s.entries.items;
      description = s.description.now;
      texts = s.texts.items;
    } };

    ghost invariant = { λ s. Unit {0} };
}
