use crate::forms::{Phrase, RcsFile};
use crate::kinds::Token;
use crate::places::Place;
use std::marker::Model;

/// Where the reading of an RCS file stands, what was read of it, and what of an entry, a text and a
/// phrase that aren't ended yet.
#[derive(Drop)]
pub struct State<'a> {
    pub(crate) place: Place,
    pub(crate) file: RcsFile<'a>,
    pub(crate) number: &'a [u8],
    pub(crate) log: &'a [u8],
    pub(crate) phrases: Vec<Phrase<'a>>,
    pub(crate) name: &'a [u8],
    pub(crate) inside: Vec<Token<'a>>,
}

impl<'a> Model for State<'a> {
    ghost use Rattle.sccs_rcs_file.specs.Reading.{State};

    ghost Value = { State };

    ghost view = { λ s. record {
      place = s.place;
      file = s.file;
      number = s.number.now;
      log = s.log.now;
      phrases =
          s.phrases.items;
      name = s.name.now;
      inside = s.inside.items;
    } };

    ghost invariant = { λ s. Unit {0} };
}
