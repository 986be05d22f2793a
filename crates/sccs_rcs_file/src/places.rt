/// What may come where the reading of an RCS file stands: rcsfile(5).
#[derive(Clone, Copy, Debug, PartialEq, Eq)]
pub enum Place {
    /// A phrase of the head, an entry's number, or the word `desc`.
    HeadPhrases,
    /// What stands in a phrase of the head.
    HeadPhrase,
    /// A phrase of an entry, the next entry's number, or the word `desc`.
    EntryPhrases,
    EntryPhrase,
    /// The description.
    Description,
    /// The number of a text, or the end.
    Texts,
    /// The word `log`.
    Log,
    /// A log.
    LogText,
    /// A phrase behind a log, or the word `text`.
    TextPhrases,
    TextPhrase,
    /// A text.
    Text,
}
