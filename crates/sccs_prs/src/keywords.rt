ghost use Rattle.std.specs.Prelude.{◌≡◌};
ghost use Rattle.sccs_prs.specs.DataKeywords.{data_keyword_of, keywords};

/// What a data keyword stands for that the header of an s-file answers: POSIX, prs, "SCCS Files Data
/// Keywords".
#[derive(Clone, Copy)]
pub enum DataItem {
    /// What get puts in the place of the identification keyword of this letter.
    Identification(u8),
    /// Kind, SID, date, time, login, serial and predecessor.
    Delta,
    /// D for a delta that lives, R for a removed one.
    Kind,
    /// The numbers of lines inserted, deleted and unchanged.
    Counts,
    Inserted,
    Deleted,
    Unchanged,
    /// The parts of date and time, of two digits each.
    Year,
    Month,
    Day,
    Hour,
    Minute,
    Second,
    /// The login that made the delta.
    Login,
    Serial,
    /// The serial of the delta before it.
    Predecessor,
    /// The serials that are included, excluded and ignored.
    Lists,
    Included,
    Excluded,
    Ignored,
    /// The MR numbers.
    Mrs,
    Comments,
    /// The users who may make deltas.
    Users,
    Description,
    /// All flags.
    Flags,
    /// The text of the flag of this letter.
    FlagText(u8),
    /// Whether the flag of this letter is there.
    HasFlag(u8),
}

/// A part of a data specification.
#[derive(Clone, Copy)]
pub enum Part {
    /// A byte that stands for itself.
    Plain(u8),
    /// A keyword that the header answers.
    Item(DataItem),
    /// The body as it stands in the s-file.
    Body,
    /// The text of the delta.
    Text,
}

/// A keyword: the two bytes of its name, and what it stands for. Behind a name of one letter the colon that
/// ends it is the second.
#[derive(Clone, Copy)]
pub struct DataKeyword(pub u8, pub u8, pub Part);

const KEYWORDS: [DataKeyword; 52] = [
    DataKeyword(b'D', b't', Part::Item(DataItem::Delta)),
    DataKeyword(b'D', b'L', Part::Item(DataItem::Counts)),
    DataKeyword(b'L', b'i', Part::Item(DataItem::Inserted)),
    DataKeyword(b'L', b'd', Part::Item(DataItem::Deleted)),
    DataKeyword(b'L', b'u', Part::Item(DataItem::Unchanged)),
    DataKeyword(b'D', b'T', Part::Item(DataItem::Kind)),
    DataKeyword(b'I', b':', Part::Item(DataItem::Identification(b'I'))),
    DataKeyword(b'R', b':', Part::Item(DataItem::Identification(b'R'))),
    DataKeyword(b'L', b':', Part::Item(DataItem::Identification(b'L'))),
    DataKeyword(b'B', b':', Part::Item(DataItem::Identification(b'B'))),
    DataKeyword(b'S', b':', Part::Item(DataItem::Identification(b'S'))),
    DataKeyword(b'D', b':', Part::Item(DataItem::Identification(b'D'))),
    DataKeyword(b'D', b'y', Part::Item(DataItem::Year)),
    DataKeyword(b'D', b'm', Part::Item(DataItem::Month)),
    DataKeyword(b'D', b'd', Part::Item(DataItem::Day)),
    DataKeyword(b'T', b':', Part::Item(DataItem::Identification(b'T'))),
    DataKeyword(b'T', b'h', Part::Item(DataItem::Hour)),
    DataKeyword(b'T', b'm', Part::Item(DataItem::Minute)),
    DataKeyword(b'T', b's', Part::Item(DataItem::Second)),
    DataKeyword(b'P', b':', Part::Item(DataItem::Login)),
    DataKeyword(b'D', b'S', Part::Item(DataItem::Serial)),
    DataKeyword(b'D', b'P', Part::Item(DataItem::Predecessor)),
    DataKeyword(b'D', b'I', Part::Item(DataItem::Lists)),
    DataKeyword(b'D', b'n', Part::Item(DataItem::Included)),
    DataKeyword(b'D', b'x', Part::Item(DataItem::Excluded)),
    DataKeyword(b'D', b'g', Part::Item(DataItem::Ignored)),
    DataKeyword(b'M', b'R', Part::Item(DataItem::Mrs)),
    DataKeyword(b'C', b':', Part::Item(DataItem::Comments)),
    DataKeyword(b'U', b'N', Part::Item(DataItem::Users)),
    DataKeyword(b'F', b'D', Part::Item(DataItem::Description)),
    DataKeyword(b'F', b'L', Part::Item(DataItem::Flags)),
    DataKeyword(b'Y', b':', Part::Item(DataItem::Identification(b'Y'))),
    DataKeyword(b'Q', b':', Part::Item(DataItem::Identification(b'Q'))),
    DataKeyword(b'M', b'P', Part::Item(DataItem::FlagText(b'v'))),
    DataKeyword(b'K', b'V', Part::Item(DataItem::FlagText(b'i'))),
    DataKeyword(b'L', b'K', Part::Item(DataItem::FlagText(b'l'))),
    DataKeyword(b'F', b'B', Part::Item(DataItem::FlagText(b'f'))),
    DataKeyword(b'C', b'B', Part::Item(DataItem::FlagText(b'c'))),
    DataKeyword(b'D', b's', Part::Item(DataItem::FlagText(b'd'))),
    DataKeyword(b'M', b'F', Part::Item(DataItem::HasFlag(b'v'))),
    DataKeyword(b'K', b'F', Part::Item(DataItem::HasFlag(b'i'))),
    DataKeyword(b'B', b'F', Part::Item(DataItem::HasFlag(b'b'))),
    DataKeyword(b'J', b':', Part::Item(DataItem::HasFlag(b'j'))),
    DataKeyword(b'N', b'D', Part::Item(DataItem::HasFlag(b'n'))),
    DataKeyword(b'M', b':', Part::Item(DataItem::Identification(b'M'))),
    DataKeyword(b'F', b':', Part::Item(DataItem::Identification(b'F'))),
    DataKeyword(b'P', b'N', Part::Item(DataItem::Identification(b'P'))),
    DataKeyword(b'B', b'D', Part::Body),
    DataKeyword(b'G', b'B', Part::Text),
    DataKeyword(b'W', b':', Part::Item(DataItem::Identification(b'W'))),
    DataKeyword(b'A', b':', Part::Item(DataItem::Identification(b'A'))),
    DataKeyword(b'Z', b':', Part::Item(DataItem::Identification(b'Z'))),
];

// the data keywords
fn keywords() -> &'static [DataKeyword]
    ensures { result.now ≡ keywords }
{
    &KEYWORDS
}

/// What the keyword of a name stands for.
pub fn keyword_of(first: u8, second: u8) -> Option<Part>
    ensures { result ≡ data_keyword_of first second }
{
    let found = keywords()
        .iter()
        .find(|keyword| keyword.0 == first && keyword.1 == second)?;
    Some(found.2)
}
