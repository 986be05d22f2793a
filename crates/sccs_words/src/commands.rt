ghost use Rattle.std.specs.Prelude.{◌≡◌};

use sccs_base::{Bytes, Memory, Name, Text, Words};
use sccs_sid::{Moment, Sid, SidList, Spec};

/// A command, and the words that it was given: POSIX, Shell and Utilities; cdc, as SCCS has it.
#[derive(Drop)]
pub enum Command {
    Admin(AdminWords, Operands),
    Get(GetWords, Operands),
    Delta(DeltaWords, Name),
    Unget(UngetWords, Operands),
    Sact(Operands),
    Tell(Operands),
    Check(Operands),
    Rmdel(Sid, Operands),
    Cdc(CdcWords, Operands),
    Prs(PrsWords, Operands),
    Val(ValWords),
    What(bool, Operands),
    Recover(Operands),
    Import(Operands),
    Batch,
    Group,
    Soak(u64),
}

/// The operands. Where `-` stands alone they are taken from the input, and `words` is empty.
#[derive(Drop)]
pub struct Operands {
    pub words: Words,
    pub from_input: bool,
}

/// What an option with a name in brackets was given: it isn't there, it is bare, or it has a name.
#[derive(Clone, Copy)]
pub enum Given {
    No,
    Bare,
    From(Name),
}

/// The words of admin. `fresh` holds with `-n` or `-i`.
#[derive(Drop)]
pub struct AdminWords {
    pub add: Words,
    pub erase: Words,
    pub set: Words,
    pub unset: Words,
    pub check: bool,
    pub fix: bool,
    pub fresh: bool,
    pub text: Given,
    pub release: Option<u16>,
    pub mrs: Words,
    pub comment: Option<Text>,
    pub description: Given,
}

/// Where the summary of a get goes: into the l-file, or to standard output.
#[derive(Clone, Copy)]
pub enum Summary {
    No,
    File,
    Out,
}

/// The words of get.
#[derive(Drop)]
pub struct GetWords {
    pub branch: bool,
    pub cutoff: Option<Moment>,
    pub edit: bool,
    pub no_text: bool,
    pub include: Option<SidList>,
    pub exclude: Option<SidList>,
    pub keep: bool,
    pub sids: bool,
    pub module: bool,
    pub print: bool,
    pub silent: bool,
    pub spec: Option<Spec>,
    pub top: bool,
    pub summary: Summary,
}

/// The words of delta.
#[derive(Drop)]
pub struct DeltaWords {
    pub mrs: Words,
    pub keep: bool,
    pub sid: Option<Sid>,
    pub silent: bool,
    pub comment: Text,
}

/// The words of unget.
#[derive(Clone, Copy)]
pub struct UngetWords {
    pub keep: bool,
    pub sid: Option<Sid>,
    pub silent: bool,
}

/// The words of cdc: the delta, the MRs to be added or, behind `!`, taken away, and the comment.
#[derive(Drop)]
pub struct CdcWords {
    pub sid: Sid,
    pub mrs: Words,
    pub comment: Option<Text>,
}

/// The words of prs.
#[derive(Drop)]
pub struct PrsWords {
    pub all: bool,
    pub earlier: bool,
    pub later: bool,
    pub cutoff: Option<Moment>,
    pub chosen: bool,
    pub sid: Option<Sid>,
    pub spec: Option<Bytes>,
}

/// The words of val. `fault` has the bit 0x40 for an option fault and 0x80 for no operand.
#[derive(Drop)]
pub struct ValWords {
    pub fault: u8,
    pub silent: bool,
    pub sid: Option<Bytes>,
    pub kind: Option<Bytes>,
    pub module: Option<Bytes>,
    pub operands: Operands,
}

// the kinds of usage faults
pub const UNKNOWN_UTILITY: u8 = 1;

pub const UNKNOWN_OPTION: u8 = 2;

pub const MISSING_ARGUMENT: u8 = 3;

pub const GIVEN_TWICE: u8 = 4;

pub const EXCLUDE: u8 = 5;

pub const MALFORMED: u8 = 6;

pub const NO_OPERAND: u8 = 7;

pub const OPTION_NEEDED: u8 = 8;

pub const TOO_MANY: u8 = 9;

/// A fault of the command line: its kind, from 1, and the number of its word, from 1. The kinds:
/// unknown utility, unknown option, missing argument, option given twice, options exclude each
/// other, malformed value, no operand, option needed, too many operands.
#[derive(Clone, Copy, Debug, PartialEq, Eq)]
pub struct Usage {
    pub kind: u8,
    pub word: u64,
}

/// Why words are no command.
#[derive(Clone, Copy, Debug, PartialEq, Eq)]
pub enum WordsFault {
    Usage(Usage),
    Memory,
}

impl From<Memory> for WordsFault {
    ghost use Rattle.std.specs.Prelude.{◌≡◌};
    ghost use Rattle.sccs_words.specs.declared.commands.WordsFault.TheVariants as faults;

    ghost from_gives = { λ _ e. e ≡ faults.Memory };

    fn from(_memory: Memory) -> WordsFault {
        WordsFault::Memory
    }
}
