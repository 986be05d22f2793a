ghost use Rattle.std.specs.Prelude.{◌≡◌};
ghost use Rattle.sccs_words.specs.Synopsis.{options_of, exclusions_of, needs_of, operand_rule_of};

/// An option: without a value; with one in the rest of the word or none; with one, there or in the
/// next word; the same, and it may repeat.
#[derive(Clone, Copy)]
pub enum OptionSpec {
    Plain(u8),
    Joined(u8, Form),
    Valued(u8, Form),
    Repeated(u8, Form),
}

/// How a value is spelled.
#[derive(Clone, Copy)]
pub enum Form {
    Any,
    User,
    Flag,
    File,
    Mrs,
    Release,
    Cutoff,
    List,
    Spec,
    Sid,
}

/// Options that exclude each other: these two; the first without a value and the second; the one
/// and any other.
#[derive(Clone, Copy)]
pub enum Exclusion {
    Both(u8, u8),
    Bare(u8, u8),
    Alone(u8),
}

/// Options that are needed: this one always; one of these two always; or one of the last two where the first stands.
#[derive(Clone, Copy)]
pub enum Need {
    Always(u8),
    Either(u8, u8),
    With(u8, u8, u8),
}

/// Operands: none; one s-file; one number; one or more; one or more that are neither `.` nor `-`; one
/// or more, and with this option one that is neither.
#[derive(Clone, Copy)]
pub enum OperandRule {
    Nothing,
    Sfile,
    Number,
    Many,
    Named,
    OneWith(u8),
}

/// The utilities, by the first word.
#[derive(Clone, Copy)]
pub enum Utility {
    Admin,
    Get,
    Delta,
    Unget,
    Sact,
    Tell,
    Check,
    Rmdel,
    Cdc,
    Prs,
    Val,
    What,
    Recover,
    Import,
    Batch,
    Group,
    Soak,
}

const ADMIN: [OptionSpec; 12] = [
    OptionSpec::Repeated(b'a', Form::User),
    OptionSpec::Repeated(b'd', Form::Flag),
    OptionSpec::Repeated(b'e', Form::User),
    OptionSpec::Repeated(b'f', Form::Flag),
    OptionSpec::Plain(b'h'),
    OptionSpec::Joined(b'i', Form::File),
    OptionSpec::Valued(b'm', Form::Mrs),
    OptionSpec::Plain(b'n'),
    OptionSpec::Valued(b'r', Form::Release),
    OptionSpec::Joined(b't', Form::File),
    OptionSpec::Joined(b'y', Form::Any),
    OptionSpec::Plain(b'z'),
];

const GET: [OptionSpec; 15] = [
    OptionSpec::Plain(b'b'),
    OptionSpec::Valued(b'c', Form::Cutoff),
    OptionSpec::Plain(b'e'),
    OptionSpec::Plain(b'g'),
    OptionSpec::Valued(b'i', Form::List),
    OptionSpec::Plain(b'k'),
    OptionSpec::Plain(b'l'),
    OptionSpec::Plain(b'L'),
    OptionSpec::Plain(b'm'),
    OptionSpec::Plain(b'n'),
    OptionSpec::Plain(b'p'),
    OptionSpec::Valued(b'r', Form::Spec),
    OptionSpec::Plain(b's'),
    OptionSpec::Plain(b't'),
    OptionSpec::Valued(b'x', Form::List),
];

const DELTA: [OptionSpec; 5] = [
    OptionSpec::Valued(b'm', Form::Mrs),
    OptionSpec::Plain(b'n'),
    OptionSpec::Valued(b'r', Form::Sid),
    OptionSpec::Plain(b's'),
    OptionSpec::Joined(b'y', Form::Any),
];

const UNGET: [OptionSpec; 3] = [
    OptionSpec::Plain(b'n'),
    OptionSpec::Valued(b'r', Form::Sid),
    OptionSpec::Plain(b's'),
];

const RMDEL: [OptionSpec; 1] = [OptionSpec::Valued(b'r', Form::Sid)];

const CDC: [OptionSpec; 3] = [
    OptionSpec::Valued(b'm', Form::Mrs),
    OptionSpec::Valued(b'r', Form::Sid),
    OptionSpec::Joined(b'y', Form::Any),
];

const PRS: [OptionSpec; 6] = [
    OptionSpec::Plain(b'a'),
    OptionSpec::Valued(b'c', Form::Cutoff),
    OptionSpec::Valued(b'd', Form::Any),
    OptionSpec::Plain(b'e'),
    OptionSpec::Plain(b'l'),
    OptionSpec::Joined(b'r', Form::Sid),
];

const VAL: [OptionSpec; 4] = [
    OptionSpec::Valued(b'm', Form::Any),
    OptionSpec::Valued(b'r', Form::Any),
    OptionSpec::Plain(b's'),
    OptionSpec::Valued(b'y', Form::Any),
];

const WHAT: [OptionSpec; 1] = [OptionSpec::Plain(b's')];

const ADMIN_EXCLUSIONS: [Exclusion; 9] = [
    Exclusion::Alone(b'h'),
    Exclusion::Both(b'z', b'n'),
    Exclusion::Both(b'z', b'i'),
    Exclusion::Both(b'd', b'n'),
    Exclusion::Both(b'd', b'i'),
    Exclusion::Both(b'e', b'n'),
    Exclusion::Both(b'e', b'i'),
    Exclusion::Bare(b't', b'n'),
    Exclusion::Bare(b't', b'i'),
];

const GET_EXCLUSIONS: [Exclusion; 3] = [
    Exclusion::Both(b'e', b'c'),
    Exclusion::Both(b'l', b'L'),
    Exclusion::Both(b'L', b'p'),
];

const PRS_EXCLUSIONS: [Exclusion; 2] = [Exclusion::Both(b'e', b'l'), Exclusion::Both(b'r', b'c')];

const ADMIN_NEEDS: [Need; 3] = [
    Need::With(b'r', b'i', b'i'),
    Need::With(b'm', b'n', b'i'),
    Need::With(b'y', b'n', b'i'),
];

const RMDEL_NEEDS: [Need; 1] = [Need::Always(b'r')];

const CDC_NEEDS: [Need; 2] = [Need::Always(b'r'), Need::Either(b'm', b'y')];

const PRS_NEEDS: [Need; 1] = [Need::With(b'c', b'e', b'l')];

impl Utility {
    /// The options of a utility.
    pub fn options(self) -> &'static [OptionSpec]
        ensures { result.now ≡ options_of self }
    {
        match self {
            Utility::Admin => &ADMIN,
            Utility::Get => &GET,
            Utility::Delta => &DELTA,
            Utility::Unget => &UNGET,
            Utility::Rmdel => &RMDEL,
            Utility::Cdc => &CDC,
            Utility::Prs => &PRS,
            Utility::Val => &VAL,
            Utility::What => &WHAT,
            _ => &[],
        }
    }

    /// Which of them exclude each other.
    pub fn exclusions(self) -> &'static [Exclusion]
        ensures { result.now ≡ exclusions_of self }
    {
        match self {
            Utility::Admin => &ADMIN_EXCLUSIONS,
            Utility::Get => &GET_EXCLUSIONS,
            Utility::Prs => &PRS_EXCLUSIONS,
            _ => &[],
        }
    }

    /// Which of them are needed.
    pub fn needs(self) -> &'static [Need]
        ensures { result.now ≡ needs_of self }
    {
        match self {
            Utility::Admin => &ADMIN_NEEDS,
            Utility::Rmdel => &RMDEL_NEEDS,
            Utility::Cdc => &CDC_NEEDS,
            Utility::Prs => &PRS_NEEDS,
            _ => &[],
        }
    }

    /// What operands it takes.
    pub fn operand_rule(self) -> OperandRule
        ensures { result ≡ operand_rule_of self }
    {
        match self {
            Utility::Admin => OperandRule::OneWith(b'i'),
            Utility::Delta => OperandRule::Sfile,
            Utility::Import => OperandRule::Named,
            Utility::Batch | Utility::Group => OperandRule::Nothing,
            Utility::Soak => OperandRule::Number,
            _ => OperandRule::Many,
        }
    }
}
