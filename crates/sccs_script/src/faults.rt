use thiserror::Error;

/// Why a script isn't read, or isn't fit for a text.
#[derive(Clone, Copy, Debug, PartialEq, Eq, Error)]
pub enum ScriptFault {
    /// The command of this line isn't one, or its text isn't ended.
    #[error("BadScript")]
    BadScript(u64),
    /// The command of this line names a line past the text, which then has so many lines.
    #[error("ScriptRange")]
    ScriptRange(u64, u64),
    /// This text line begins with SOH.
    #[error("BadText")]
    BadText(u64),
    #[error("Memory")]
    Memory,
}
