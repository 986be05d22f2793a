use sccs_base::Bytes;
use sccs_store::NewFile;

/// What a change has prepared between its lock and its commit. Nothing takes memory after the commit, so
/// what is written then is made before.
#[derive(Drop)]
pub struct Prepared {
    /// Whether the x-file takes the place of the s-file.
    pub new_s: bool,
    /// What becomes of the p-file.
    pub new_p: NewFile,
    /// What becomes of the g-file.
    pub new_g: NewFile,
    /// The report, for standard output.
    pub report: Bytes,
    /// The message, for standard error.
    pub message: Bytes,
}
