/// The byte that begins a control line.
pub const SOH: u8 = 1;

/// The byte that ends a line.
pub const LF: u8 = b'\n';

/// The byte that stands between words.
pub const BLANK: u8 = b' ';

/// The most bytes of a file or an input that is read.
pub const FILE_LIMIT: u64 = 1_073_741_824;

/// The greatest length of the name of a file, in bytes.
pub const NAME_LENGTH: usize = 250;

/// The greatest length of a login, in bytes.
pub const LOGIN_LENGTH: usize = 64;
