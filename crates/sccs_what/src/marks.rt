ghost use Rattle.std.specs.Prelude.{◌≡◌, ◌≢◌, ◌<◌, ◌≤◌, ℕ, length, position, slice_index, MatchOption};
ghost use Rattle.sccs_what.specs.Texts.{is_marked, ends_text, until_end};

use memchr::memchr;
use sccs_base::LF;

// how many bytes the mark has
pub const MARK_LENGTH: usize = 4;

/// Whether bytes begin with the mark `@(#)`.
pub fn is_marked(bytes: &[u8]) -> bool
    ensures { result ≡ is_marked bytes.now }
{
    matches!(bytes, [b'@', b'(', b'#', b')', ..])
}

// whether a byte ends a text
fn ends_text(byte: u8) -> bool
    ensures { result ≡ ends_text byte }
{
    byte == b'"' || byte == b'>' || byte == b'\\' || byte == LF || byte == 0
}

// the place of the byte that ends a text
fn find_end(bytes: &[u8]) -> Option<usize>
    ensures { result ≡ position ends_text bytes.now }
{
    bytes.iter().position(|byte| ends_text(*byte))
}

/// How many bytes stand before the one that ends a text.
#[tactic(auto, using(crate::proofs::TextLaws::length_found))]
pub fn text_length(bytes: &[u8]) -> usize
    ensures { result ≡ length (until_end bytes.now) }
{
    find_end(bytes).unwrap_or(bytes.len())
}

/// The place of the first byte with which a mark may begin.
pub fn find_at_sign(bytes: &[u8]) -> usize
    ensures within { result ≤ length bytes.now }
    ensures before { (k : ℕ) → k < result → slice_index bytes.now k ≢ 64 }
{
    memchr(b'@', bytes).unwrap_or(bytes.len())
}
