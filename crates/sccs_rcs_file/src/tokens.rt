ghost use Rattle.std.specs.Prelude.{◌≡◌, ◌<◌, ◌≤◌, [], ◌∷◌, None, Some, drop, length, take, IfSome, option_map};
ghost use Rattle.std.specs.List.{list_all};
ghost use Rattle.sccs_rcs_file.specs.Tokens.{Lexes, behind_word, from_token, is_gap, is_of_number, is_of_word};
ghost use Rattle.sccs_rcs_file.specs.Tokens.{string_in, token_at, with_raw, word_in, word_token};

use crate::kinds::{Token, TokenKind};

const AT_SIGN: u8 = b'@';

// whether a byte stands between tokens
fn is_gap(byte: u8) -> bool
    ensures { result ≡ is_gap byte }
{
    matches!(byte, 8..=13 | 32)
}

// whether a byte may stand in a word
fn is_of_word(byte: u8) -> bool
    ensures { result ≡ is_of_word byte }
{
    byte > 32 && byte != b';' && byte != b':' && byte != AT_SIGN
}

// whether all bytes may stand in a number
fn is_number(word: &[u8]) -> bool
    ensures { result ≡ list_all is_of_number word.now }
{
    word.iter()
        .all(|byte| byte.is_ascii_digit() || *byte == b'.')
}

// from the next token on
fn from_token(bytes: &[u8]) -> &[u8]
    ensures value { result.now ≡ from_token bytes.now }
    ensures shorter { length result.now ≤ length bytes.now }
{
    let mut rest = bytes;
    'gaps: while let [byte, behind @ ..] = rest {
        if !is_gap(*byte) {
            return rest;
        }
        rest = behind;
    }
    rest
}

// the bytes of a word, and those behind it
fn word_in(bytes: &[u8]) -> (&[u8], &[u8])
    ensures word { result.0.now ≡ word_in bytes.now }
    ensures rest { result.1.now ≡ behind_word bytes.now }
    ensures shorter { length result.1.now ≤ length bytes.now }
{
    let mut rest = bytes;
    let mut len = 0;
    'bytes: while let [byte, behind @ ..] = rest {
        if !is_of_word(*byte) {
            return (&bytes[..len], rest);
        }
        len += 1;
        rest = behind;
    }
    (bytes, rest)
}

// how many bytes of a string stand in front: one, or a doubled at sign, or none where it ends
fn raw_len(bytes: &[u8]) -> usize
    requires { 0 < length bytes.now }
    ensures ended { result ≡ 0 → string_in bytes.now ≡ Some ([], drop 1 bytes.now) }
    ensures more { 0 < result → string_in bytes.now ≡ with_raw (take result bytes.now)
        (string_in (drop result bytes.now)) }
    ensures within { result ≤ length bytes.now }
{
    match bytes {
        [byte, next, ..] => {
            if *byte != AT_SIGN {
                1
            } else if *next == AT_SIGN {
                2
            } else {
                0
            }
        }
        [byte] => { if *byte == AT_SIGN { 0 } else { 1 } }
        [] => 0,
    }
}

// behind an at sign: the bytes of a string and those behind it, where it is ended
fn string_in(bytes: &[u8]) -> Option<(&[u8], &[u8])>
    ensures value { option_map (λ x. (x.0.now, x.1.now)) result ≡ string_in bytes.now }
    ensures shorter { IfSome result (λ x. length x.1.now < length bytes.now) }
{
    let mut len = 0;
    'bytes: while len < bytes.len() {
        let more = raw_len(&bytes[len..]);
        if more == 0 {
            return Some((&bytes[..len], &bytes[len + 1..]));
        }
        len += more;
    }
    None
}

/// A token, how many bytes are left with its first one, and the bytes behind it.
#[derive(Drop)]
pub struct Lexed<'a> {
    pub token: Token<'a>,
    pub left: usize,
    pub rest: &'a [u8],
}

// a word as a token
fn word_token(word: &[u8]) -> Token
    ensures { result ≡ word_token word.now }
{
    let kind = if is_number(word) {
        TokenKind::Number
    } else {
        TokenKind::Word
    };
    Token { kind, bytes: word }
}

// the token that begins with the first of these bytes, and the bytes behind it
fn token_at<'a>(bytes: &'a [u8], first: u8, behind: &'a [u8]) -> Option<(Token<'a>, &'a [u8])>
    requires { bytes.now ≡ first ∷ behind.now }
    ensures { option_map (λ x. (x.0, x.1.now)) result ≡ token_at first behind.now }
{
    match first {
        AT_SIGN => {
            let (raw, rest) = string_in(behind)?;
            Some((
                Token {
                    kind: TokenKind::Quoted,
                    bytes: raw,
                },
                rest,
            ))
        }
        b';' => Some((
            Token {
                kind: TokenKind::Semicolon,
                bytes: &bytes[..1],
            },
            behind,
        )),
        b':' => Some((
            Token {
                kind: TokenKind::Colon,
                bytes: &bytes[..1],
            },
            behind,
        )),
        33.. => {
            let (word, rest) = word_in(bytes);
            Some((word_token(word), rest))
        }
        _ => None,
    }
}

/// The next token of bytes, if one is there; Err where a byte begins none, or a string isn't
/// ended, has how many bytes are left with it.
pub fn next_token(bytes: &[u8]) -> Result<Option<Lexed>, usize>
    ensures { Lexes bytes.now result }
{
    let bytes = from_token(bytes);
    let Some((first, behind)) = bytes.split_first() else {
        return Ok(None);
    };
    let Some((token, rest)) = token_at(bytes, *first, behind) else {
        return Err(bytes.len());
    };
    Ok(Some(Lexed {
        token,
        left: bytes.len(),
        rest,
    }))
}
