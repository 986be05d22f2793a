ghost use Rattle.std.specs.Prelude.{◌≡◌, ◌+◌, ◌≤◌, ◌++◌, length, take, decimal};
ghost use Rattle.sccs_sid.specs.Detail.{detail_text};
ghost use Rattle.sccs_sid.specs.Refusal.{last_five};
ghost use Rattle.sccs_sid.specs.Sid.{sid_text};

use crate::sids::Sid;
use itoa::Buffer;

/// The bytes of the longest detail: two numbers, and the words between them.
pub const DETAIL_ROOM: usize = 55;

// what a refusal's text says beside its fixed words
#[derive(Clone, Copy)]
pub enum Detail {
    Nothing,
    Number(u64),
    Sums(u32, u16),
    Range(u64, u64),
    Fails(u64, u64),
    Letter(u8),
    Place(Sid),
}

// the last five digits
#[tactic(auto, unfolding(crate::specs::Refusal::last_five))]
fn five(number: u32) -> [u8; 5]
    ensures { result ≡ last_five number }
{
    [
        b'0' + (number / 10000 % 10) as u8,
        b'0' + (number / 1000 % 10) as u8,
        b'0' + (number / 100 % 10) as u8,
        b'0' + (number / 10 % 10) as u8,
        b'0' + (number % 10) as u8,
    ]
}

// puts bytes after those that stand up to a place, and answers where they end
fn put(into: &mut [u8; DETAIL_ROOM], at: usize, bytes: &[u8]) -> usize
    requires { at + length bytes.now ≤ 55 }
    ensures end { result ≡ at + length bytes.now }
    ensures put { take result into.new ≡ take at into.old ++ bytes.now }
{
    let end = at + bytes.len();
    into[at..end].copy_from_slice(bytes);
    end
}

// puts a written SID at the start, and answers where it ends
pub fn put_sid(sid: &Sid, into: &mut [u8; DETAIL_ROOM]) -> usize
    ensures end { result ≤ 55 }
    ensures put { take result into.new ≡ sid_text sid.now }
{
    let mut buffer = Buffer::new();
    let end = put(into, 0, buffer.format(sid.release).as_bytes());
    let end = put(into, end, b".");
    let end = put(into, end, buffer.format(sid.level).as_bytes());
    if sid.branch == 0 {
        return end;
    }
    let end = put(into, end, b".");
    let end = put(into, end, buffer.format(sid.branch).as_bytes());
    let end = put(into, end, b".");
    put(into, end, buffer.format(sid.sequence).as_bytes())
}

// puts two numbers at the start, with words between them, and answers where they end
fn put_two(first: u64, words: &[u8], second: u64, into: &mut [u8; DETAIL_ROOM]) -> usize
    requires { length words.now ≤ 15 }
    ensures end { result ≤ 55 }
    ensures put { take result into.new ≡ decimal first ++ (words.now ++ decimal second) }
{
    let mut buffer = Buffer::new();
    let end = put(into, 0, buffer.format(first).as_bytes());
    let end = put(into, end, words);
    put(into, end, buffer.format(second).as_bytes())
}

// puts the text of a detail at the start, and answers where it ends
pub fn put_detail(detail: &Detail, into: &mut [u8; DETAIL_ROOM]) -> usize
    ensures end { result ≤ 55 }
    ensures put { take result into.new ≡ detail_text detail.now }
{
    match detail {
        Detail::Nothing => 0,
        Detail::Number(number) => put(into, 0, Buffer::new().format(*number).as_bytes()),
        Detail::Sums(stored, computed) => {
            let end = put(into, 0, &five(*stored));
            let end = put(into, end, b", computed ");
            put(into, end, &five(u32::from(*computed)))
        }
        Detail::Range(line, count) => put_two(*line, b": text has ", *count, into),
        Detail::Fails(revision, line) => put_two(*revision, b" fails at line ", *line, into),
        Detail::Letter(letter) => put(into, 0, &[*letter]),
        Detail::Place(sid) => put_sid(sid, into),
    }
}
