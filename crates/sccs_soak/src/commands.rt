ghost use Rattle.std.specs.Prelude.{◌≡◌, ◌≤◌, ◌++◌, ◌∷◌, [], IfOk, OnOk, codes, decimal, true};
ghost use Rattle.sccs_sid.specs.Moment.{IsMoment};
ghost use Rattle.sccs_batch.specs.BatchText.{is_single};
ghost use Rattle.sccs_soak.specs.Commands.{command_at, delta_command, edit_command, edit_words, first_command};
ghost use Rattle.sccs_soak.specs.Commands.{stamp_at};

use crate::turns::{Turn, write_script};
use itoa::Buffer;
use sccs_base::{Bytes, Login, Memory, Words};
use sccs_batch::BatchEntry;
use sccs_sid::{Moment, Stamp};
use std::alloc::Global;

/// The file of a soak.
pub const SOAK_FILE: &[u8] = b"s.soak";

// who makes a soak
fn soaker() -> Login
    ensures { result ≡ codes "soak" }
{
    match Login::read(b"soak") {
        Some(login) => login,
        None => Login::nobody(),
    }
}

// so many seconds after 2000-01-01 00:00:00
fn stamp_at(seconds: u64) -> Stamp
    requires { seconds ≤ 2000 }
    ensures value { result ≡ stamp_at seconds }
    ensures moment { IsMoment result.moment }
{
    let seconds = 946_684_800 + seconds as i64;
    Stamp {
        moment: Moment { seconds },
        login: soaker(),
    }
}

// puts a word behind others
fn push_word(alloc: Global, words: &mut Words, text: &[u8]) -> Result<(), Memory>
    ensures { OnOk result (words.new ≡ words.old ++ text.now ∷ []) }
{
    let word = Bytes::new(alloc, text)?;
    words.push(word)
}

// the words of admin
fn first_words(alloc: Global) -> Result<Words, Memory>
    ensures { IfOk result (λ words. words ≡ first_command.words) }
{
    let mut words = Words::new(alloc);
    push_word(alloc, &mut words, b"admin")?;
    push_word(alloc, &mut words, b"-n")?;
    push_word(alloc, &mut words, b"-fb")?;
    push_word(alloc, &mut words, b"-fj")?;
    push_word(alloc, &mut words, SOAK_FILE)?;
    Ok(words)
}

// the words of get
fn edit_words(alloc: Global, branch: bool) -> Result<Words, Memory>
    ensures { IfOk result (λ words. words ≡ edit_words branch) }
{
    let mut words = Words::new(alloc);
    push_word(alloc, &mut words, b"get")?;
    push_word(alloc, &mut words, b"-e")?;
    if branch {
        push_word(alloc, &mut words, b"-b")?;
    }
    push_word(alloc, &mut words, b"-g")?;
    push_word(alloc, &mut words, b"-s")?;
    push_word(alloc, &mut words, SOAK_FILE)?;
    Ok(words)
}

// the comment of a round's delta, as an option
fn comment_word(alloc: Global, round: u64) -> Result<Bytes, Memory>
    ensures { IfOk result (λ word. word ≡ codes "-y" ++ decimal round) }
{
    let mut text = Vec::new(alloc);
    text.extend_from_slice(b"-y")?;
    text.extend_from_slice(Buffer::new().format(round).as_bytes())?;
    Ok(Bytes::from_vec(text))
}

// the words of delta
fn delta_words(alloc: Global, round: u64) -> Result<Words, Memory>
    ensures { IfOk result (λ words. words ≡ codes "delta" ∷ codes "-s" ∷ (codes "-y" ++ decimal round) ∷ codes "s.soak"
        ∷ []) }
{
    let mut words = Words::new(alloc);
    push_word(alloc, &mut words, b"delta")?;
    push_word(alloc, &mut words, b"-s")?;
    words.push(comment_word(alloc, round)?)?;
    push_word(alloc, &mut words, SOAK_FILE)?;
    Ok(words)
}

/// The command that makes the file of a soak.
pub fn first_command(alloc: Global) -> Result<BatchEntry, Memory>
    ensures value { IfOk result (λ entry. entry ≡ first_command) }
    ensures moment { IfOk result (λ entry. IsMoment entry.stamp.moment) }
    ensures single { IfOk result (λ entry. is_single entry.words ≡ true) }
{
    let words = first_words(alloc)?;
    Ok(BatchEntry {
        stamp: stamp_at(0),
        words,
        input: Bytes::empty(alloc),
    })
}

/// The edit of a round.
pub fn edit_command(alloc: Global, round: u64, turn: Turn) -> Result<BatchEntry, Memory>
    requires { round ≤ 2000 }
    ensures value { IfOk result (λ entry. entry ≡ edit_command round turn) }
    ensures moment { IfOk result (λ entry. IsMoment entry.stamp.moment) }
    ensures single { IfOk result (λ entry. is_single entry.words ≡ true) }
{
    let words = edit_words(alloc, turn.begins_branch())?;
    Ok(BatchEntry {
        stamp: stamp_at(round),
        words,
        input: Bytes::empty(alloc),
    })
}

/// The delta of a round.
pub fn delta_command(alloc: Global, round: u64, turn: Turn) -> Result<BatchEntry, Memory>
    requires { round ≤ 2000 }
    ensures value { IfOk result (λ entry. entry ≡ delta_command round turn) }
    ensures moment { IfOk result (λ entry. IsMoment entry.stamp.moment) }
    ensures single { IfOk result (λ entry. is_single entry.words ≡ true) }
{
    let words = delta_words(alloc, round)?;
    let input = write_script(alloc, round, turn)?;
    Ok(BatchEntry {
        stamp: stamp_at(round),
        words,
        input,
    })
}
