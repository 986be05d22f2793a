ghost use Rattle.std.specs.Prelude.{IfOk};
ghost use Rattle.sccs_sid.specs.Moment.{IsMoment};

use sccs_base::{Bytes, Line, Login, MemorySink, MemorySource, Source, Words};
use sccs_disk::Disk;
use sccs_sid::{Moment, Stamp};
use sccs_top::{Answer, run};
use std::alloc::Global;
use std::test::Fail;

/// What a run answers, and gives to out and err.
#[derive(Drop)]
pub struct Seen {
    pub answer: Answer,
    pub out: MemorySink,
    pub err: MemorySink,
}

/// What the program is given beside its words and the disk: the input, the time of a day and the login, and the
/// calls that fail.
#[derive(Clone, Copy)]
pub struct Given<'a> {
    pub input: &'a [u8],
    pub time: &'a [u8],
    pub login: &'a [u8],
    pub failing_input: &'a [u64],
    pub failing_out: &'a [u64],
    pub failing_err: &'a [u64],
}

/// No input, and nothing fails.
pub const PLAIN: Given<'static> = Given {
    input: b"",
    time: b"05:06:07",
    login: b"ann",
    failing_input: &[],
    failing_out: &[],
    failing_err: &[],
};

// the words of a line, which blanks part
fn words_of(alloc: Global, line: &[u8]) -> Result<Words, Fail> {
    let mut words = Words::new(alloc);
    for word in line.split(|byte| *byte == b' ') {
        if !word.is_empty() {
            words.push(Bytes::new(alloc, word)?)?;
        }
    }
    Ok(words)
}

// the moment of that time on one day, and the login
fn stamp_of(given: &Given) -> Result<Stamp, Fail>
    ensures { IfOk result (λ s. IsMoment s.moment) }
{
    let moment = Moment::read(b"21/03/04", given.time).ok();
    Ok(Stamp {
        moment: moment.ok_or("a moment")?,
        login: Login::read(given.login).ok_or("a login")?,
    })
}

/// What a line of words answers over an input and a disk.
pub fn answer_over<I: Source, D: Disk>(
    alloc: Global,
    line: &[u8],
    given: &Given,
    input: &mut I,
    disk: &mut D,
) -> Result<Seen, Fail> {
    let words = words_of(alloc, line)?;
    let stamp = stamp_of(given)?;
    let place = Line::new(alloc, b"/")?;
    let mut out = MemorySink::new(alloc, 100_000, given.failing_out)?;
    let mut err = MemorySink::new(alloc, 10_000, given.failing_err)?;
    let answer = run(
        alloc, &words, &stamp, &place, input, &mut out, &mut err, disk,
    );
    Ok(Seen { answer, out, err })
}

/// What a line of words answers over a disk.
pub fn answer_to<D: Disk>(
    alloc: Global,
    line: &[u8],
    given: &Given,
    disk: &mut D,
) -> Result<Seen, Fail> {
    let mut input = MemorySource::new(alloc, given.input, given.failing_input)?;
    answer_over(alloc, line, given, &mut input, disk)
}

impl Seen {
    /// Whether the run ended with that status, and gave these bytes to out and err.
    pub fn is(&self, status: u8, out: &[u8], err: &[u8]) -> bool {
        self.answer == Answer::Finished { status }
            && (self.out.bytes() == out && self.err.bytes() == err)
    }
}
