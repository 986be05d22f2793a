//! The program: it makes words, stamp, place and adapters, calls `run`, and does its answer.
#![tactic(auto)]

ghost use Rattle.std.specs.Prelude.{IfOk};
ghost use Rattle.sccs_sid.specs.Moment.{IsMoment};

use sccs_base::{Bytes, Line, Login, MakeFault, StdErrSink, StdSink, StdSource, Words};
use sccs_folder::FolderDisk;
use sccs_sid::{Moment, Stamp};
use sccs_top::{Answer, run};
use std::alloc::Global;
use std::env::{Env, FillError};
use std::fs;
use std::process::ExitCode;
use std::time::Clock;

// what the system takes at most as one word, in bytes, and as a folder's path
const WORD_ROOM: usize = 131_072;

const PLACE_ROOM: usize = 4096;

// a folder that may always be opened
const ROOT: &str = "/";

// the word of the environment that names the folder of stored files
const STORED: &str = "SCCS_FOLDER";

// what the program says of itself: the version that the file VERSION has, and how it is called
const VERSION: &str = "sccs-core (sccs) 0.9.0";

const USE: &str = "usage: sccs-core command [option ...] file ...";

// how the program ends
#[derive(Clone, Copy, Debug, PartialEq, Eq)]
enum End {
    Status(u8),
    Memory,
    ReadFault,
    WriteFault,
    DiskFault,
    NoMoment,
    NoWords,
    NoPlace,
}

impl End {
    // the exit status, and the words on standard error
    fn meaning(self) -> (u8, Option<&'static str>) {
        match self {
            End::Status(status) => (status, None),
            End::Memory => (131, Some("sccs: want of memory")),
            End::ReadFault => (132, Some("sccs: read fault")),
            End::WriteFault => (133, Some("sccs: write fault")),
            End::DiskFault => (134, Some("sccs: disk fault, run recover")),
            End::NoMoment => (135, Some("sccs: no moment")),
            End::NoWords => (136, Some("sccs: no words")),
            End::NoPlace => (137, Some("sccs: no place")),
        }
    }
}

// what the program says of itself, where its first word asks for that
fn telling(rt: &impl Env) -> Option<&'static str> {
    let mut buffer = [0; 16];
    let Ok(n) = rt.arg(1, &mut buffer) else {
        return None;
    };
    match std::str::from_utf8(&buffer[..n]) {
        Ok("--version" | "-V") => Some(VERSION),
        Ok("--help") => Some(USE),
        _ => None,
    }
}

// the words behind the program's name, as bytes
fn words_of(rt: &impl Env, alloc: Global) -> Result<Words, End> {
    let Ok(mut buffer) = vec![in alloc; 0; WORD_ROOM] else {
        return Err(End::Memory);
    };
    let mut words = Words::new(alloc);
    for i in 1..usize::MAX {
        match rt.arg(i, buffer.as_mut_slice()) {
            Ok(n) => {
                let Ok(word) = Bytes::new(alloc, &buffer[..n]) else {
                    return Err(End::Memory);
                };
                let Ok(()) = words.push(word) else {
                    return Err(End::Memory);
                };
            }
            Err(FillError::NotPresent) => return Ok(words),
            Err(FillError::TooLong) => return Err(End::NoWords),
        }
    }
    Err(End::NoWords)
}

// the clock's second
fn moment_of(rt: &impl Clock) -> Result<Moment, End>
    ensures { IfOk result IsMoment }
{
    let Ok(since) = rt.since_1970() else {
        return Err(End::NoMoment);
    };
    let Ok(seconds) = i64::try_from(since.as_secs()) else {
        return Err(End::NoMoment);
    };
    Moment::from_seconds(seconds).ok_or(End::NoMoment)
}

// the environment's LOGNAME, where it is a login
fn login_of(rt: &impl Env) -> Login {
    let mut buffer = [0; 65];
    match rt.var("LOGNAME", &mut buffer) {
        Ok(n) => Login::read(&buffer[..n]).unwrap_or(Login::nobody()),
        Err(_) => Login::nobody(),
    }
}

// a path that is known as a place
fn place(alloc: Global, path: &[u8]) -> Result<Line, End> {
    match Line::new(alloc, path) {
        Ok(line) => Ok(line),
        Err(MakeFault::Unfit) => Err(End::NoPlace),
        Err(MakeFault::Memory) => Err(End::Memory),
    }
}

// the path of the folder of stored files, as the environment names it; no bytes where that is the current one
fn stored_of(rt: &impl Env, alloc: Global) -> Result<Bytes, End> {
    let mut buffer = [0; PLACE_ROOM];
    let n = match rt.var(STORED, &mut buffer) {
        Ok(n) => n,
        Err(FillError::NotPresent) => 0,
        Err(FillError::TooLong) => return Err(End::NoPlace),
    };
    Bytes::new(alloc, &buffer[..n]).or(Err(End::Memory))
}

// the whole path of a folder that can be entered
fn entered(rt: &HostRuntime, alloc: Global, path: &[u8]) -> Result<Line, End> {
    let Ok(path) = std::str::from_utf8(path) else {
        return Err(End::NoPlace);
    };
    let Ok(inside) = format!(in alloc; "{path}/.") else {
        return Err(End::Memory);
    };
    let (Ok(_), Ok(whole)) = (
        fs::metadata(rt, inside.as_str()),
        fs::canonicalize(&(rt, alloc), path),
    ) else {
        return Err(End::NoPlace);
    };
    place(alloc, whole.as_str().as_bytes())
}

// the path of the folder of stored files, as it is told
fn place_of(rt: &HostRuntime, alloc: Global, stored: &Bytes) -> Result<Line, End> {
    if !stored.bytes().is_empty() {
        return entered(rt, alloc, stored.bytes());
    }
    let mut buffer = [0; PLACE_ROOM];
    match rt.current_dir(&mut buffer) {
        Ok(n) => place(alloc, &buffer[..n]),
        Err(_) => Err(End::NoPlace),
    }
}

fn serve(rt: HostRuntime) -> Result<Answer, End> {
    // A standard stream that was closed leaves its number to the next file that is opened, which would be read or
    // written in its place. A folder takes the number until the end, of which neither can be done.
    let _numbers = [
        fs::open(&rt, ROOT),
        fs::open(&rt, ROOT),
        fs::open(&rt, ROOT),
    ];
    let alloc = rt.alloc();
    let words = words_of(&rt, alloc)?;
    let moment = moment_of(&rt)?;
    let login = login_of(&rt);
    let stored = stored_of(&rt, alloc)?;
    let place = place_of(&rt, alloc, &stored)?;
    let stamp = Stamp { moment, login };
    let mut input = StdSource::new(rt.stdin());
    let mut out = StdSink::new(rt.stdout());
    let mut err = StdErrSink::new(rt.stderr());
    let Ok(mut disk) = FolderDisk::with_stored(alloc, rt, stored.bytes()) else {
        return Err(End::Memory);
    };
    Ok(run(
        alloc, &words, &stamp, &place, &mut input, &mut out, &mut err, &mut disk,
    ))
}

fn main(rt: HostRuntime) -> ExitCode {
    if let Some(line) = telling(&rt) {
        return match rt.println(line) {
            Ok(()) => ExitCode::SUCCESS,
            Err(_) => ExitCode::from(133),
        };
    }
    let end = match serve(rt) {
        Ok(Answer::Finished { status }) => End::Status(status),
        Ok(Answer::Memory) => End::Memory,
        Ok(Answer::ReadFault) => End::ReadFault,
        Ok(Answer::WriteFault) => End::WriteFault,
        Ok(Answer::DiskFault) => End::DiskFault,
        Err(end) => end,
    };
    let (status, words) = end.meaning();
    if let Some(words) = words {
        let _ = rt.eprintln(words);
    }
    ExitCode::from(status)
}
