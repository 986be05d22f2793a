use crate::tests::commands::{Command, Histories, Version, draw};
use crate::tests::draws::Draws;
use crate::tests::runs::{
    Files, Line, NAMES, Ran, copy_of, no_files, run_faulted, run_stopped, run_whole,
};
use std::alloc::Global;
use std::test::Fail;

const COMMANDS: u64 = 300;

// about as many calls as a run of four operands makes
const CALLS: u64 = 60;

/// Files that the commands so far have left, and their versions by the scripts.
#[derive(Drop)]
struct Session {
    files: Files,
    known: Histories,
    draws: Draws,
}

// the files behind each first part of a command's operands, each operand in a run of its own; of a single one those of
// its run
fn states(
    alloc: Global,
    command: &Command,
    time: &[u8],
    files: &Files,
    whole: &Files,
) -> Result<Vec<Files>, Fail> {
    let mut states: Vec<Files> = Vec::new(alloc);
    if command.operands.len() == 1 {
        states.push(copy_of(alloc, whole)?)?;
        return Ok(states);
    }
    for place in &command.operands {
        let words = command.line(alloc, &[*place])?;
        let line = Line {
            words: &words,
            input: &command.input,
            time,
        };
        let ran = run_whole(alloc, &line, states.last().unwrap_or(files))?;
        states.push(ran.files)?;
    }
    Ok(states)
}

// how many of the operands' steps are among those of which a byte was reported: their headings begin before the end
fn acknowledged(alloc: Global, command: &Command, whole: &[u8], out: &[u8]) -> Result<usize, Fail> {
    if command.operands.len() == 1 {
        return Ok(if out.is_empty() { 0 } else { 1 });
    }
    let mut count: usize = 0;
    let mut steps: usize = 0;
    for place in &command.operands {
        steps = steps.saturating_add(1);
        let mut heading = b"\ns.".to_vec(alloc)?;
        heading.extend_from_slice(NAMES.get(*place).ok_or("a name")?)?;
        heading.extend_from_slice(b":\n")?;
        if let Some(at) = whole
            .windows(heading.len())
            .position(|it| it == heading.as_slice())
        {
            if at < out.len() {
                count = steps;
            }
        }
    }
    Ok(count)
}

impl Session {
    // the command stopped or at a fault, in each third turn
    fn run_partly(&mut self, alloc: Global, line: &Line, number: u64) -> Result<Option<Ran>, Fail> {
        match number % 6 {
            2 => {
                let calls = self.draws.below(CALLS);
                let ran = run_stopped(alloc, &mut self.draws, line, &self.files, calls)?;
                Ok(Some(ran))
            }
            5 => {
                let call = self.draws.below(CALLS).saturating_add(1);
                Ok(Some(run_faulted(alloc, line, &self.files, call)?))
            }
            _ => Ok(None),
        }
    }

    // whether the next command leaves the files as behind its steps, or, stopped, as behind some first ones, all that
    // were reported among them
    fn goes_on(&mut self, alloc: Global, number: u64) -> Result<bool, Fail> {
        let time = format!(in alloc; "05:{:02}:{:02}", number / 60 % 60, number % 60)?;
        let command = draw(alloc, &mut self.draws, &self.files, &self.known, number)?;
        let words = command.line(alloc, &command.operands)?;
        let line = Line {
            words: &words,
            input: &command.input,
            time: time.as_bytes(),
        };
        let whole = run_whole(alloc, &line, &self.files)?;
        let states = states(alloc, &command, time.as_bytes(), &self.files, &whole.files)?;
        let is_right = whole.is_tidy && whole.files == *states.last().unwrap_or(&self.files);
        match self.run_partly(alloc, &line, number)? {
            Some(ran) => {
                let told = acknowledged(
                    alloc,
                    &command,
                    whole.seen.out.bytes(),
                    ran.seen.out.bytes(),
                )?;
                let made = self.steps_made(&states, &ran.files, told);
                self.take(command, ran.files, made.unwrap_or(0))?;
                Ok(is_right && (ran.is_tidy && made.is_some()))
            }
            None => {
                self.take(command, whole.files, states.len())?;
                Ok(is_right)
            }
        }
    }

    // how many steps these files stand behind, at least so many
    fn steps_made(&self, states: &Vec<Files>, files: &Files, least: usize) -> Option<usize> {
        let later = states.iter().rposition(|it| it == files);
        match later {
            Some(place) if place.saturating_add(1) >= least => Some(place.saturating_add(1)),
            _ if least == 0 && *files == self.files => Some(0),
            _ => None,
        }
    }

    // the files are taken over, and the version that was made is known from now on
    fn take(&mut self, command: Command, files: Files, made: usize) -> Result<(), Fail> {
        let is_changed = files != self.files;
        self.files = files;
        if let (Some(version), Some(place)) = (command.adds, command.operands.first()) {
            if made > 0 && is_changed {
                self.known
                    .get_mut(*place)
                    .ok_or("a history")?
                    .push(version)?;
            }
        }
        Ok(())
    }

    // whether each version is its replay
    fn is_replayed(&self, alloc: Global) -> Result<bool, Fail> {
        for (module, history) in NAMES.iter().zip(&self.known) {
            for version in history {
                if !is_version(alloc, &self.files, module, version)? {
                    return Ok(false);
                }
            }
        }
        Ok(true)
    }
}

// whether get gives the version
fn is_version(
    alloc: Global,
    files: &Files,
    module: &[u8],
    version: &Version,
) -> Result<bool, Fail> {
    let mut words = b"get -k -p -s -r".to_vec(alloc)?;
    words.extend_from_slice(&version.sid)?;
    words.extend_from_slice(b" s.")?;
    words.extend_from_slice(module)?;
    let line = Line {
        words: &words,
        input: b"",
        time: b"06:00:00",
    };
    Ok(
        run_whole(alloc, &line, files)?
            .seen
            .is(0, &version.text, b""),
    )
}

fn empty_session(alloc: Global, seed: u64) -> Result<Session, Fail> {
    let mut known = Vec::new(alloc);
    for _ in NAMES {
        known.push(Vec::new(alloc))?;
    }
    Ok(Session {
        files: no_files(alloc)?,
        known,
        draws: Draws::new(seed),
    })
}

// whether each command of a session leaves what it may
fn goes_through(alloc: Global, session: &mut Session) -> Result<bool, Fail> {
    for number in 0..COMMANDS {
        if !session.goes_on(alloc, number)? {
            return Ok(false);
        }
    }
    Ok(true)
}

// how many versions were made
fn versions(known: &Histories) -> usize {
    let mut count: usize = 0;
    for history in known {
        count = count.saturating_add(history.len());
    }
    count
}

// whether a session goes through, makes enough versions, and each is its replay
fn is_right(alloc: Global, session: &mut Session) -> Result<bool, Fail> {
    let through = goes_through(alloc, session)?;
    let replayed = session.is_replayed(alloc)?;
    let enough = versions(&session.known) >= 60;
    Ok(through & replayed & enough)
}

#[test]
fn versions_are_their_replay(rt: HostRuntime) -> Result<(), Fail> {
    let alloc = rt.alloc();
    let mut session = empty_session(alloc, 1)?;
    let right = is_right(alloc, &mut session)?;
    assert!(rt; right);
    Ok(())
}
