ghost use Rattle.std.specs.Prelude.{◌≡◌, ◌+◌, ◌<◌, ◌≤◌, suc, length, IfOk};
ghost use Rattle.sccs_sid.specs.SidLists.{begins};
ghost use Rattle.sccs_trunks.specs.Changes.{fits, last_of, taken_by};
ghost use Rattle.sccs_trunks.specs.declared.revisions.ScriptCommand.TheVariants.{Delete};
ghost use Rattle.sccs_trunks.specs.Lengths.{IsPlace, ReadsLine, checked, struck_by};

use crate::commands::command_of;
use crate::revisions::ScriptCommand;
use sccs_base::{Line, SOH};

/// Where the reading of a script stands: the last line of the text that is behind it, how many
/// more lines of the script come after that line, and how many lines the text has got and lost.
#[derive(Clone, Copy)]
pub struct ScriptPlace {
    pub last: u64,
    pub taken: u64,
    pub added: u64,
    pub struck: u64,
}

// whether lines may be deleted from a text of so many, where those up to `last` are behind
fn deletes_within(line: u64, count: u64, lines: u64, last: u64) -> bool
    requires { lines < 4611686018427387904 }
    ensures { result ≡ fits lines last 0 (Delete line count) }
{
    0 < count && last < line && count <= lines && line <= lines + 1 - count
}

// whether a command fits a text of so many lines at a place, where so many lines of the script follow
fn fits(command: &ScriptCommand, lines: u64, last: u64, left: u64) -> bool
    requires { lines < 4611686018427387904 }
    ensures { result ≡ fits lines last left command.now }
{
    match *command {
        ScriptCommand::Delete { line, count } => deletes_within(line, count, lines, last),
        ScriptCommand::Add { line, count } => {
            0 < count && last <= line && line <= lines && count <= left
        }
    }
}

// whether a line begins with SOH
fn begins_soh(line: &[u8]) -> bool
    ensures { result ≡ begins 1 line.now }
{
    match line {
        [first, ..] => *first == SOH,
        [] => false,
    }
}

// behind a command that fits
fn behind_command(place: ScriptPlace, command: &ScriptCommand) -> ScriptPlace
    requires low { place.last < 4611686018427387904 }
    requires end { last_of command.now < 4611686018427387904 }
    requires struck { place.struck ≤ place.last }
    ensures last { result.last ≡ last_of command.now }
    ensures taken { result.taken ≡ taken_by command.now }
    ensures added { result.added ≡ place.added }
    ensures struck { result.struck ≡ place.struck + struck_by command.now }
{
    match *command {
        ScriptCommand::Delete { line, count } => ScriptPlace {
            last: (line + count).saturating_sub(1),
            taken: 0,
            added: place.added,
            struck: place.struck + count,
        },
        ScriptCommand::Add { line, count } => ScriptPlace {
            last: line,
            taken: count,
            added: place.added,
            struck: place.struck,
        },
    }
}

// what a line says at a place, where so many lines follow it
fn read_line(place: ScriptPlace, lines: u64, line: &[u8], left: u64) -> Option<ScriptPlace>
    requires lines { lines < 4611686018427387904 }
    requires place { IsPlace lines (suc left) place }
    ensures { ReadsLine lines left place line.now result }
{
    if begins_soh(line) {
        return None;
    }
    if 0 < place.taken {
        return Some(ScriptPlace {
            last: place.last,
            taken: place.taken - 1,
            added: place.added + 1,
            struck: place.struck,
        });
    }
    let command = command_of(line)?;
    if !fits(&command, lines, place.last, left) {
        return None;
    }
    Some(behind_command(place, &command))
}

/// How many lines a script makes of a text of so many; Err has the number of its first line at
/// fault, from 1: one that begins with SOH, one that is no fit command where one must stand, or a
/// command whose lines run out.
pub fn check_script(script: &[Line], lines: u64) -> Result<u64, u64>
    requires lines { lines < 4611686018427387904 }
    requires script { length script.now < 4611686018427387904 }
    ensures value { result ≡ checked lines script.now }
    ensures few { IfOk result (λ n. n ≤ lines + length script.now) }
{
    let mut place = ScriptPlace {
        last: 0,
        taken: 0,
        added: 0,
        struck: 0,
    };
    let mut rest = script;
    'lines: while let Some((line, behind)) = rest.split_first() {
        let Some(next) = read_line(place, lines, line.bytes(), behind.len() as u64) else {
            return Err((script.len() - behind.len()) as u64);
        };
        place = next;
        rest = behind;
    }
    Ok(lines + place.added - place.struck)
}
