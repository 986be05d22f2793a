ghost use Rattle.std.specs.Prelude.{◌≡◌, ℕ, ◌==◌, ◌&&◌, ◌<◌, not, [], ◌∷◌, None, false, true, length, slice_index_or};
ghost use Rattle.std.specs.Prelude.{slice_set, option_map, unwrap_or, if◌then◌else◌};
ghost use Rattle.sccs_history.specs.Applied.{is_barred, listed};
ghost use Rattle.sccs_sets.specs.Marks.{or_else, said_by};

use sccs_history::Record;
use sccs_sid::Moment;

/// One more than the greatest serial.
pub const SERIALS: usize = 65536;

// marks a number that has no mark yet
fn mark(marks: &mut [Option<bool>], number: u16, value: bool)
    ensures sized { length marks.new ≡ length marks.old }
    ensures said { (n : ℕ) → n < length marks.old → slice_index_or marks.new n None
        ≡ or_else (slice_index_or marks.old n None) (said_by (number ∷ []) value n) }
{
    let at = usize::from(number);
    if at < marks.len() && marks[at].is_none() {
        marks[at] = Some(value);
    }
}

/// Marks the numbers of a list that have a place and no mark yet.
pub fn mark_list(marks: &mut [Option<bool>], numbers: &[u16], value: bool)
    ensures sized { length marks.new ≡ length marks.old }
    ensures said { (n : ℕ) → n < length marks.old → slice_index_or marks.new n None
        ≡ or_else (slice_index_or marks.old n None) (said_by numbers.now value n) }
{
    for number in numbers {
        mark(marks, *number, value);
    }
}

/// Whether a record is applied, by the marks of those above it and the wanted serial of the path.
pub fn is_applied(
    delta: &Record,
    marks: &[Option<bool>],
    wanted: u16,
    cutoff: Option<Moment>,
) -> bool
    requires { delta.now.serial < length marks.now }
    ensures { result ≡ (not (is_barred (option_map (λ m. m.seconds) cutoff) delta.now)
        && unwrap_or (slice_index_or marks.now delta.now.serial None) (delta.now.serial == wanted)) }
{
    let late = match cutoff {
        Some(last) => last.seconds < delta.moment.seconds,
        None => false,
    };
    !(delta.removed || late) && marks[usize::from(delta.serial)].unwrap_or(delta.serial == wanted)
}

/// Applies a record: sets its place, and marks what its lists name.
pub fn apply_delta(delta: &Record, marks: &mut [Option<bool>], set: &mut [bool])
    requires { delta.now.serial < length set.old }
    ensures sized { length marks.new ≡ length marks.old }
    ensures marks { (n : ℕ) → n < length marks.old → slice_index_or marks.new n None
        ≡ or_else (slice_index_or marks.old n None) (listed delta.now.include delta.now.exclude n None) }
    ensures set { set.new ≡ slice_set set.old delta.now.serial true }
{
    set[usize::from(delta.serial)] = true;
    mark_list(marks, delta.include.items(), true);
    mark_list(marks, delta.exclude.items(), false);
}

/// The next serial of the path.
pub fn next_wanted(delta: &Record, wanted: u16) -> u16
    ensures { result ≡ (if delta.now.serial == wanted then delta.now.predecessor else wanted) }
{
    if delta.serial == wanted {
        delta.predecessor
    } else {
        wanted
    }
}

/// Whether a place is set.
pub fn is_set(set: &[bool], serial: u16) -> bool
    ensures { result ≡ slice_index_or set.now serial false }
{
    set.get(usize::from(serial)).copied().unwrap_or(false)
}
