ghost use Rattle.std.specs.Prelude.{◌≡◌, ◌≤◌, ◌⊎◌, ◌||◌, ℕ, true, false, List, drop, Option, Some, Ok, Err, IfOk};
ghost use Rattle.std.specs.Prelude.{IfSome, OnErr, OnOk, IsErr, is_some};
ghost use Rattle.std.specs.List.{AllByRecursion};
ghost use Rattle.std.specs.Str.{bytes_eq};
ghost use Rattle.sccs_base.specs.Name.{IsSFileName, y_file};
ghost use Rattle.sccs_base.specs.Stream.{Rose};
ghost use Rattle.sccs_disk.specs.Calls.{IsThere};
ghost use Rattle.sccs_disk.specs.Files.{View};
ghost use Rattle.sccs_disk.specs.Images.{IsFirm};
ghost use Rattle.sccs_disk.specs.Told.{seen};
ghost use Rattle.sccs_name_files.specs.StepFiles.{Moves, look};
ghost use Rattle.sccs_name_files.specs.Touches.{Leaves, TouchesOnly};
ghost use Rattle.sccs_sid.specs.Moment.{IsMoment};
ghost use Rattle.sccs_sid.specs.declared.refusals.StepFault.TheVariants as faults;
ghost use Rattle.sccs_steps.specs.Actions.{RefusesWithin};
ghost use Rattle.sccs_steps.specs.Calls.{world};
ghost use Rattle.sccs_steps.specs.Causes.{PrintCauses, StepCauses, counts};
ghost use Rattle.sccs_store.specs.Placing.{PlaceEnds, PlaceStops};
ghost use Rattle.sccs_crash_points.specs.Unlocked.{KeepsOthers};
ghost use Rattle.sccs_store.specs.Commits.{Becomes, MayBecome};
ghost use Rattle.sccs_get.specs.Giving.{FinishesGet, GivesUpGet, PlacesG, Readies, g_placed};
ghost use Rattle.sccs_body.specs.BodyFile.{ShowsFile};
ghost use Rattle.sccs_grammar.specs.File.{Parsed, answer, file_of};
ghost use Rattle.sccs_history.specs.Applied.{serials_of};
ghost use Rattle.sccs_history.specs.History.{HasSpelling, IsHeader};
ghost use Rattle.sccs_history.specs.Numbers.{Falls, has};
ghost use Rattle.sccs_keywords.specs.Expansion.{HasMoments};
ghost use Rattle.sccs_table.specs.FrontFile.{IsPlaced};
ghost use Rattle.sccs_changes.specs.PFiles.{OnlyReads};
ghost use Rattle.sccs_changes.specs.Pending.{bytes_at};
ghost use Rattle.sccs_get.specs.Located.{AnswersLocated};
ghost use Rattle.sccs_get.specs.VersionStep.{found_version, get_action, get_effect, lines_got, says_well};
ghost use Rattle.sccs_get.specs.VersionStep.{version_checks, writes_g};
ghost use Rattle.sccs_get.specs.Keeps.{get_keeps};
ghost use Rattle.sccs_get.specs.Reports.{replaces_keywords};
ghost use Rattle.sccs_get.specs.Whole.{GivesAsked};
ghost use Rattle.sccs_disk.specs.Causes.{DiskCauses};

use crate::checks::{check_g, check_keywords, writes_g};
use crate::found::{Found, find_version};
use crate::giving::give_version;
use crate::reports::said;
use crate::summaries::{give_summary, writes_l};
use sccs_base::{Line, Name, Sink, Source};
use sccs_body::inspect;
use sccs_changes::{Prepared, report};
use sccs_disk::Disk;
use sccs_sid::{Stamp, StepFault};
use sccs_steps::Utility;
use sccs_store::{NewG, NewP, clear_sibling, place_g};
use sccs_table::Front;
use sccs_words::GetWords;
use std::alloc::Global;

/// get on a name, without -e: the text of a version goes to standard output with -p, nowhere with -g, and else
/// into the g-file. It refuses an s-file that can't be read, a SID or lists that name no live deltas, a version
/// without keywords where the flag i is set, and a g-file that may be written. POSIX, Shell and Utilities, get.
#[derive(Drop)]
pub struct Get<'a> {
    pub words: &'a GetWords,
    pub stamp: &'a Stamp,
    /// The folder's path.
    pub place: &'a Line,
    /// Whether a heading stands before the report.
    pub heading: bool,
    ghost valid: { IsMoment stamp.now.moment },
}

/// What is found for a get: the file's front, and the version.
#[derive(Drop)]
pub struct Located {
    pub front: Front,
    pub found: Found,
}

// makes all checks, and finds the version
fn locate<D: Disk>(
    alloc: Global,
    get: &Get<'_>,
    name: &Name,
    disk: &mut D,
) -> Result<Located, StepFault>
    requires { IsSFileName name.now }
    ensures told { IfSome (seen (D.told disk.old)) (λ (v : View). AnswersLocated get.now.words.now get.now.stamp.now
        get.now.place.now name.now (look v name.now) result) }
    ensures rules { IfOk result (λ l. IsHeader l.front.header) }
    ensures spelled { IfOk result (λ l. AllByRecursion HasSpelling l.front.header.records) }
    ensures table { IfOk result (λ l. Falls 65536 (serials_of l.front.header.records)) }
    ensures placed { IfOk result (λ l. IsPlaced l.front) }
    ensures no_zero { IfOk result (λ l. has l.found.set 0 ≡ false) }
    ensures facts { IfOk result (λ l. IfSome l.found.facts HasMoments) }
    ensures replaced { IfOk result (λ l. is_some l.found.facts ≡ replaces_keywords get.now.words.now) }
    ensures found { IfOk result (λ l. found_version get.now.words.now get.now.stamp.now get.now.place.now name.now
        l.front.header ≡ Ok l.found) }
    ensures checks { RefusesWithin version_checks result }
    ensures frame { OnlyReads D.told D.faults disk.old disk.new result }
{
    let front = inspect(alloc, disk, name)?;
    let header = &front.header;
    let found = find_version(alloc, get.words, get.stamp, get.place, name, header)?;
    check_keywords(alloc, get.words, name, &front, &found, disk)?;
    check_g(get.words, name, disk)?;
    Ok(Located { front, found })
}

// makes all but the g-file behind the checks: the text, and what is said behind it
fn ready<O: Sink, D: Disk>(
    alloc: Global,
    get: &Get<'_>,
    name: &Name,
    located: &Located,
    out: &mut O,
    disk: &mut D,
) -> Result<Prepared, StepFault>
    requires sfile { IsSFileName name.now }
    requires rules { IsHeader located.now.front.header }
    requires table { Falls 65536 (serials_of located.now.front.header.records) }
    requires placed { IsPlaced located.now.front }
    requires no_zero { has located.now.found.set 0 ≡ false }
    requires facts { IfSome located.now.found.facts HasMoments }
    requires replaced { is_some located.now.found.facts ≡ replaces_keywords get.now.words.now }
    requires found { found_version get.now.words.now get.now.stamp.now get.now.place.now name.now
        located.now.front.header ≡ Ok located.now.found }
    ensures readies { (parsed : Parsed) (err : Option (List ℕ)) → IfSome (seen (D.told disk.old))
        (λ (v : View). ShowsFile (bytes_at (v name.now)) parsed located.now.front
        → (answer file_of (bytes_at (v name.now)) ≡ Ok parsed)
        → Readies get.now.words.now name.now
        (Ok (get_effect get.now.words.now get.now.heading name.now parsed.header.records
        (look v name.now) located.now.found (lines_got located.now.found parsed.items))) result
        (world (Some v) (O.given out.old) err) (world (seen (D.told disk.new)) (O.given out.new) err)) }
    ensures moves { Moves (bytes_eq (y_file name.now)) (λ v. v) (seen (D.told disk.old)) (seen (D.told disk.new)) }
    ensures there { OnOk result (writes_g get.now.words.now ≡ true → IsThere (y_file name.now) (D.told disk.new)) }
    ensures touches { TouchesOnly (bytes_eq (y_file name.now)) (D.told disk.old) (D.told disk.new) }
    ensures firm { OnOk result (writes_g get.now.words.now ≡ true → Leaves (IsFirm (y_file name.now)) (D.told disk.old)
        (D.told disk.new)) }
    ensures same { writes_g get.now.words.now ≡ false → D.told disk.new ≡ D.told disk.old }
    ensures whole { IfOk result (λ p. get.now.words.now.no_text ≡ false
        → GivesAsked get.now.words.now get.now.stamp.now get.now.place.now get.now.heading name.now p (O.given out.old)
        (O.given out.new) (seen (D.told disk.new))) }
    ensures says { IfOk result (λ p. says_well get.now.words.now p.message ≡ true) }
    ensures checks { RefusesWithin version_checks result }
    ensures causes { PrintCauses result (O.faults out.old) (O.faults out.new) (D.faults disk.old) (D.faults disk.new) }
{
    let Located { front, found } = located;
    let shown = give_version(alloc, get.words, name, front, found, out, disk)?;
    match said(alloc, get.words, get.heading, name, found, None, shown) {
        Ok(said) => Ok(Prepared {
            new_s: false,
            new_p: NewP::Keep,
            new_g: NewG::Keep,
            report: said.out,
            message: said.err,
        }),
        Err(_) => Err(StepFault::Memory),
    }
}

// puts the y-file in the place of the g-file, where there is a text for it
fn place<D: Disk>(words: &GetWords, name: &Name, disk: &mut D) -> Result<(), StepFault>
    requires sfile { IsSFileName name.now }
    requires there { writes_g words.now ≡ true → IsThere (y_file name.now) (D.told disk.old) }
    ensures view { OnOk result (Becomes (g_placed words.now name.now) (seen (D.told disk.old))
        (seen (D.told disk.new))) }
    ensures halfway { OnErr result (MayBecome (g_placed words.now name.now) (seen (D.told disk.old))
        (seen (D.told disk.new))) }
    ensures stopped { OnErr result (PlaceStops name.now (drop 2 name.now) (D.told disk.old) (D.told disk.new)) }
    ensures calm { OnOk result (writes_g words.now ≡ true → PlaceEnds name.now (drop 2 name.now) (D.told disk.old)
        (D.told disk.new)) }
    ensures others { KeepsOthers (λ k. bytes_eq (y_file name.now) k || bytes_eq (drop 2 name.now) k) (D.told disk.old)
        (D.told disk.new) }
    ensures same { writes_g words.now ≡ false → D.told disk.new ≡ D.told disk.old }
    ensures fault { OnErr result (result ≡ Err faults.DiskFault) }
    ensures causes { DiskCauses (IsErr result) (D.faults disk.old) (D.faults disk.new) }
{
    if !writes_g(words) {
        return Ok(());
    }
    match place_g(disk, name) {
        Ok(()) => Ok(()),
        Err(_) => Err(StepFault::DiskFault),
    }
}

// places the g-file, where there is one, and says what is to be said
fn finish<O: Sink, E: Sink, D: Disk>(
    words: &GetWords,
    prepared: &Prepared,
    name: &Name,
    out: &mut O,
    err: &mut E,
    disk: &mut D,
) -> Result<(), StepFault>
    requires sfile { IsSFileName name.now }
    requires there { writes_g words.now ≡ true → IsThere (y_file name.now) (D.told disk.old) }
    ensures finishes { FinishesGet words.now name.now prepared.now result
        (world (seen (D.told disk.old)) (O.given out.old) (E.given err.old)) (world (seen (D.told disk.new))
        (O.given out.new) (E.given err.new)) }
    ensures places { PlacesG words.now name.now result (D.told disk.old) (D.told disk.new) }
    ensures others { KeepsOthers (λ k. bytes_eq (y_file name.now) k || bytes_eq (drop 2 name.now) k) (D.told disk.old)
        (D.told disk.new) }
    ensures same { writes_g words.now ≡ false → D.told disk.new ≡ D.told disk.old }
    ensures causes { (input : ℕ) → StepCauses result
        (counts input (O.faults out.old) (E.faults err.old) (D.faults disk.old)) (counts input (O.faults out.new)
        (E.faults err.new) (D.faults disk.new)) }
{
    place(words, name, disk)?;
    report(prepared, out, err)
}

// takes away the y-file, where one was made, and answers why get gave up; after a disk fault recovery does that
fn give_up<D: Disk>(
    has_y: bool,
    fault: StepFault,
    name: &Name,
    disk: &mut D,
) -> Result<(), StepFault>
    requires { IsSFileName name.now }
    ensures gives_up { GivesUpGet has_y name.now fault result (seen (D.told disk.old)) (seen (D.told disk.new)) }
    ensures touches { TouchesOnly (bytes_eq (y_file name.now)) (D.told disk.old) (D.told disk.new) }
    ensures same { has_y ≡ false → D.told disk.new ≡ D.told disk.old }
    ensures later { D.faults disk.old ≤ D.faults disk.new }
    ensures cause { result ≡ Err faults.DiskFault → (fault ≡ faults.DiskFault) × (D.faults disk.new ≡ D.faults disk.old)
        ⊎ Rose (D.faults disk.old) (D.faults disk.new) }
{
    if let StepFault::DiskFault = fault {
        return Err(fault);
    }
    if !has_y {
        return Err(fault);
    }
    match clear_sibling(disk, name, b'y') {
        Ok(()) => Err(fault),
        Err(_) => Err(StepFault::DiskFault),
    }
}

impl Utility for Get<'_> {
    ghost action = { λ get. get_action get.words.now get.stamp.now get.place.now get.heading };

    ghost keeps = { λ get. get_keeps get.words.now get.stamp.now get.place.now get.heading };

    fn step<I: Source, O: Sink, E: Sink, D: Disk>(
        &self,
        alloc: Global,
        name: &Name,
        _input: &mut I,
        out: &mut O,
        err: &mut E,
        disk: &mut D,
    ) -> Result<(), StepFault> {
        let words = self.words;
        let located = locate(alloc, self, name, disk)?;
        let (front, found) = (&located.front, &located.found);
        if let Err(fault) = give_summary(alloc, words, name, front, found, out, disk) {
            return give_up(writes_l(words), fault, name, disk);
        }
        match ready(alloc, self, name, &located, out, disk) {
            Ok(prepared) => finish(words, &prepared, name, out, err, disk),
            Err(fault) => give_up(writes_g(words), fault, name, disk),
        }
    }

    fn name(&self, operand: &[u8]) -> Option<Name> {
        Name::read_sfile(operand)
    }

    fn takes_input(&self) -> bool {
        false
    }
}
