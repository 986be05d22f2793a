ghost use Rattle.std.specs.Prelude.{◌≡◌, ◌∷◌, ℕ, List, [], Err, IfOk, IfSome, OnErr};
ghost use Rattle.sccs_base.specs.Name.{IsSFileName};
ghost use Rattle.sccs_disk.specs.Files.{View};
ghost use Rattle.sccs_disk.specs.Told.{seen};
ghost use Rattle.sccs_name_files.specs.StepFiles.{look};
ghost use Rattle.sccs_history.specs.declared.headers.Item.{Item};
ghost use Rattle.sccs_changes.specs.PFiles.{OnlyReads, PassesCheck};
ghost use Rattle.sccs_sid.specs.declared.refusals.StepFault.TheVariants as faults;
ghost use Rattle.sccs_steps.specs.Actions.{RefusesWithin};
ghost use Rattle.sccs_table.specs.ReaderState.{bytes_in};
ghost use Rattle.sccs_versions.specs.Coming.{IsBody};
ghost use Rattle.sccs_get.specs.VersionStep.{g_is_free, has_its_keywords, is_in_the_way, lines_got, needs_keywords};
ghost use Rattle.sccs_get.specs.VersionStep.{version_checks, writes_g};

use crate::found::Found;
use crate::reports::replaces;
use sccs_base::Name;
use sccs_disk::Disk;
use sccs_flags::has_flag;
use sccs_history::Header;
use sccs_printing::has_keywords;
use sccs_sid::{Refusal, StepFault};
use sccs_store::is_writable_g;
use sccs_table::Front;
use sccs_words::GetWords;
use std::alloc::Global;

/// Whether the text goes into the g-file: without -p and -g.
pub fn writes_g(words: &GetWords) -> bool
    ensures { result ≡ writes_g words.now }
{
    !(words.print || words.no_text)
}

// whether a version must have keywords: they are replaced, and the flag i is set
fn needs_keywords(words: &GetWords, header: &Header) -> bool
    ensures { result ≡ needs_keywords words.now header.now.flags }
{
    replaces(words) && has_flag(header, b'i')
}

/// Refuses a version without keywords, where they are replaced and the flag i is set. POSIX, admin, -f i.
pub fn check_keywords<D: Disk>(
    alloc: Global,
    words: &GetWords,
    name: &Name,
    front: &Front,
    found: &Found,
    disk: &mut D,
) -> Result<(), StepFault>
    ensures told { (file : List ℕ) (items : List Item)
        → IsBody (bytes_in (seen (D.told disk.old)) name.now) front.now found.now.set file items
        → PassesCheck (has_its_keywords words.now front.now.header.flags (lines_got found.now items)) result }
    ensures checks { RefusesWithin version_checks result }
    ensures frame { OnlyReads D.told D.faults disk.old disk.new result }
{
    if !needs_keywords(words, &front.header) {
        return Ok(());
    }
    if has_keywords(alloc, name, front, &found.set, disk)? {
        Ok(())
    } else {
        Err(StepFault::Refused(Refusal::NoKeywords))
    }
}

/// Whether a g-file that may be written is where the text is to go. POSIX get.
pub fn is_in_the_way<D: Disk>(
    words: &GetWords,
    name: &Name,
    disk: &mut D,
) -> Result<bool, StepFault>
    requires { IsSFileName name.now }
    ensures told { IfSome (seen (D.told disk.old)) (λ (v : View). IfOk result (λ b. b ≡ is_in_the_way words.now
        (look v name.now).g)) }
    ensures fault { OnErr result (result ≡ Err faults.DiskFault) }
    ensures frame { OnlyReads D.told D.faults disk.old disk.new result }
{
    if !writes_g(words) {
        return Ok(false);
    }
    match is_writable_g(disk, name) {
        Ok(writable) => Ok(writable),
        Err(_) => Err(StepFault::DiskFault),
    }
}

/// Refuses a g-file that is there and may be written, where the text is to take its place. POSIX get.
pub fn check_g<D: Disk>(words: &GetWords, name: &Name, disk: &mut D) -> Result<(), StepFault>
    requires { IsSFileName name.now }
    ensures told { IfSome (seen (D.told disk.old)) (λ (v : View). PassesCheck (g_is_free words.now (look v name.now).g)
        result) }
    ensures checks { RefusesWithin version_checks result }
    ensures frame { OnlyReads D.told D.faults disk.old disk.new result }
{
    if is_in_the_way(words, name, disk)? {
        Err(StepFault::Refused(Refusal::GExists))
    } else {
        Ok(())
    }
}
