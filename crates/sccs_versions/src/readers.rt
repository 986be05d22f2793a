ghost use Rattle.std.specs.Prelude.{◌≡◌, ◌≢◌, ◌++◌, [], false, ◌<◌, ◌≤◌, ℕ, List, Option, length, take, Some, Ok, Err};
ghost use Rattle.std.specs.Prelude.{IfOk, IsTrue};
ghost use Rattle.sccs_base.specs.Cut.{cut};
ghost use Rattle.sccs_disk.specs.Told.{seen};
ghost use Rattle.sccs_grammar.specs.declared.faults.FileFault.TheVariants as faults;
ghost use Rattle.sccs_history.specs.Body.{HistoryLine, lines_of};
ghost use Rattle.sccs_history.specs.Applied.{live_serials};
ghost use Rattle.sccs_history.specs.Numbers.{has};
ghost use Rattle.sccs_history.specs.declared.headers.Item.{Item};
ghost use Rattle.sccs_table.specs.FrontFile.{IsFirst, ReadsDisk};
ghost use Rattle.sccs_table.specs.ReaderState.{bytes_in};
ghost use Rattle.sccs_table.specs.Runs.{lf_count};
ghost use Rattle.sccs_body.specs.Reader.{bytes_left};
ghost use Rattle.sccs_body.specs.ToCome.{HasChanged};
ghost use Rattle.sccs_versions.specs.Regions.{Holds};
ghost use Rattle.sccs_versions.specs.Coming.{ComeFirst, Coming, GivesNextLine, IsBody, ShowsItem, StandFirst, shown};
ghost use Rattle.sccs_versions.specs.Place.{AreShown, IsInserter, KeepsFirst, bytes_held, name_of, steps_to_end};
ghost use Rattle.sccs_versions.specs.WasRead.{HasRead, ReadsNext, ReadsOn};
ghost use Rattle.sccs_versions.specs.declared.readers.Next.TheVariants as next;

use crate::weavers::Weaver;
use sccs_base::{Line, Memory, Name};
use sccs_body::{Item, ItemReader};
use sccs_disk::Disk;
use sccs_grammar::FileFault;
use sccs_sets::Applied;
use sccs_table::Front;
use std::alloc::Global;
use std::marker::Model;

/// What comes next in the body that a version is read from.
#[derive(Drop)]
pub enum Next {
    /// A line that the set shows.
    Line(Line),
    /// Nothing of what was read is shown, or no line or mark was taken yet.
    Hidden,
    /// The end of the body.
    End,
}

/// Gives the lines of a version: runs of lines that stand together (`texts`, `pass`), and others one
/// by one (`next`). Contracts see the set, where the items are read, and what is open there.
#[derive(Drop)]
pub struct VersionReader<'a> {
    set: &'a Applied,
    items: ItemReader,
    weaver: Weaver,
}

impl<'a> Model for VersionReader<'a> {
    ghost use Rattle.sccs_versions.specs.Place.{VersionPlace};

    ghost Value = { VersionPlace };

    ghost view = { λ r. record { set = r.set.now; items = r.items; regions = r.weaver } };

    ghost invariant = { λ r. Unit {0} };
}

// what an item shows of itself; the weaver then stands behind it
#[inline(always)]
fn show_item(weaver: &mut Weaver, set: &Applied, item: Item) -> Result<Next, FileFault>
    ensures shows { (before : List Item) → Holds set.now before weaver.old
        → ShowsItem set.now before item weaver.new result }
    ensures never { result ≢ Err faults.Failed }
    ensures first { IsFirst result }
{
    let Ok(()) = weaver.push_item(&item, set) else {
        return Err(FileFault::Memory);
    };
    match item {
        Item::Text(line) => {
            if weaver.keep() {
                Ok(Next::Line(line))
            } else {
                Ok(Next::Hidden)
            }
        }
        Item::Insert(_) => Ok(Next::Hidden),
        Item::Delete(_) => Ok(Next::Hidden),
        Item::End(_) => Ok(Next::Hidden),
    }
}

impl<'a> VersionReader<'a> {
    /// Before all lines of the version that a set shows of the body that a front names.
    pub fn new(
        alloc: Global,
        name: &Name,
        front: &Front,
        set: &'a Applied,
    ) -> Result<VersionReader<'a>, Memory>
        ensures name { IfOk result (λ r. name_of r ≡ name.now) }
        ensures coming { (told : Option (List ℕ)) (file : List ℕ) (items : List Item)
            → IsBody told front.now set.now file items
            → IfOk result (λ r. Coming file r (shown set.now (lines_of items))) }
        ensures read { IfOk result (λ r. has set.now 0 ≡ false → HasRead (live_serials front.now.header.records) r []) }
        ensures set { IfOk result (λ r. r.set ≡ set.now) }
        ensures size { IfOk result (λ r. r.items.size ≡ front.now.size) }
        ensures sum { IfOk result (λ r. r.items.sum ≡ front.now.sum) }
    {
        let items = ItemReader::new(alloc, name, front)?;
        Ok(VersionReader {
            set,
            items,
            weaver: Weaver::new(alloc),
        })
    }

    /// Lines to come that are held whole, each with its LF; none where the next line isn't shown.
    #[inline(always)]
    pub fn texts(&self) -> &[u8]
        ensures shown { AreShown self.now (length result.now) }
        ensures value { result.now ≡ bytes_held self.now (length result.now) }
        ensures whole { (cut result.now).tail ≡ [] }
        ensures first { (file : List ℕ) (lines : List HistoryLine) → Coming file self.now lines
            → StandFirst self.now result.now lines }
    {
        if self.weaver.keep() {
            self.items.texts()
        } else {
            &[]
        }
    }

    /// The serial of the delta that inserted the lines of `texts`, or the line that `next` gave last.
    pub fn inserter(&self) -> u16
        ensures { IsInserter self.now.regions result }
    {
        self.weaver.inserter()
    }

    /// Passes over so many bytes of lines that `texts` gives.
    #[inline(always)]
    pub fn pass(&mut self, count: usize)
        requires { AreShown self.old count }
        ensures set { self.new.set ≡ self.old.set }
        ensures first { KeepsFirst self.old self.new }
        ensures name { name_of self.new ≡ name_of self.old }
        ensures left { steps_to_end self.new ≤ steps_to_end self.old }
        ensures coming { (file : List ℕ) (lines : List HistoryLine) → Coming file self.old lines
            → ComeFirst file self.old self.new (bytes_held self.old count) lines }
        ensures read { (live : List ℕ) (before : List Item) → HasRead live self.old before
            → ReadsOn live self.new self.old.regions before (cut (bytes_held self.old count)).lines }
    {
        self.items.pass(count);
    }

    // passes over the lines that are held whole, where they aren't shown
    #[inline(always)]
    fn pass_hidden(&mut self)
        ensures set { self.new.set ≡ self.old.set }
        ensures first { KeepsFirst self.old self.new }
        ensures name { name_of self.new ≡ name_of self.old }
        ensures left { steps_to_end self.new ≤ steps_to_end self.old }
        ensures coming { (file : List ℕ) (lines : List HistoryLine) → Coming file self.old lines
            → Coming file self.new lines }
        ensures read { (live : List ℕ) (before : List Item) → HasRead live self.old before
            → ReadsOn live self.new self.old.regions before [] }
    {
        if !self.weaver.keep() {
            let count = self.items.texts().len();
            self.items.pass(count);
        }
    }

    /// How many lines end in so many bytes of lines that `texts` gives.
    #[inline(always)]
    pub fn lines_held(&self, count: usize) -> u64
        requires { AreShown self.now count }
        ensures { result ≡ lf_count (bytes_held self.now count) }
    {
        self.items.lines_held(count)
    }

    // what the next item shows of itself, however its line is spelled and held
    #[inline(never)]
    fn next_item<D: Disk>(&mut self, disk: &mut D) -> Result<Next, FileFault>
        ensures frame { ReadsDisk D.told D.faults disk.old disk.new result }
        ensures changed { HasChanged self.old.items result }
        ensures set { self.new.set ≡ self.old.set }
        ensures first { KeepsFirst self.old self.new }
        ensures name { name_of self.new ≡ name_of self.old }
        ensures further { IfOk result (λ n. n ≢ next.End → bytes_left self.new.items < bytes_left self.old.items) }
        ensures told { (file : List ℕ) (lines : List HistoryLine) → bytes_in (seen (D.told disk.old)) (name_of self.old)
            ≡ Some file
            → Coming file self.old lines → GivesNextLine file self.new lines result }
        ensures read { (live : List ℕ) (before : List Item) → HasRead live self.old before
            → ReadsNext live self.new before result }
    {
        match self.items.next(disk)? {
            Some(item) => show_item(&mut self.weaver, self.set, item),
            None => Ok(Next::End),
        }
    }

    // the same behind lines that aren't shown: an item that is held and read quickly, or more that was
    // read on, or the next item
    #[inline(always)]
    fn next_behind<D: Disk>(&mut self, disk: &mut D) -> Result<Next, FileFault>
        ensures frame { ReadsDisk D.told D.faults disk.old disk.new result }
        ensures changed { HasChanged self.old.items result }
        ensures set { self.new.set ≡ self.old.set }
        ensures first { KeepsFirst self.old self.new }
        ensures name { name_of self.new ≡ name_of self.old }
        ensures further { IfOk result (λ n. n ≢ next.End → steps_to_end self.new < steps_to_end self.old) }
        ensures told { (file : List ℕ) (lines : List HistoryLine) → bytes_in (seen (D.told disk.old)) (name_of self.old)
            ≡ Some file
            → Coming file self.old lines → GivesNextLine file self.new lines result }
        ensures read { (live : List ℕ) (before : List Item) → HasRead live self.old before
            → ReadsNext live self.new before result }
    {
        if let Some(item) = self.items.next_control() {
            return show_item(&mut self.weaver, self.set, item);
        }
        if self.items.read_on(disk)? {
            return Ok(Next::Hidden);
        }
        self.next_item(disk)
    }

    /// The next line that the set shows, or that nothing of what was read is shown; the end of the
    /// body. BadFormat has the number of the line at which no item may stand; `Changed` comes as with an
    /// `ItemReader`.
    #[inline(always)]
    pub fn next<D: Disk>(&mut self, disk: &mut D) -> Result<Next, FileFault>
        ensures frame { ReadsDisk D.told D.faults disk.old disk.new result }
        ensures changed { HasChanged self.old.items result }
        ensures set { self.new.set ≡ self.old.set }
        ensures first { KeepsFirst self.old self.new }
        ensures name { name_of self.new ≡ name_of self.old }
        ensures further { IfOk result (λ n. n ≢ next.End → steps_to_end self.new < steps_to_end self.old) }
        ensures told { (file : List ℕ) (lines : List HistoryLine) → bytes_in (seen (D.told disk.old)) (name_of self.old)
            ≡ Some file
            → Coming file self.old lines → GivesNextLine file self.new lines result }
        ensures read { (live : List ℕ) (before : List Item) → HasRead live self.old before
            → ReadsNext live self.new before result }
    {
        self.pass_hidden();
        self.next_behind(disk)
    }
}
