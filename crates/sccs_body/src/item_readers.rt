ghost use Rattle.std.specs.Prelude.{◌≡◌, ℕ, ◌<◌, ◌≤◌, List, [], length, map, Some, Option, Result, true, IfOk, IfSome};
ghost use Rattle.std.specs.Prelude.{OnOk};
ghost use Rattle.sccs_base.specs.Cut.{cut};
ghost use Rattle.sccs_disk.specs.Told.{seen};
ghost use Rattle.sccs_history.specs.Applied.{live_serials};
ghost use Rattle.sccs_history.specs.Body.{may_stand};
ghost use Rattle.sccs_history.specs.declared.headers.Item.TheVariants as items;
ghost use Rattle.sccs_table.specs.FrontFile.{IsFirst, IsOuter, ReadsDisk};
ghost use Rattle.sccs_table.specs.Runs.{HasNoRun, lf_count};
ghost use Rattle.sccs_table.specs.ReaderState.{bytes_in};
ghost use Rattle.sccs_body.specs.BodyFile.{items_of};
ghost use Rattle.sccs_body.specs.ItemsRead.{MovesToItem, GoesOrStays, IsBehind, texts_behind};
ghost use Rattle.sccs_body.specs.Reader.{at_hand, behind_hand, bytes_left, name_read, steps_left};
ghost use Rattle.sccs_body.specs.ToCome.{AgreesAtEnd, BeginsReading, HasChanged, ComesOrStays, EndsReading, GivesNext};
ghost use Rattle.sccs_body.specs.ToCome.{IsFrontFor, MayPass, ReadsNextItem, TextsCome, ToCome, onto};

use crate::body_readers::BodyReader;
use crate::body_states::BodyState;
use sccs_base::{Memory, Name};
use sccs_disk::Disk;
use sccs_grammar::FileFault;
use sccs_history::Item;
use sccs_table::{Front, LineEnds, LineReader, READ_LIMIT};
use std::alloc::Global;
use std::marker::Model;

/// Gives the items of a body in a later reading of its file, one at a time, or text lines in runs. It
/// holds one piece of 4,096 bytes and one line, and adds up all that it reads, the header included.
/// At the end it says whether the file is another than at the first reading.
#[derive(Drop)]
pub struct ItemReader {
    body: BodyReader,
    // the file's size and plain sum at the first reading
    size: u64,
    sum: u16,
}

impl Model for ItemReader {
    ghost use Rattle.sccs_body.specs.Reader.{ItemPlace};
    ghost use Rattle.sccs_body.specs.HeldItems.{item_place, IsWithinFile};

    ghost Value = { ItemPlace };

    ghost view = { item_place };

    ghost invariant = { IsWithinFile };
}

impl ItemReader {
    /// Stands before the file that a front was read from, none of which was read again yet. A front of
    /// no file is cut to the limits of one.
    pub fn new(alloc: Global, name: &Name, front: &Front) -> Result<ItemReader, Memory>
        ensures name { IfOk result (λ r. name_read r ≡ name.now) }
        ensures size { IfOk result (λ r. r.size ≡ front.now.size) }
        ensures sum { IfOk result (λ r. r.sum ≡ front.now.sum) }
        ensures behind { IfOk result (IsBehind (live_serials front.now.header.records) []) }
        ensures told { (file : List ℕ) → IsFrontFor file front.now
            → IfOk result (ToCome file (live_serials front.now.header.records) [] (items_of file front.now)) }
    {
        let state = BodyState::new(alloc, front.header.records.items())?;
        let lines = LineReader::new(name, 0, READ_LIMIT, LineEnds::Asked);
        let first = front.body_line.min(READ_LIMIT + 2);
        Ok(ItemReader {
            body: BodyReader::new(alloc, lines, state, first, front.body_from.min(READ_LIMIT)),
            size: front.size,
            sum: front.sum,
        })
    }

    /// The text lines that are held whole, each with its LF; none where no text line may stand.
    #[inline(always)]
    pub fn texts(&self) -> &[u8]
        ensures may { MayPass self.now (length result.now) }
        ensures value { at_hand self.now (length result.now) ≡ result.now }
        ensures first { (file live : List ℕ) (before : List Item) (found : Result (List Item) ℕ)
            → ToCome file live before found self.now
            → (rest : Result (List Item) ℕ) × (found ≡ onto (map items.Text (cut result.now).lines) rest) }
        ensures longest { (live : List ℕ) (before : List Item) (text : List ℕ) → IsBehind live before self.now
            → may_stand live before (items.Text text) ≡ true → HasNoRun (behind_hand self.now (length result.now)) }
    {
        self.body.texts()
    }

    /// Passes over so many of the bytes of `texts`.
    #[inline(always)]
    pub fn pass(&mut self, count: usize)
        requires { MayPass self.old count }
        ensures name { name_read self.new ≡ name_read self.old }
        ensures size { self.new.size ≡ self.old.size }
        ensures sum { self.new.sum ≡ self.old.sum }
        ensures left { bytes_left self.new ≤ bytes_left self.old }
        ensures steps { steps_left self.new ≤ steps_left self.old }
        ensures behind { (live : List ℕ) (before : List Item) → IsBehind live before self.old
            → IsBehind live (texts_behind (cut (at_hand self.old count)).lines before) self.new }
        ensures told { (file live : List ℕ) (before : List Item) (found : Result (List Item) ℕ)
            → ToCome file live before found self.old
            → TextsCome file live before found (at_hand self.old count) self.new }
    {
        self.body.pass(count);
    }

    /// How many lines end in so many of the bytes of `texts`.
    #[inline(always)]
    pub fn lines_held(&self, count: usize) -> u64
        requires { MayPass self.now count }
        ensures { result ≡ lf_count (at_hand self.now count) }
    {
        self.body.lines_held(count)
    }

    /// The next item, where its line is held whole and is found without reading on; at None nothing was
    /// taken.
    #[inline(always)]
    pub fn next_control(&mut self) -> Option<Item>
        ensures name { name_read self.new ≡ name_read self.old }
        ensures size { self.new.size ≡ self.old.size }
        ensures sum { self.new.sum ≡ self.old.sum }
        ensures left { bytes_left self.new ≤ bytes_left self.old }
        ensures steps { steps_left self.new ≤ steps_left self.old }
        ensures further { IfSome result (λ _. steps_left self.new < steps_left self.old) }
        ensures goes { (live : List ℕ) (before : List Item) → IsBehind live before self.old
            → GoesOrStays live before self.new result }
        ensures told { (file live : List ℕ) (before : List Item) (found : Result (List Item) ℕ)
            → ToCome file live before found self.old
            → ComesOrStays file live before found self.new result }
    {
        if self.body.place() < self.body.body_from() {
            return None;
        }
        self.body.next_control()
    }

    /// Where no line is held whole, reads on behind what is held, as far as there is room for it; true
    /// where one is then. Nothing is taken, and nothing read before the header is read again.
    pub fn read_on<D: Disk>(&mut self, disk: &mut D) -> Result<bool, FileFault>
        ensures frame { ReadsDisk D.told D.faults disk.old disk.new result }
        ensures first { IsFirst result }
        ensures name { name_read self.new ≡ name_read self.old }
        ensures size { self.new.size ≡ self.old.size }
        ensures sum { self.new.sum ≡ self.old.sum }
        ensures outer { IsOuter result }
        ensures left { bytes_left self.new ≡ bytes_left self.old }
        ensures further { IfOk result (λ more. more ≡ true → steps_left self.new < steps_left self.old) }
        ensures goes { (live : List ℕ) (before : List Item) → IsBehind live before self.old
            → IsBehind live before self.new }
        ensures told { (file live : List ℕ) (before : List Item) (found : Result (List Item) ℕ)
            → bytes_in (seen (D.told disk.old)) (name_read self.old) ≡ Some file
            → ToCome file live before found self.old → ToCome file live before found self.new }
    {
        if self.body.place() < self.body.body_from() {
            return Ok(false);
        }
        let more = self.body.read_on(disk)?;
        Ok(more)
    }

    // reads the header again; BadFormat where the file ends within it
    fn begin<D: Disk>(&mut self, disk: &mut D) -> Result<(), FileFault>
        requires { self.old.body.lines.place < self.old.body.from }
        ensures { BeginsReading D.told D.faults disk.old disk.new self.old self.new result }
    {
        self.body.skip_to(disk, self.body.body_from())?;
        if self.body.place() < self.body.body_from() {
            return Err(FileFault::BadFormat(self.body.body_line()));
        }
        Ok(())
    }

    // the next item behind the header
    #[inline(always)]
    fn next_behind<D: Disk>(&mut self, disk: &mut D) -> Result<Option<Item>, FileFault>
        requires { self.old.body.from ≤ self.old.body.lines.place }
        ensures { ReadsNextItem D.told D.faults disk.old disk.new self.old self.new result }
    {
        self.body.next(disk)
    }

    // reads the header again, and then the first item
    #[inline(never)]
    fn first_item<D: Disk>(&mut self, disk: &mut D) -> Result<Option<Item>, FileFault>
        requires { self.old.body.lines.place < self.old.body.from }
        ensures { ReadsNextItem D.told D.faults disk.old disk.new self.old self.new result }
    {
        self.begin(disk)?;
        self.next_behind(disk)
    }

    // the next item, whatever the file was before
    #[inline(always)]
    fn next_read<D: Disk>(&mut self, disk: &mut D) -> Result<Option<Item>, FileFault>
        ensures { ReadsNextItem D.told D.faults disk.old disk.new self.old self.new result }
    {
        if self.body.place() < self.body.body_from() {
            self.first_item(disk)
        } else {
            self.next_behind(disk)
        }
    }

    // reads on to the end of the file; Changed where its size or its sum is another than before
    #[inline(never)]
    fn check_end<D: Disk>(&mut self, disk: &mut D) -> Result<(), FileFault>
        ensures { EndsReading D.told D.faults disk.old disk.new self.old self.new result }
    {
        self.body.skip_to(disk, READ_LIMIT)?;
        let size = self.body.place();
        let sum = self.body.sum();
        let changed = Err(FileFault::Changed(self.size, self.sum, size, sum));
        if size != self.size {
            return changed;
        }
        if sum != self.sum {
            return changed;
        }
        Ok(())
    }

    /// The next item; None at the end of the body. BadFormat has the number of the line at which no
    /// item may stand. In place of these two comes `Changed` where this reading of the whole file,
    /// which isn't read past 1,073,741,825 bytes, found another size or plain sum than the first. A
    /// file that isn't there has no bytes.
    #[inline(always)]
    pub fn next<D: Disk>(&mut self, disk: &mut D) -> Result<Option<Item>, FileFault>
        ensures frame { ReadsDisk D.told D.faults disk.old disk.new result }
        ensures name { name_read self.new ≡ name_read self.old }
        ensures size { self.new.size ≡ self.old.size }
        ensures sum { self.new.sum ≡ self.old.sum }
        ensures further { IfOk result (λ o. IfSome o (λ _. bytes_left self.new < bytes_left self.old)) }
        ensures changed { HasChanged self.old result }
        ensures agrees { AgreesAtEnd self.new result }
        ensures goes { (live : List ℕ) (before : List Item) → IsBehind live before self.old
            → MovesToItem live before self.new result }
        ensures told { (file live : List ℕ) (before : List Item) (found : Result (List Item) ℕ)
            → bytes_in (seen (D.told disk.old)) (name_read self.old) ≡ Some file
            → ToCome file live before found self.old → GivesNext file live before found self.new result }
    {
        match self.next_read(disk) {
            Ok(Some(item)) => Ok(Some(item)),
            Ok(None) => {
                self.check_end(disk)?;
                Ok(None)
            }
            Err(FileFault::BadFormat(line)) => {
                self.check_end(disk)?;
                Err(FileFault::BadFormat(line))
            }
            Err(fault) => Err(fault),
        }
    }
}
