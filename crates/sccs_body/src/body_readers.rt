ghost use Rattle.std.specs.Prelude.{◌≡◌, ◌≢◌, ◌&&◌, ℕ, ◌+◌, ◌<◌, ◌≤◌, List, [], ◌∷◌, length, max, min, take, drop};
ghost use Rattle.std.specs.Prelude.{true, Option, None, Some, IfOk, IfSome, OnOk, Ok, Err};
ghost use Rattle.sccs_base.specs.Cut.{HasNoLf, cut};
ghost use Rattle.sccs_disk.specs.Told.{seen};
ghost use Rattle.sccs_tokens.specs.Items.{IsWrittenItem};
ghost use Rattle.sccs_history.specs.Numbers.{is_empty};
ghost use Rattle.sccs_history.specs.Body.{is_over, may_stand};
ghost use Rattle.sccs_history.specs.declared.headers.Item.TheVariants as items;
ghost use Rattle.sccs_body.specs.States.{Knows};
ghost use Rattle.sccs_table.specs.FrontFile.{IsFirst, ReadsBytes, ReadsOn};
ghost use Rattle.sccs_table.specs.Runs.{HasNoRun, IsRun, PassesRun, lf_count};
ghost use Rattle.sccs_table.specs.ReaderState.{StandsIn, Stays, bytes_in};
ghost use Rattle.sccs_base.specs.Stream.{Rose};
ghost use Rattle.sccs_body.specs.ItemsRead.{GivesBodyItem, GoesBehind, HasBehind, IsFormat, IsFormatAt, ReadsItemLine};
ghost use Rattle.sccs_body.specs.ItemsRead.{texts_behind};
ghost use Rattle.sccs_body.specs.Reader.{KeepsBody, number_of_line};

use crate::body_states::BodyState;
use sccs_base::{Failed, Memory};
use sccs_disk::Disk;
use sccs_grammar::FileFault;
use sccs_history::Item;
use sccs_table::LineReader;
use sccs_tokens::{read_item, written_item};
use std::alloc::Global;
use std::marker::Model;

/// Gives the items of the body in which a reader of lines stands, one line at a time. Contracts see
/// where the next line stands, what the items so far leave open, and the number and the place of the
/// body's first line.
#[derive(Drop)]
pub struct BodyReader {
    alloc: Global,
    lines: LineReader,
    state: BodyState,
    // the number and the place of the body's first line
    first: u64,
    from: u64,
}

impl Model for BodyReader {
    ghost use Rattle.sccs_body.specs.Reader.{BodyPlace};
    ghost use Rattle.sccs_body.specs.HeldBody.{body_place, IsCounted};

    ghost Value = { BodyPlace };

    ghost view = { body_place };

    ghost invariant = { IsCounted };
}

// whether an item may stand here; where it may, the state goes on behind it, and else it stays
#[inline(always)]
fn goes_on(state: &mut BodyState, item: &Item) -> Result<bool, Memory>
    ensures goes { (live : List ℕ) (before : List Item) → Knows live before state.old
        → IfOk result (λ stands. (may_stand live before item.now ≡ stands)
        × (stands ≡ true → Knows live (item.now ∷ before) state.new)) }
    ensures kept { (live : List ℕ) (before : List Item) → Knows live before state.old
        → result ≢ Ok true → Knows live before state.new }
{
    match item {
        Item::Text(_) => Ok(state.may_stand_text()),
        Item::Insert(serial) => {
            if !state.may_open(*serial) {
                return Ok(false);
            }
            state.open(*serial, true)?;
            Ok(true)
        }
        Item::Delete(serial) => {
            if !state.may_open(*serial) {
                return Ok(false);
            }
            state.open(*serial, false)?;
            Ok(true)
        }
        Item::End(serial) => {
            if !state.may_end(*serial) {
                return Ok(false);
            }
            state.end(*serial);
            Ok(true)
        }
    }
}

// the item that a line is, where one may stand; the state then goes on behind it
#[inline(never)]
fn next_item(state: &mut BodyState, line: Vec<u8>) -> Result<Option<Item>, Memory>
    requires { HasNoLf line.items }
    ensures { (live : List ℕ) (before : List Item) → Knows live before state.old
        → ReadsItemLine live before state.new line.items result }
{
    let Some(item) = read_item(line) else {
        return Ok(None);
    };
    if goes_on(state, &item)? {
        Ok(Some(item))
    } else {
        Ok(None)
    }
}

fn is_empty(line: &[u8]) -> bool
    ensures { result ≡ is_empty line.now }
{
    line.is_empty()
}

// whether a body may end where these bytes are left
#[inline(never)]
fn ends_with(state: &BodyState, line: &[u8]) -> bool
    ensures { (live : List ℕ) (before : List Item) → Knows live before state.now
        → result ≡ (is_over before && is_empty line.now) }
{
    let over = state.is_over();
    let empty = is_empty(line);
    over && empty
}

impl BodyReader {
    /// Reads on where a reader of lines stands, with the state of a body there, and the number and the
    /// place of its first line.
    pub fn new(
        alloc: Global,
        lines: LineReader,
        state: BodyState,
        first: u64,
        from: u64,
    ) -> BodyReader
        requires { first ≤ 1073741827 }
        ensures { result ≡ record { lines = lines; state = state; first = first; from = from } }
    {
        BodyReader {
            alloc,
            lines,
            state,
            first,
            from,
        }
    }

    /// The reader of lines, behind the items that were read.
    pub fn into_lines(self) -> LineReader
        ensures { result ≡ self.lines }
    {
        let BodyReader {
            alloc: _,
            lines,
            state: _,
            first: _,
            from: _,
        } = self;
        lines
    }

    /// The place of the next byte.
    #[inline(always)]
    pub fn place(&self) -> u64
        ensures value { result ≡ self.now.lines.place }
        ensures bound { self.now.lines.place + length self.now.lines.held ≤ self.now.lines.limit }
        ensures limit { self.now.lines.limit ≤ 1073741825 }
    {
        self.lines.place()
    }

    /// The plain sum of all bytes that were read behind the sum line.
    pub fn sum(&self) -> u16
        ensures { result ≡ self.now.lines.sum }
    {
        self.lines.sum()
    }

    /// Passes over all bytes before a place, or up to the end of a file that ends there or before.
    pub fn skip_to<D: Disk>(&mut self, disk: &mut D, to: u64) -> Result<(), Failed>
        requires { to ≤ self.old.lines.limit }
        ensures frame { ReadsBytes D.told D.faults disk.old disk.new self.old.lines self.new.lines result }
        ensures stays { Stays (bytes_in (seen (D.told disk.old)) self.old.lines.name) self.old.lines self.new.lines }
        ensures held { self.new.lines.held ≡ [] }
        ensures state { self.new.state ≡ self.old.state }
        ensures body { KeepsBody self.old self.new }
        ensures onward { self.old.lines.place + length self.old.lines.held ≤ self.new.lines.place }
        ensures bound { self.new.lines.place ≤ max to (self.old.lines.place + length self.old.lines.held) }
        ensures told { OnOk result ((file : List ℕ) → bytes_in (seen (D.told disk.old)) self.old.lines.name ≡ Some file
            → StandsIn self.old.lines file → min to (length file) ≤ self.new.lines.place) }
    {
        self.lines.skip_to(disk, to)
    }

    /// The place of the body's first line.
    #[inline(always)]
    pub fn body_from(&self) -> u64
        ensures { result ≡ self.now.from }
    {
        self.from
    }

    /// The number of the body's first line.
    pub fn body_line(&self) -> u64
        ensures { result ≡ self.now.first }
    {
        self.first
    }

    // the fault of the line that begins at a place; the body is read again for its number
    #[inline(never)]
    fn fault_at<D: Disk>(&self, disk: &mut D, place: u64) -> FileFault
        requires { place ≤ 1073741825 }
        ensures same { D.told disk.new ≡ D.told disk.old }
        ensures later { D.faults disk.old ≤ D.faults disk.new }
        ensures cause { result ≡ FileFault.Failed → Rose (D.faults disk.old) (D.faults disk.new) }
        ensures kind { IsFormat result }
        ensures told { IfSome (bytes_in (seen (D.told disk.old)) self.now.lines.name)
            (λ file. IsFormatAt (number_of_line self.now.first self.now.from file place) result) }
    {
        match self.lines.lines_between(disk, self.from, place) {
            Ok(count) => FileFault::BadFormat(self.first + count),
            Err(Failed) => FileFault::Failed,
        }
    }

    /// The text lines that are held whole, each with its LF; none where no text line may stand.
    #[inline(always)]
    pub fn texts(&self) -> &[u8]
        ensures fits { length result.now ≤ length self.now.lines.held }
        ensures front { take (length result.now) self.now.lines.held ≡ result.now }
        ensures run { IsRun result.now }
        ensures stand { (live : List ℕ) (before : List Item) (text : List ℕ) → HasBehind live before self.now
            → 0 < length result.now → may_stand live before (items.Text text) ≡ true }
        ensures longest { (live : List ℕ) (before : List Item) (text : List ℕ) → HasBehind live before self.now
            → may_stand live before (items.Text text) ≡ true → HasNoRun (drop (length result.now) self.now.lines.held) }
    {
        if self.state.may_stand_text() {
            self.lines.texts()
        } else {
            &[]
        }
    }

    /// Passes over so many of the held bytes, which are text lines that may stand.
    pub fn pass(&mut self, count: usize)
        requires fits { count ≤ length self.old.lines.held }
        requires run { IsRun (take count self.old.lines.held) }
        ensures name { self.new.lines.name ≡ self.old.lines.name }
        ensures limit { self.new.lines.limit ≡ self.old.lines.limit }
        ensures stays { (o : Option (List ℕ)) → Stays o self.old.lines self.new.lines }
        ensures ahead { self.new.lines.place + length self.new.lines.held ≤ self.new.lines.limit }
        ensures place { self.new.lines.place ≡ self.old.lines.place + count }
        ensures held { self.new.lines.held ≡ drop count self.old.lines.held }
        ensures body { KeepsBody self.old self.new }
        ensures behind { (live : List ℕ) (before : List Item) → HasBehind live before self.old
            → HasBehind live (texts_behind (cut (take count self.old.lines.held)).lines before) self.new }
        ensures told { (file : List ℕ) → PassesRun (take count self.old.lines.held) file self.old.lines self.new.lines }
    {
        self.lines.pass(count);
    }

    // the next item, however its line is spelled and held
    #[inline(always)]
    fn read_next<D: Disk>(&mut self, disk: &mut D) -> Result<Option<Item>, FileFault>
        ensures body { KeepsBody self.old self.new }
        ensures frame { ReadsOn D.told D.faults disk.old disk.new self.old.lines self.new.lines result }
        ensures first { IsFirst result }
        ensures stays { Stays (bytes_in (seen (D.told disk.old)) self.old.lines.name) self.old.lines self.new.lines }
        ensures onward { self.old.lines.place ≤ self.new.lines.place }
        ensures further { IfOk result (λ o. IfSome o (λ _. self.old.lines.place < self.new.lines.place)) }
        ensures goes { (live : List ℕ) (before : List Item) → HasBehind live before self.old
            → GoesBehind live before self.new result }
        ensures told { (live : List ℕ) (before : List Item) → HasBehind live before self.old
            → GivesBodyItem (bytes_in (seen (D.told disk.old)) self.old.lines.name) live before self.old self.new
            result }
    {
        let place = self.lines.place();
        let mut line = Vec::new(self.alloc);
        if !self.lines.next_line(disk, &mut line)? {
            if ends_with(&self.state, line.as_slice()) {
                return Ok(None);
            }
            return Err(self.fault_at(disk, place));
        }
        match next_item(&mut self.state, line) {
            Ok(Some(item)) => Ok(Some(item)),
            Ok(None) => Err(self.fault_at(disk, place)),
            Err(_) => Err(FileFault::Memory),
        }
    }

    // passes over a line of that length, which is held whole and is that item
    #[inline(always)]
    fn pass_item<D: Disk>(
        &mut self,
        disk: &mut D,
        item: Item,
        count: usize,
    ) -> Result<Option<Item>, FileFault>
        requires { IsWrittenItem self.old.lines.held item count }
        ensures body { KeepsBody self.old self.new }
        ensures same { D.told disk.new ≡ D.told disk.old }
        ensures later { D.faults disk.old ≤ D.faults disk.new }
        ensures cause { result ≡ Err FileFault.Failed → Rose (D.faults disk.old) (D.faults disk.new) }
        ensures first { IsFirst result }
        ensures name { self.new.lines.name ≡ self.old.lines.name }
        ensures limit { self.new.lines.limit ≡ self.old.lines.limit }
        ensures stays { (o : Option (List ℕ)) → Stays o self.old.lines self.new.lines }
        ensures ahead { self.new.lines.place + length self.new.lines.held ≤ self.new.lines.limit }
        ensures further { self.old.lines.place < self.new.lines.place }
        ensures goes { (live : List ℕ) (before : List Item) → HasBehind live before self.old
            → GoesBehind live before self.new result }
        ensures told { (live : List ℕ) (before : List Item) → HasBehind live before self.old
            → GivesBodyItem (bytes_in (seen (D.told disk.old)) self.old.lines.name) live before self.old self.new
            result }
    {
        let place = self.lines.place();
        let stands = goes_on(&mut self.state, &item);
        self.lines.pass_line(count);
        match stands {
            Ok(true) => Ok(Some(item)),
            Ok(false) => Err(self.fault_at(disk, place)),
            Err(_) => Err(FileFault::Memory),
        }
    }

    /// The next item, where it is a control line that is held whole and spelled as it is written, and
    /// may stand; at None nothing was taken.
    #[inline(always)]
    pub fn next_control(&mut self) -> Option<Item>
        ensures name { self.new.lines.name ≡ self.old.lines.name }
        ensures limit { self.new.lines.limit ≡ self.old.lines.limit }
        ensures stays { (o : Option (List ℕ)) → Stays o self.old.lines self.new.lines }
        ensures ahead { IfSome result (λ _. self.new.lines.place + length self.new.lines.held ≤ self.new.lines.limit) }
        ensures further { IfSome result (λ _. self.old.lines.place < self.new.lines.place) }
        ensures none { result ≡ None → self.new.lines ≡ self.old.lines }
        ensures body { KeepsBody self.old self.new }
        ensures kept { (live : List ℕ) (before : List Item) → HasBehind live before self.old → result ≡ None
            → HasBehind live before self.new }
        ensures goes { (live : List ℕ) (before : List Item) → HasBehind live before self.old
            → IfSome result (λ item. GoesBehind live before self.new (Ok (Some item))) }
        ensures told { (o : Option (List ℕ)) (live : List ℕ) (before : List Item) → HasBehind live before self.old
            → IfSome result (λ item. GivesBodyItem o live before self.old self.new (Ok (Some item))) }
    {
        let Some((item, count)) = written_item(self.lines.held()) else {
            return None;
        };
        match goes_on(&mut self.state, &item) {
            Ok(true) => {
                self.lines.pass_line(count);
                Some(item)
            }
            Ok(false) => None,
            Err(_) => None,
        }
    }

    /// Where no LF is held, reads on behind the held bytes, as far as there is room for them; true
    /// where an LF is held then.
    pub fn read_on<D: Disk>(&mut self, disk: &mut D) -> Result<bool, Failed>
        ensures frame { ReadsBytes D.told D.faults disk.old disk.new self.old.lines self.new.lines result }
        ensures stays { Stays (bytes_in (seen (D.told disk.old)) self.old.lines.name) self.old.lines self.new.lines }
        ensures place { self.new.lines.place ≡ self.old.lines.place }
        ensures state { self.new.state ≡ self.old.state }
        ensures body { KeepsBody self.old self.new }
        ensures more { IfOk result (λ more. more ≡ true → (lf_count self.old.lines.held ≡ 0)
            × (0 < lf_count self.new.lines.held)) }
    {
        self.lines.read_on(disk)
    }

    /// How many lines end in so many of the held bytes.
    #[inline(always)]
    pub fn lines_held(&self, count: usize) -> u64
        requires { count ≤ length self.now.lines.held }
        ensures { result ≡ lf_count (take count self.now.lines.held) }
    {
        self.lines.lines_held(count)
    }

    /// The next item; None at the end of the body. BadFormat has the number of the line at which no
    /// item may stand.
    #[inline(always)]
    pub fn next<D: Disk>(&mut self, disk: &mut D) -> Result<Option<Item>, FileFault>
        ensures body { KeepsBody self.old self.new }
        ensures frame { ReadsOn D.told D.faults disk.old disk.new self.old.lines self.new.lines result }
        ensures first { IsFirst result }
        ensures stays { Stays (bytes_in (seen (D.told disk.old)) self.old.lines.name) self.old.lines self.new.lines }
        ensures onward { self.old.lines.place ≤ self.new.lines.place }
        ensures further { IfOk result (λ o. IfSome o (λ _. self.old.lines.place < self.new.lines.place)) }
        ensures goes { (live : List ℕ) (before : List Item) → HasBehind live before self.old
            → GoesBehind live before self.new result }
        ensures told { (live : List ℕ) (before : List Item) → HasBehind live before self.old
            → GivesBodyItem (bytes_in (seen (D.told disk.old)) self.old.lines.name) live before self.old self.new
            result }
    {
        match written_item(self.lines.held()) {
            Some((item, count)) => self.pass_item(disk, item, count),
            None => self.read_next(disk),
        }
    }
}
