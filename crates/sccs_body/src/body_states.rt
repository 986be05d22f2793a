ghost use Rattle.std.specs.Prelude.{◌≡◌, ◌<◌, ◌≤◌, ℕ, List, [], ◌∷◌, true, false, slice_index_or, length, IfOk, OnOk};
ghost use Rattle.std.specs.Prelude.{OnErr};
ghost use Rattle.sccs_history.specs.Applied.{live_serials};
ghost use Rattle.sccs_history.specs.Body.{may_stand as may_stand_spec, is_over as is_over_spec};
ghost use Rattle.sccs_history.specs.Numbers.{has};
ghost use Rattle.sccs_history.specs.declared.headers.Item.{Item};
ghost use Rattle.sccs_history.specs.declared.headers.Item.TheVariants as items;

use crate::marks::{Mark, Marks};
use sccs_base::Memory;
use sccs_history::{Item, Record};
use std::alloc::Global;

/// What is known at a place of a body: how each serial stands, and which live.
#[derive(Drop)]
pub struct BodyState {
    marks: Marks,
    lives: Vec<bool>,
}

// one more than the greatest serial of a table
fn places(records: &[Record]) -> usize
    ensures few { result ≤ 65536 }
    ensures within { (n : ℕ) → has (live_serials records.now) n ≡ true → n < result }
{
    let mut count = 0;
    for record in records {
        count = count.max(usize::from(record.serial) + 1);
    }
    count
}

// marks the live serials of a table
fn mark_live(records: &[Record], lives: &mut [bool])
    requires clear { (n : ℕ) → slice_index_or lives.old n false ≡ false }
    requires within { (n : ℕ) → has (live_serials records.now) n ≡ true → n < length lives.old }
    ensures sized { length lives.new ≡ length lives.old }
    ensures live { (n : ℕ) → slice_index_or lives.new n false ≡ has (live_serials records.now) n }
{
    for record in records {
        if !record.removed {
            lives[record.serial as usize] = true;
        }
    }
}

// of so many serials none lives
fn none_lives(alloc: Global, count: usize) -> Result<Vec<bool>, Memory>
    ensures sized { IfOk result (λ v. length v.items ≡ count) }
    ensures clear { IfOk result (λ v. (n : ℕ) → slice_index_or v.items n false ≡ false) }
{
    let lives = vec![in alloc; false; count]?;
    Ok(lives)
}

fn lives(lives: &[bool], serial: u16) -> bool
    ensures { result ≡ slice_index_or lives.now serial false }
{
    match lives.get(serial as usize) {
        Some(live) => *live,
        None => false,
    }
}

impl BodyState {
    ghost use Rattle.sccs_body.specs.States.{Knows};

    /// Before all items of a body over the live serials of a table.
    pub fn new(alloc: Global, records: &[Record]) -> Result<BodyState, Memory>
        ensures { IfOk result (λ state. Knows (live_serials records.now) [] state) }
    {
        let count = places(records);
        let mut lives = none_lives(alloc, count)?;
        mark_live(records, lives.as_mut_slice());
        Ok(BodyState {
            marks: Marks::new(alloc, count)?,
            lives,
        })
    }

    /// Whether a text line may stand here.
    #[tactic(auto, using(crate::proofs::OpenLaws::some_insert))]
    pub fn may_stand_text(&self) -> bool
        ensures { (live : List ℕ) (before : List Item) (text : List ℕ) → Knows live before self.now
            → result ≡ may_stand_spec live before (items.Text text) }
    {
        self.marks.some_inserts()
    }

    /// Whether a serial may be opened here.
    pub fn may_open(&self, serial: u16) -> bool
        ensures insert { (live : List ℕ) (before : List Item) → Knows live before self.now
            → result ≡ may_stand_spec live before (items.Insert serial) }
        ensures delete { (live : List ℕ) (before : List Item) → Knows live before self.now
            → result ≡ may_stand_spec live before (items.Delete serial) }
    {
        lives(&self.lives, serial) && !self.marks.at(serial).is_open()
    }

    /// Whether a serial may end here.
    pub fn may_end(&self, serial: u16) -> bool
        ensures { (live : List ℕ) (before : List Item) → Knows live before self.now
            → result ≡ may_stand_spec live before (items.End serial) }
    {
        lives(&self.lives, serial) && self.marks.at(serial).is_open()
    }

    /// Goes on behind an `Insert` or a `Delete` that may stand here. At want of memory nothing changes.
    pub fn open(&mut self, serial: u16, inserts: bool) -> Result<(), Memory>
        ensures insert { OnOk result ((live : List ℕ) (before : List Item) → Knows live before self.old
            → may_stand_spec live before (items.Insert serial) ≡ true → inserts ≡ true
            → Knows live (items.Insert serial ∷ before) self.new) }
        ensures delete { OnOk result ((live : List ℕ) (before : List Item) → Knows live before self.old
            → may_stand_spec live before (items.Delete serial) ≡ true → inserts ≡ false
            → Knows live (items.Delete serial ∷ before) self.new) }
        ensures err { OnErr result ((live : List ℕ) (before : List Item) → Knows live before self.old
            → Knows live before self.new) }
    {
        let mark = if inserts {
            Mark::Inserts
        } else {
            Mark::Deletes
        };
        self.marks.put(serial, mark)?;
        Ok(())
    }

    /// Goes on behind an `End`.
    pub fn end(&mut self, serial: u16)
        ensures { (live : List ℕ) (before : List Item) → Knows live before self.old
            → Knows live (items.End serial ∷ before) self.new }
    {
        self.marks.close(serial);
    }

    /// Whether a body may end here.
    #[tactic(auto, using(crate::proofs::OpenLaws::over))]
    pub fn is_over(&self) -> bool
        ensures { (live : List ℕ) (before : List Item) → Knows live before self.now
            → result ≡ is_over_spec before }
    {
        !self.marks.some_open()
    }
}
