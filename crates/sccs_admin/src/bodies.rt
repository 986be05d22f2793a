ghost use Rattle.sccs_base.specs.Cut.{text_of};
ghost use Rattle.sccs_admin.specs.NewFiles.{new_items};

use crate::texts::lacking;
use sccs_disk::{Disk, DiskRefusal};
use sccs_history::Item;
use sccs_new_files::NewBody;
use sccs_writers::ItemWriter;

/// The body of a new s-file that has the lines of a text, inserted by the first delta.
#[derive(Drop)]
pub struct TextBody<'a> {
    pub(crate) text: &'a [u8],
}

impl<'a> NewBody for TextBody<'a> {
    ghost items = { λ body. new_items (text_of body.text.now) };

    fn put<D: Disk>(&self, out: &mut ItemWriter, disk: &mut D) -> Result<(), DiskRefusal> {
        out.put(disk, &Item::Insert(1))?;
        out.put_text(disk, self.text)?;
        out.put_text(disk, lacking(self.text))?;
        out.put(disk, &Item::End(1))
    }
}
