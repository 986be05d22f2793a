ghost use Rattle.std.specs.Prelude.{◌≡◌, ◌++◌, ◌-◌, ◌≤◌, map, replicate};
ghost use Rattle.sccs_trunks.specs.Cells.{Base, cell_begun, count_of, expand, inserter_of};

use sccs_base::Line;

/// Lines of a trunk, one after the other, that have one inserter and one deleter. Where the inserter
/// is 0 they are in all texts from the revision of serial 1 on.
#[derive(Clone, Copy, Drop)]
pub enum Piece<'a> {
    /// Lines of the head that are passed.
    Base {
        inserter: u16,
        count: u64,
    },
    /// Lines that the script of a deleter adds.
    New {
        deleter: u16,
        inserter: u16,
        lines: &'a [Line],
    },
}

/// Lines of the head that are passed.
pub fn base<'a>(inserter: u16, count: u64) -> Piece<'a>
    ensures cells { expand result ≡ replicate count (Base inserter) }
    ensures count { count_of result ≡ count }
    ensures inserter { inserter_of result ≡ inserter }
{
    Piece::Base { inserter, count }
}

impl<'a> Piece<'a> {
    /// How many lines there are.
    pub fn count(&self) -> u64
        ensures { result ≡ count_of self.now }
    {
        match *self {
            Piece::Base { count, .. } => count,
            Piece::New { lines, .. } => lines.len() as u64,
        }
    }

    /// Their inserter.
    pub fn inserter(&self) -> u16
        ensures { result ≡ inserter_of self.now }
    {
        match *self {
            Piece::Base { inserter, .. } => inserter,
            Piece::New { inserter, .. } => inserter,
        }
    }

    /// The lines with an inserter.
    #[tactic(auto, using(crate::proofs::PieceCells::begun_base, crate::proofs::PieceCells::begun_new))]
    pub fn begun(self, inserter: u16) -> Piece<'a>
        ensures { expand result ≡ map (cell_begun inserter) (expand self.entry) }
    {
        match self {
            Piece::Base { count, .. } => Piece::Base { inserter, count },
            Piece::New { deleter, lines, .. } => Piece::New {
                deleter,
                inserter,
                lines,
            },
        }
    }

    /// As many of the lines as are counted, and those behind them.
    #[tactic(auto, using(crate::proofs::PieceCells::base_split, crate::proofs::PieceCells::new_split))]
    pub fn split(self, count: u64) -> (Piece<'a>, Piece<'a>)
        requires { count ≤ count_of self }
        ensures cells { expand self.entry ≡ expand result.0 ++ expand result.1 }
        ensures count { count_of result.0 ≡ count }
        ensures rest { count_of result.1 ≡ count_of self.entry - count }
        ensures inserter { inserter_of result.0 ≡ inserter_of self.entry }
    {
        match self {
            Piece::Base {
                inserter,
                count: whole,
            } => (base(inserter, count), base(inserter, whole - count)),
            Piece::New {
                deleter,
                inserter,
                lines,
            } => {
                let (front, behind) = lines.split_at(count as usize);
                (
                    Piece::New {
                        deleter,
                        inserter,
                        lines: front,
                    },
                    Piece::New {
                        deleter,
                        inserter,
                        lines: behind,
                    },
                )
            }
        }
    }
}
