ghost use Rattle.std.specs.Prelude.{◌≡◌, ◌++◌, ◌≤◌, suc, None, [], IfSome};
ghost use Rattle.sccs_trunks.specs.Cells.{cells_of, count_of, expand};
ghost use Rattle.sccs_trunks.specs.Lefts.{left_cells, left_size};

use crate::pieces::Piece;

/// What is left of pieces: what is left of one that was begun, and those from a place on.
#[derive(Drop)]
pub struct Left<'p, 'a> {
    begun: Option<Piece<'a>>,
    pieces: &'p [Piece<'a>],
    at: usize,
}

impl<'p, 'a> Left<'p, 'a> {
    /// All of them.
    pub fn new(pieces: &'p [Piece<'a>]) -> Left<'p, 'a>
        ensures cells { left_cells result ≡ cells_of pieces.now }
        ensures begun { result.begun ≡ None }
    {
        Left {
            begun: None,
            pieces,
            at: 0,
        }
    }

    /// The next piece.
    #[tactic(auto, using(crate::proofs::Places::from_place, crate::proofs::Places::from_end))]
    pub fn next(&mut self) -> Option<Piece<'a>>
        ensures some { IfSome result (λ p. left_cells self.old ≡ expand p ++ left_cells self.new) }
        ensures fewer { IfSome result (λ p. left_size self.old ≡ suc (left_size self.new)) }
        ensures none { result ≡ None → (left_cells self.old ≡ []) × (left_cells self.new ≡ [])
            × (left_size self.new ≡ left_size self.old) }
        ensures begun { self.new.begun ≡ None }
    {
        if let Some(piece) = self.begun {
            self.begun = None;
            return Some(piece);
        }
        let piece = *self.pieces.get(self.at)?;
        self.at += 1;
        Some(piece)
    }

    /// Puts what is left of a piece in front.
    pub fn put_back(&mut self, piece: Piece<'a>)
        requires { self.old.begun ≡ None }
        ensures cells { left_cells self.new ≡ expand piece.entry ++ left_cells self.old }
        ensures size { left_size self.new ≡ suc (left_size self.old) }
    {
        self.begun = Some(piece);
    }

    /// Puts what is left of a piece in front, where some lines are left.
    pub fn put_rest(&mut self, piece: Piece<'a>)
        requires { self.old.begun ≡ None }
        ensures cells { left_cells self.new ≡ expand piece.entry ++ left_cells self.old }
        ensures most { left_size self.new ≤ suc (left_size self.old) }
        ensures none { count_of piece.entry ≡ 0 → left_size self.new ≡ left_size self.old }
    {
        if 0 < piece.count() {
            self.put_back(piece);
        }
    }
}
