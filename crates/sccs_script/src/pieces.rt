ghost use Rattle.std.specs.Prelude.{◌≡◌, ◌<◌, ℕ, drop, length, take};
ghost use Rattle.sccs_script.specs.Drafts.{anchor_from, expand, IsPiece};

use sccs_base::Line;

/// A piece of a text while orders are made on it.
#[derive(Drop)]
pub enum Piece {
    /// Base lines that follow each other, by the numbers of the first and the last.
    Kept(u64, u64),
    /// A new line, with the number of the base line that it follows, 0 before all.
    Fresh(u64, Line),
}

/// How many lines a piece has.
pub fn count(piece: &Piece) -> u64
    requires { IsPiece piece.now }
    ensures { result ≡ length (expand piece.now) }
{
    match piece {
        Piece::Kept(first, last) => *last - *first + 1,
        Piece::Fresh(_, _) => 1,
    }
}

/// The base line that a line behind a piece follows.
pub fn end(piece: &Piece) -> u64
    requires { IsPiece piece.now }
    ensures { (n : ℕ) → result ≡ anchor_from n (expand piece.now) }
{
    match piece {
        Piece::Kept(_, last) => *last,
        Piece::Fresh(after, _) => *after,
    }
}

/// A piece in two, behind so many of its lines.
pub fn cut_piece(piece: Piece, place: u64) -> (Piece, Piece)
    requires piece { IsPiece piece }
    requires some { 0 < place }
    requires few { place < length (expand piece) }
    ensures first { expand result.0 ≡ take place (expand piece) }
    ensures last { expand result.1 ≡ drop place (expand piece) }
    ensures first_piece { IsPiece result.0 }
    ensures last_piece { IsPiece result.1 }
{
    match piece {
        Piece::Kept(first, last) => (
            Piece::Kept(first, first + place - 1),
            Piece::Kept(first + place, last),
        ),
        Piece::Fresh(_, _) => unreachable!(),
    }
}
