ghost use Rattle.std.specs.Prelude.{◌≡◌, ◌≢◌, ℕ, ◌+◌, ◌≤◌, List, [], ◌∷◌, ◌++◌, Some, None, Err, length};
ghost use Rattle.sccs_words.specs.BetweenGaps.{AreWordsOf};
ghost use Rattle.sccs_words.specs.MrWords.{mr_words};
ghost use Rattle.sccs_words.specs.Meaning.{line_meaning, meaning, utility_of};
ghost use Rattle.sccs_words.specs.OptionsRead.{options_read};
ghost use Rattle.sccs_words.specs.Scan.{CommandLine};
ghost use Rattle.sccs_words.specs.Synopsis.{options_of, find_option};
ghost use Rattle.sccs_words.specs.Unplaced.{SameUses, kinds};
ghost use Rattle.sccs_words.specs.declared.tables.OptionSpec.TheVariants.{Plain};

use crate::commands::Usage;
use crate::scanning::Use;
use crate::tables::Utility;

/// A fault stands in a word of the command line, or right after the last.
pub fn faults_have_a_place()
    ensures { (words : List (List ℕ)) (fault : Usage) → meaning words ≡ Err fault
        → (1 ≤ fault.word) × (fault.word ≤ length words + 1) }
{}

/// What a command line means does not depend on the numbers of its words: where the same letters have
/// the same arguments and the operands are the same, it is the same command, or has a fault of the same kind.
pub fn numbers_of_words_do_not_matter()
    ensures { (utility : Utility) (a b : CommandLine) (n m : ℕ) → SameUses a b
        → kinds (line_meaning utility a n) ≡ kinds (line_meaning utility b m) }
{}

/// An option without a value may stand in a word of its own, or be joined to what follows it. Behind
/// any words that are options and their values, the words `-abREST` and `-a -bREST`, with any words
/// after them, are the same command, or have a fault of the same kind.
pub fn joined_options_are_options_apart()
    ensures { (utility : Utility) (name : List ℕ) (a b : ℕ) (rest : List ℕ) (before after : List (List ℕ))
        (read : List Use)
        → utility_of name ≡ Some utility
        → options_read (options_of utility) 2 [] None before ≡ Some (read, None)
        → find_option (options_of utility) a ≡ Some (Plain a) → b ≢ 45
        → kinds (meaning (name ∷ before ++ (45 ∷ a ∷ b ∷ rest) ∷ after))
        ≡ kinds (meaning (name ∷ before ++ (45 ∷ a ∷ []) ∷ (45 ∷ b ∷ rest) ∷ after)) }
{}

/// The words of a value of `-m`: none is empty or holds a blank, a tab or LF, and the words with such
/// gaps between them are all its bytes. No other words are so.
pub fn mr_words_are_between_gaps()
    ensures are { (bytes : List ℕ) → AreWordsOf bytes (mr_words bytes) }
    ensures only { (bytes : List ℕ) (words : List (List ℕ)) → AreWordsOf bytes words → words ≡ mr_words bytes }
{}
