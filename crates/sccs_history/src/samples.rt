//! The definitions tried on small tables and bodies: what each clause says holds by computation.
ghost use Rattle.std.specs.Prelude.{◌≡◌, pos, true, false, [], ◌∷◌, None, Some, codes};
ghost use Rattle.sccs_history.specs.Applied.{applied, live_serials, version};
ghost use Rattle.sccs_history.specs.Body.{Begins, GoesOn, lines_of};
ghost use Rattle.sccs_history.specs.FlagText.{fits_letter};
ghost use Rattle.sccs_history.specs.History.{IsValid, IsRooted};
ghost use Rattle.sccs_history.specs.Removal.{dropped, dropped_lines};
ghost use Rattle.sccs_history.specs.Samples.{sample_asked, branched, branched_body, branched_table, crossing_body};
ghost use Rattle.sccs_history.specs.Samples.{first_body, listing_table, text_of_one, second_body, shown_when_asked};
ghost use Rattle.sccs_history.specs.Select.{select};

/// Versions of a file with a branch, lists of a call, and a cutoff at a delta's very second.
pub fn branch_lists_and_cutoff()
    ensures first { version 1 branched_table (lines_of branched_body) ≡ text_of_one 97 ∷ text_of_one 98 ∷ [] }
    ensures second { version 2 branched_table (lines_of branched_body) ≡ text_of_one 97 ∷ text_of_one 66 ∷ [] }
    ensures branch { version 3 branched_table (lines_of branched_body) ≡ text_of_one 97 ∷ text_of_one 98
        ∷ text_of_one 99 ∷ [] }
    ensures included { shown_when_asked (sample_asked 2 (3 ∷ []) [] None) branched_table branched_body
        ≡ text_of_one 97 ∷ text_of_one 66 ∷ text_of_one 99 ∷ [] }
    ensures excluded { shown_when_asked (sample_asked 2 [] (2 ∷ []) None) branched_table branched_body
        ≡ text_of_one 97 ∷ text_of_one 98 ∷ [] }
    ensures cutoff { shown_when_asked (sample_asked 2 [] [] (Some (pos 162863999))) branched_table branched_body
        ≡ text_of_one 97 ∷ text_of_one 98 ∷ [] }
    ensures rooted { IsRooted branched }
    ensures whole { GoesOn (live_serials branched_table) [] branched_body }
{}

/// That file is a valid history.
#[tactic(auto, unfolding(sccs_sid::specs::Words::ends_blank))]
pub fn branched_is_valid()
    ensures { IsValid branched }
{}

/// The list of a newer applied delta decides over an older one's, and an included delta brings its
/// lists and not its ancestors.
pub fn newer_list_decides()
    ensures older { applied (sample_asked 4 (3 ∷ []) [] None) (listing_table []) ≡ 4 ∷ 3 ∷ 1 ∷ [] }
    ensures newer { applied (sample_asked 4 (3 ∷ []) [] None) (listing_table (2 ∷ [])) ≡ 4 ∷ 3 ∷ 2 ∷ 1 ∷ [] }
{}

/// Regions that cross, to four sets.
pub fn crossing_regions()
    ensures first { select (1 ∷ []) (lines_of crossing_body) ≡ text_of_one 112 ∷ text_of_one 113 ∷ text_of_one 116
        ∷ [] }
    ensures deleted { select (3 ∷ 1 ∷ []) (lines_of crossing_body) ≡ text_of_one 112 ∷ text_of_one 116 ∷ [] }
    ensures inserted { select (5 ∷ 1 ∷ []) (lines_of crossing_body)
        ≡ text_of_one 112 ∷ text_of_one 113 ∷ text_of_one 114 ∷ text_of_one 115 ∷ text_of_one 116 ∷ [] }
    ensures both { select (5 ∷ 3 ∷ 1 ∷ []) (lines_of crossing_body)
        ≡ text_of_one 112 ∷ text_of_one 114 ∷ text_of_one 115 ∷ text_of_one 116 ∷ [] }
    ensures whole { GoesOn (5 ∷ 3 ∷ 1 ∷ []) [] crossing_body }
{}

/// The items and lines that the removal of a newest delta leaves.
pub fn newest_delta_removed()
    ensures items { dropped 2 second_body ≡ first_body }
    ensures lines { dropped_lines 2 (lines_of second_body) ≡ lines_of first_body }
{}

/// Texts of flags that are fit, and others.
#[tactic(auto, unfolding(sccs_sid::specs::Reading::number_at, sccs_sid::specs::Reading::digits_after, sccs_sid::specs::Reading::byte_at, sccs_sid::specs::Reading::number, sccs_sid::specs::Sid::numbers_after, sccs_sid::specs::Spec::spec_of, sccs_sid::specs::Words::ends_blank, sccs_sid::specs::Words::words, crate::specs::FlagText::pieces))]
pub fn flag_texts()
    ensures number { fits_letter 102 (codes "0") ≡ true }
    ensures long_number { fits_letter 99 (codes "00012") ≡ false }
    ensures release { fits_letter 100 (codes "1") ≡ true }
    ensures branch { fits_letter 100 (codes "1.2.3") ≡ true }
    ensures zero { fits_letter 100 (codes "1.0") ≡ false }
    ensures five { fits_letter 100 (codes "1.2.3.4.5") ≡ false }
    ensures all { fits_letter 108 (codes "a") ≡ true }
    ensures releases { fits_letter 108 (codes "1,22  3333") ≡ true }
    ensures doubled { fits_letter 108 (codes "1,,2") ≡ false }
    ensures mixed { fits_letter 108 (codes "1, 2") ≡ false }
    ensures none { fits_letter 108 [] ≡ false }
    ensures other { fits_letter 109 (codes "1,,2") ≡ true }
{}
