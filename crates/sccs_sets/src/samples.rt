//! The definitions tried on small tables: what each clause says holds by computation.
ghost use Rattle.std.specs.Prelude.{◌≡◌, true, false, [], ◌∷◌, None, Some, Ok, Err};
ghost use Rattle.sccs_history.specs.History.{IsTable};
ghost use Rattle.sccs_sid.specs.declared.sids.Spec.TheVariants.{Release, Branch, Full};
ghost use Rattle.sccs_sets.specs.Made.{made_on};
ghost use Rattle.sccs_sets.specs.Naming.{named_serials};
ghost use Rattle.sccs_sets.specs.Retrieved.{branch_sid, retrieved, trunk_sid};
ghost use Rattle.sccs_sets.specs.LiveIndexes.{single};
ghost use Rattle.sccs_sets.specs.Samples.{from_to, numbers_of, sixteen_table};
ghost use Rattle.sccs_sets.specs.Sets.{both_listed};
ghost use Rattle.sccs_sets.specs.SidTable.{fitting_rows, rows};

/// The SIDs that are got, in each case of what is given, and where none is.
pub fn sids_got()
    ensures table { IsTable sixteen_table }
    ensures none { retrieved sixteen_table None false ≡ Some 4 }
    ensures later_release { retrieved sixteen_table (Some (Release 4)) false ≡ Some 4 }
    ensures newest_release { retrieved sixteen_table (Some (Release 3)) false ≡ Some 4 }
    ensures no_release { retrieved sixteen_table (Some (Release 2)) false ≡ Some 2 }
    ensures release { retrieved sixteen_table (Some (Release 1)) false ≡ Some 2 }
    ensures trunk_tip { retrieved sixteen_table (Some (Full (trunk_sid 3 2))) false ≡ Some 4 }
    ensures trunk { retrieved sixteen_table (Some (Full (trunk_sid 1 1))) false ≡ Some 1 }
    ensures branch { retrieved sixteen_table (Some (Branch 1 2 1)) false ≡ Some 6 }
    ensures branch_tip { retrieved sixteen_table (Some (Full (branch_sid 1 2 1 2))) false ≡ Some 6 }
    ensures branch_sid { retrieved sixteen_table (Some (Full (branch_sid 1 2 1 1))) false ≡ Some 5 }
    ensures not_there { retrieved sixteen_table (Some (Full (trunk_sid 9 9))) false ≡ None }
    ensures no_branch { retrieved sixteen_table (Some (Branch 1 1 1)) false ≡ None }
    ensures removed { retrieved sixteen_table (Some (Full (trunk_sid 4 1))) false ≡ None }
{}

/// The SIDs that are got where the top is asked for.
pub fn tops_got()
    ensures none { retrieved sixteen_table None true ≡ Some 4 }
    ensures release { retrieved sixteen_table (Some (Release 1)) true ≡ Some 7 }
    ensures no_release { retrieved sixteen_table (Some (Release 2)) true ≡ None }
    ensures removed_release { retrieved sixteen_table (Some (Release 4)) true ≡ None }
    ensures level { retrieved sixteen_table (Some (Full (trunk_sid 1 2))) true ≡ Some 7 }
    ensures lone_level { retrieved sixteen_table (Some (Full (trunk_sid 1 1))) true ≡ Some 1 }
    ensures branch { retrieved sixteen_table (Some (Branch 1 2 1)) true ≡ Some 6 }
    ensures branch_sid { retrieved sixteen_table (Some (Full (branch_sid 1 2 1 1))) true ≡ Some 5 }
{}

/// The SIDs that are made, in the sixteen cases of what is given and whether a branch is asked for.
pub fn sids_made()
    ensures case_1 { made_on sixteen_table [] (trunk_sid 3 2) None false ≡ Some (trunk_sid 3 3) }
    ensures case_2 { made_on sixteen_table [] (trunk_sid 3 2) None true ≡ Some (branch_sid 3 2 1 1) }
    ensures case_3 { made_on sixteen_table [] (trunk_sid 3 2) (Some (Release 4)) false ≡ Some (trunk_sid 4 1) }
    ensures case_4 { made_on sixteen_table [] (trunk_sid 3 2) (Some (Release 3)) false ≡ Some (trunk_sid 3 3) }
    ensures case_5 { made_on sixteen_table [] (trunk_sid 3 2) (Some (Release 4)) true ≡ Some (branch_sid 3 2 1 1) }
    ensures case_6 { made_on sixteen_table [] (trunk_sid 3 2) (Some (Release 3)) true ≡ Some (branch_sid 3 2 1 1) }
    ensures case_7 { made_on sixteen_table [] (trunk_sid 1 2) (Some (Release 2)) false ≡ Some (branch_sid 1 2 3 1) }
    ensures case_8 { made_on sixteen_table [] (trunk_sid 1 2) (Some (Release 1)) false ≡ Some (branch_sid 1 2 3 1) }
    ensures case_9 { made_on sixteen_table [] (trunk_sid 3 2) (Some (Full (trunk_sid 3 2))) false ≡ Some
        (trunk_sid 3 3) }
    ensures case_10 { made_on sixteen_table [] (trunk_sid 3 2) (Some (Full (trunk_sid 3 2))) true ≡ Some
        (branch_sid 3 2 1 1) }
    ensures case_11 { made_on sixteen_table [] (trunk_sid 1 1) (Some (Full (trunk_sid 1 1))) false ≡ Some
        (branch_sid 1 1 1 1) }
    ensures case_12 { made_on sixteen_table [] (branch_sid 1 2 1 2) (Some (Branch 1 2 1)) false ≡ Some
        (branch_sid 1 2 1 3) }
    ensures case_13 { made_on sixteen_table [] (branch_sid 1 2 1 2) (Some (Branch 1 2 1)) true ≡ Some
        (branch_sid 1 2 3 1) }
    ensures case_14 { made_on sixteen_table [] (branch_sid 1 2 1 2) (Some (Full (branch_sid 1 2 1 2))) false ≡ Some
        (branch_sid 1 2 1 3) }
    ensures case_15 { made_on sixteen_table [] (branch_sid 1 2 1 2) (Some (Full (branch_sid 1 2 1 2))) true ≡ Some
        (branch_sid 1 2 3 1) }
    ensures case_16 { made_on sixteen_table [] (branch_sid 1 2 1 1) (Some (Full (branch_sid 1 2 1 1))) false ≡ Some
        (branch_sid 1 2 3 1) }
{}

/// The one row that fits, in the sixteen cases of what is given and whether a branch is asked for.
pub fn rows_that_fit()
    ensures case_1 { numbers_of (fitting_rows false (rows sixteen_table None)) ≡ 1 ∷ [] }
    ensures case_2 { numbers_of (fitting_rows true (rows sixteen_table None)) ≡ 2 ∷ [] }
    ensures case_3 { numbers_of (fitting_rows false (rows sixteen_table (Some (Release 4)))) ≡ 3 ∷ [] }
    ensures case_4 { numbers_of (fitting_rows false (rows sixteen_table (Some (Release 3)))) ≡ 4 ∷ [] }
    ensures case_5 { numbers_of (fitting_rows true (rows sixteen_table (Some (Release 4)))) ≡ 5 ∷ [] }
    ensures case_6 { numbers_of (fitting_rows true (rows sixteen_table (Some (Release 3)))) ≡ 6 ∷ [] }
    ensures case_7 { numbers_of (fitting_rows false (rows sixteen_table (Some (Release 2)))) ≡ 7 ∷ [] }
    ensures case_8 { numbers_of (fitting_rows true (rows sixteen_table (Some (Release 1)))) ≡ 8 ∷ [] }
    ensures case_9 { numbers_of (fitting_rows false (rows sixteen_table (Some (Full (trunk_sid 3 2))))) ≡ 9 ∷ [] }
    ensures case_10 { numbers_of (fitting_rows true (rows sixteen_table (Some (Full (trunk_sid 3 2))))) ≡ 10 ∷ [] }
    ensures case_11 { numbers_of (fitting_rows false (rows sixteen_table (Some (Full (trunk_sid 1 1))))) ≡ 11 ∷ [] }
    ensures case_12 { numbers_of (fitting_rows false (rows sixteen_table (Some (Branch 1 2 1)))) ≡ 12 ∷ [] }
    ensures case_13 { numbers_of (fitting_rows true (rows sixteen_table (Some (Branch 1 2 1)))) ≡ 13 ∷ [] }
    ensures case_14 { numbers_of (fitting_rows false (rows sixteen_table (Some (Full (branch_sid 1 2 1 2))))) ≡ 14
        ∷ [] }
    ensures case_15 { numbers_of (fitting_rows true (rows sixteen_table (Some (Full (branch_sid 1 2 1 2))))) ≡ 15 ∷ [] }
    ensures case_16 { numbers_of (fitting_rows true (rows sixteen_table (Some (Full (branch_sid 1 2 1 1))))) ≡ 16 ∷ [] }
    ensures nowhere { numbers_of (fitting_rows false (rows [] (Some (Release 1)))) ≡ [] }
{}

/// The SIDs that are made beside reserved ones, and where no number is left.
pub fn sids_made_beside_others()
    ensures trunk { made_on sixteen_table (trunk_sid 3 3 ∷ []) (trunk_sid 3 2) None false ≡ Some (branch_sid 3 2 1 1) }
    ensures branch { made_on sixteen_table (branch_sid 1 2 1 3 ∷ []) (branch_sid 1 2 1 2) (Some (Branch 1 2 1)) false
        ≡ Some (branch_sid 1 2 3 1) }
    ensures new_branch { made_on sixteen_table (branch_sid 1 2 3 1 ∷ []) (trunk_sid 1 2) (Some (Release 1)) false ≡ Some
        (branch_sid 1 2 4 1) }
    ensures full { made_on [] [] (trunk_sid 1 9999) None false ≡ None }
{}

/// The serials that lists name, each once, and the SID that is named as bad.
pub fn lists_named()
    ensures trunk { named_serials sixteen_table [] (from_to (trunk_sid 1 1) (trunk_sid 3 2) ∷ [])
        ≡ Ok (1 ∷ 2 ∷ 3 ∷ 4 ∷ []) }
    ensures branch { named_serials sixteen_table []
        (single (branch_sid 1 2 1 2) ∷ from_to (branch_sid 1 2 1 1) (branch_sid 1 2 1 2) ∷ [])
        ≡ Ok (6 ∷ 5 ∷ []) }
    ensures first_end { named_serials sixteen_table [] (from_to (trunk_sid 9 9) (trunk_sid 9 8) ∷ [])
        ≡ Err (trunk_sid 9 9) }
    ensures last_end { named_serials sixteen_table [] (from_to (trunk_sid 1 1) (trunk_sid 4 1) ∷ [])
        ≡ Err (trunk_sid 4 1) }
    ensures order { named_serials sixteen_table []
        (single (trunk_sid 1 1) ∷ from_to (trunk_sid 3 1) (trunk_sid 1 2) ∷ single (trunk_sid 9 9) ∷ [])
        ≡ Err (trunk_sid 1 2) }
    ensures line { named_serials sixteen_table [] (from_to (trunk_sid 1 1) (branch_sid 1 2 1 1) ∷ [])
        ≡ Err (branch_sid 1 2 1 1) }
    ensures branches { named_serials sixteen_table []
        (from_to (branch_sid 1 2 1 1) (branch_sid 1 2 2 1) ∷ [])
        ≡ Err (branch_sid 1 2 2 1) }
    ensures both { both_listed sixteen_table (3 ∷ 2 ∷ 1 ∷ []) (1 ∷ 2 ∷ []) ≡ Some (trunk_sid 1 2) }
{}
