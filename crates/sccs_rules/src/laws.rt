ghost use Rattle.std.specs.Prelude.{◌≡◌, ℕ, List, Ok};
ghost use Rattle.sccs_history.specs.History.{AreBare, AreLines, IsHeader, IsSpelled};
ghost use Rattle.sccs_history.specs.declared.headers.Flag.{Flag};
ghost use Rattle.sccs_history.specs.declared.headers.Header.{Header};
ghost use Rattle.sccs_rules.specs.Flags.{changed_flags};
ghost use Rattle.sccs_rules.specs.Rules.{with_rules};
ghost use Rattle.sccs_rules.specs.Users.{changed_users};

/// A header keeps its rules, and its spelling, with users and flags changed and with another description, of
/// which no line begins with SOH.
pub fn changes_keep_rules()
    ensures header { (h : Header) (added erased set removed : List (List ℕ)) (flags : List Flag)
        (description : List (List ℕ))
        → IsHeader h → changed_flags h.flags set removed ≡ Ok flags → AreBare description
        → IsHeader (with_rules h (changed_users h.users added erased) flags description) }
    ensures spelled { (h : Header) (added erased set removed : List (List ℕ)) (flags : List Flag)
        (description : List (List ℕ))
        → IsSpelled h → changed_flags h.flags set removed ≡ Ok flags → AreLines description
        → IsSpelled (with_rules h (changed_users h.users added erased) flags description) }
{}
