ghost use Rattle.std.specs.Prelude.{◌≡◌, ℕ, List, Ok};
ghost use Rattle.sccs_script_laws.specs.declared.scripts.Order.{Order};
ghost use Rattle.sccs_script.specs.Checks.{checked_script, HaveLines};
ghost use Rattle.sccs_script.specs.Commands.{orders_of};

/// The texts of a script that `read_script` gave and `check` accepted are lines of an s-file: none has
/// LF, and none begins with SOH.
pub fn checked_texts()
    ensures { (bytes : List ℕ) (orders : List Order) (lines : ℕ)
        → orders_of bytes ≡ Ok orders → checked_script orders lines ≡ Ok tt → HaveLines orders }
{}
