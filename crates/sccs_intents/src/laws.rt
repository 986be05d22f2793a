//! Laws: what the definitions of this crate say together. Each is proved of all values.
ghost use Rattle.std.specs.Prelude.{◌≡◌, ◌≤◌, ℕ, List, Ok, length};
ghost use Rattle.sccs_base.specs.Constants.{file_limit};
ghost use Rattle.sccs_intents.specs.Intents.{AreOthers, intent_of};
ghost use Rattle.sccs_intents.specs.Written.{IsIntent, intent_text};
ghost use Rattle.sccs_intents.specs.declared.intents.IntentEntry.{IntentEntry};

/// The text of an intent is read as its entries. What is read are the entries of an intent, and its
/// bytes are their text: an intent has one spelling.
pub fn intents_are_read_again()
    ensures written { (entries : List IntentEntry) → IsIntent entries → intent_of (intent_text entries) ≡ Ok entries }
    ensures read { (bytes : List ℕ) (entries : List IntentEntry) → intent_of bytes ≡ Ok entries → IsIntent entries }
    ensures spelled { (bytes : List ℕ) (entries : List IntentEntry) → intent_of bytes ≡ Ok entries
        → bytes ≡ intent_text entries }
{}

/// The text of up to a thousand entries is within the limit of a file.
pub fn thousand_entries_fit()
    ensures { (entries : List IntentEntry) → AreOthers entries → length entries ≤ 1000
        → length (intent_text entries) ≤ file_limit }
{}
