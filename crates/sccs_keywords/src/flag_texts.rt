ghost use Rattle.std.specs.Prelude.{◌≡◌, drop, option_map, unwrap_or};
ghost use Rattle.std.specs.Option.{option_copied};
ghost use Rattle.sccs_base.specs.Name.{IsSFileName};
ghost use Rattle.sccs_flags.specs.FlagValues.{flag_of};
ghost use Rattle.sccs_keywords.specs.VersionFacts.{flag_text, kind_flags, module_name, user};

use sccs_base::Name;
use sccs_history::Flag;

// the text of the flag of a letter, else another
fn flag_text<'a>(flags: &'a [Flag], letter: u8, otherwise: &'a [u8]) -> &'a [u8]
    ensures { result.now ≡ flag_text flags.now letter otherwise.now }
{
    match flags.iter().find(|flag| flag.letter == letter) {
        Some(flag) => flag.text.bytes(),
        None => otherwise,
    }
}

/// The module's name: the text of the flag m, else the name of the s-file without `s.`. POSIX get, %M%.
pub fn module_name<'a>(flags: &'a [Flag], name: &'a Name) -> &'a [u8]
    requires { IsSFileName name.now }
    ensures { result.now ≡ module_name flags.now name.now }
{
    flag_text(flags, b'm', &name.bytes()[2..])
}

/// The text of the flag t. POSIX get, %Y%.
pub fn kind(flags: &[Flag]) -> &[u8]
    ensures { result.now ≡ kind_flags flags.now }
{
    flag_text(flags, b't', b"")
}

/// The text of the flag q. POSIX get, %Q%.
pub fn user(flags: &[Flag]) -> &[u8]
    ensures { result.now ≡ user flags.now }
{
    flag_text(flags, b'q', b"")
}
