ghost use Rattle.std.specs.Prelude.{◌≡◌, ◌==◌, find, IfSome};
ghost use Rattle.std.specs.Option.{option_copied};
ghost use Rattle.sccs_sid.specs.Spec.{IsSpec};
ghost use Rattle.sccs_sets.specs.Flags.{default_of};

use sccs_history::Flag;
use sccs_sid::Spec;

// the flag d
fn default_flag(flags: &[Flag]) -> Option<&Flag>
    ensures { option_copied result ≡ find (λ f. f.letter == 100) flags.now }
{
    flags.iter().find(|flag| flag.letter == b'd')
}

/// The SID that the flag d names, where it is there: sccsfile(4), "Flags".
pub fn default_of(flags: &[Flag]) -> Option<Spec>
    ensures value { result ≡ default_of flags.now }
    ensures valid { IfSome result IsSpec }
{
    match default_flag(flags) {
        Some(flag) => match Spec::read(flag.text.bytes()) {
            Ok(spec) => Some(spec),
            Err(_) => None,
        },
        None => None,
    }
}
