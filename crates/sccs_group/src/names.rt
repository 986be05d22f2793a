ghost use Rattle.std.specs.Prelude.{◌≡◌, true};
ghost use Rattle.sccs_base.specs.Name.{is_name};
ghost use Rattle.sccs_intents.specs.Intents.{intent_file, plan_file};

use sccs_base::Name;

// the name that bytes are known to be
fn named(bytes: &[u8]) -> Name
    requires { is_name bytes.now ≡ true }
    ensures { result ≡ bytes.now }
{
    match Name::read(bytes) {
        Some(name) => name,
        None => unreachable!(),
    }
}

/// The name of the intent of a group: `sccs.intent`.
pub fn intent_name() -> Name
    ensures { result ≡ intent_file }
{
    named(b"sccs.intent")
}

/// The name under which an intent is written before it counts: `sccs.plan`.
pub fn plan_name() -> Name
    ensures { result ≡ plan_file }
{
    named(b"sccs.plan")
}
