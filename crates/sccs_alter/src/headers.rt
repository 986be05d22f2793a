ghost use Rattle.std.specs.Prelude.{◌≢◌, ◌≤◌, Err, length};
ghost use Rattle.sccs_base.specs.Constants.{file_limit};
ghost use Rattle.sccs_sid.specs.declared.refusals.StepFault.TheVariants as faults;
ghost use Rattle.sccs_steps.specs.Actions.{RefusesWithin};
ghost use Rattle.sccs_changes.specs.PFiles.{Answers};
ghost use Rattle.sccs_alter.specs.AlterStep.{alter_checks, altered_header};

use sccs_admin::{described, flags_of};
use sccs_history::Header;
use sccs_rules::change_users;
use sccs_sid::StepFault;
use sccs_words::AdminWords;
use std::alloc::Global;

/// The header with other users, flags and description.
pub fn altered_header(
    alloc: Global,
    words: &AdminWords,
    header: Header,
    text: &[u8],
) -> Result<Header, StepFault>
    requires { length text.now ≤ file_limit }
    ensures value { Answers (altered_header words.now header text.now) result }
    ensures checks { RefusesWithin alter_checks result }
    ensures broke { result ≢ Err faults.DiskFault }
{
    let description = described(alloc, words.description, header.description, text)?;
    let flags = flags_of(alloc, words, header.flags)?;
    let Ok(users) = change_users(alloc, header.users, &words.add, &words.erase) else {
        return Err(StepFault::Memory);
    };
    Ok(Header {
        records: header.records,
        users,
        flags,
        description,
    })
}
