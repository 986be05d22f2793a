use sccs_base::Name;
use std::test::Fail;

/// The name of a file.
pub fn name(text: &[u8]) -> Result<Name, Fail> {
    Ok(Name::read(text).ok_or("a name")?)
}
