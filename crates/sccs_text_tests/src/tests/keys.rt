ghost use Rattle.sccs_keywords.specs.Expansion.{HasMoments};

use crate::tests::samples::facts;
use sccs_base::MemorySink;
use sccs_keywords::{Facts, expand, has_keyword};
use std::alloc::Global;
use std::test::Fail;

// whether a line becomes this one, and has a keyword where it is another
fn becomes(alloc: Global, facts: &Facts, line: &[u8], wanted: &[u8]) -> Result<bool, Fail>
    requires { HasMoments facts.now }
{
    let mut out = MemorySink::new(alloc, 200, &[])?;
    expand(line, 7, facts, &mut out)?;
    Ok((out.bytes() == wanted) & (has_keyword(line) == (line != wanted)))
}

#[test]
fn keywords_replaced(rt: HostRuntime) -> Result<(), Fail> {
    let alloc = rt.alloc();
    let facts = facts(alloc, 2)?;
    let row = becomes(
        alloc,
        &facts,
        b"%W%|%A%|%B%%S%|%%M%%|%X%|50%",
        b"@(#)a\t1.2|@(#)c a 1.2@(#)||%a%|%X%|50%",
    )?;
    let others = becomes(
        alloc,
        &facts,
        b"%M% %I% %R%.%L% %D% %H% %T% %E% %G% %U% %Y% %Q% %F% %P% %C% %Z%",
        b"a 1.2 1.2 70/01/01 01/01/70 00:00:00 70/01/02 01/02/70 01:01:01 c u s.a /d/s.a 7 @(#)",
    )?;
    let none = becomes(alloc, &facts, b"%m% %M", b"%m% %M")?;
    assert!(rt; row & others & none);
    Ok(())
}
