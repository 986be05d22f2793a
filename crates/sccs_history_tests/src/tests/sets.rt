ghost use Rattle.std.specs.Prelude.{◌≡◌, [], true, IfOk};
ghost use Rattle.std.specs.List.{AllByRecursion};
ghost use Rattle.sccs_history.specs.Applied.{live_serials};
ghost use Rattle.sccs_history.specs.Numbers.{has};
ghost use Rattle.sccs_sets.specs.Samples.{listing, plain};
ghost use Rattle.sccs_sets.specs.Retrieved.{trunk_sid};

use sccs_base::{ListOf, Login, Memory, Text};
use sccs_history::{Flags, Header, Record, Records, Serials};
use sccs_sets::*;
use sccs_sid::{Moment, Range, Sid, SidList, Spec};
use std::alloc::Global;
use std::test::Fail;

fn plain(alloc: Global, serial: u16, predecessor: u16, sid: Sid, exclude: Serials) -> Record
    ensures { result ≡ plain serial predecessor sid exclude }
{
    Record {
        serial,
        removed: false,
        sid,
        moment: Moment { seconds: 0 },
        login: Login::nobody(),
        predecessor,
        include: Serials::empty(alloc),
        exclude,
        ignore: Serials::empty(alloc),
        mrs: Text::empty(alloc),
        comments: Text::empty(alloc),
        inserted: 0,
        deleted: 0,
        unchanged: 0,
    }
}

fn trunk(level: u16) -> Sid
    ensures { result ≡ trunk_sid 1 level }
{
    Sid {
        release: 1,
        level,
        branch: 0,
        sequence: 0,
    }
}

fn numbers(alloc: Global, numbers: &[u16]) -> Result<Serials, Memory>
    ensures { IfOk result (λ list. list ≡ numbers.now) }
{
    Ok(ListOf::from_vec(numbers.to_vec(alloc)?))
}

fn listing(alloc: Global) -> Result<Header, Memory>
    ensures { IfOk result (λ h. h.records ≡ listing) }
{
    let branch = Sid {
        release: 1,
        level: 2,
        branch: 1,
        sequence: 1,
    };
    let records = vec![in alloc;
        plain(alloc, 4, 2, trunk(3), Serials::empty(alloc)),
        plain(alloc, 3, 2, branch, numbers(alloc, &[2])?),
        plain(alloc, 2, 1, trunk(2), Serials::empty(alloc)),
        plain(alloc, 1, 0, trunk(1), Serials::empty(alloc)),
    ]?;
    Ok(Header {
        records: Records::from_vec(records),
        users: Text::empty(alloc),
        flags: Flags::empty(alloc),
        description: Text::empty(alloc),
    })
}

// which of the serials 1 to 4 the set of delta 4 has, with these lists; None where there is none
fn first_four(
    alloc: Global,
    header: &Header,
    include: &Serials,
    exclude: &Serials,
) -> Option<[bool; 4]>
    requires listing { header.now.records ≡ listing }
    requires include { AllByRecursion (λ n. has (live_serials listing) n ≡ true) include.now }
    requires exclude { AllByRecursion (λ n. has (live_serials listing) n ≡ true) exclude.now }
{
    match delta_set(alloc, header, 4, include, exclude, None) {
        Ok(set) => Some([set.has(1), set.has(2), set.has(3), set.has(4)]),
        Err(_) => None,
    }
}

// the SID that both lists name
fn shared(alloc: Global, header: &Header, include: &Serials, exclude: &Serials) -> Option<Sid>
    requires listing { header.now.records ≡ listing }
    requires include { AllByRecursion (λ n. has (live_serials listing) n ≡ true) include.now }
    requires exclude { AllByRecursion (λ n. has (live_serials listing) n ≡ true) exclude.now }
{
    match delta_set(alloc, header, 4, include, exclude, None) {
        Err(SetFault::BadList(sid)) => Some(sid),
        _ => None,
    }
}

fn with_three(alloc: Global, header: &Header) -> Result<Option<[bool; 4]>, Fail>
    requires { header.now.records ≡ listing }
{
    let include = numbers(alloc, &[3])?;
    Ok(first_four(alloc, header, &include, &Serials::empty(alloc)))
}

#[test]
fn included_delta_brings_its_lists(rt: HostRuntime) -> Result<(), Fail> {
    let header = listing(rt.alloc())?;
    assert_eq!(rt;
        with_three(rt.alloc(), &header)?,
        Some([true, false, true, true])
    );
    Ok(())
}

fn with_include(alloc: Global, header: &Header, include: &Serials) -> Result<Option<Sid>, Fail>
    requires listing { header.now.records ≡ listing }
    requires include { AllByRecursion (λ n. has (live_serials listing) n ≡ true) include.now }
{
    let exclude = numbers(alloc, &[1, 2])?;
    Ok(shared(alloc, header, include, &exclude))
}

fn with_both(alloc: Global, header: &Header) -> Result<Option<Sid>, Fail>
    requires { header.now.records ≡ listing }
{
    let include = numbers(alloc, &[4, 2, 1])?;
    with_include(alloc, header, &include)
}

#[test]
fn a_sid_in_both_lists_is_named(rt: HostRuntime) -> Result<(), Fail> {
    let header = listing(rt.alloc())?;
    assert_eq!(rt; with_both(rt.alloc(), &header)?, Some(trunk(2)));
    Ok(())
}

// whether a list of ranges names these serials, or the SID at fault
fn names(alloc: Global, header: &Header, list: &SidList, wanted: Result<&[u16], Sid>) -> bool {
    match serials(alloc, header, list) {
        Ok(named) => wanted == Ok(named.items()),
        Err(SetFault::BadList(sid)) => wanted == Err(sid),
        Err(SetFault::Memory) => false,
    }
}

fn are_named(alloc: Global, header: &Header, list: &mut SidList) -> Result<bool, Fail>
    requires { list.old ≡ [] }
{
    let first = Range {
        first: trunk(1),
        last: trunk(3),
    };
    list.insert(0, first)?;
    let named = names(alloc, header, list, Ok(&[1, 2, 4]));
    let second = Range {
        first: trunk(3),
        last: trunk(2),
    };
    list.insert(1, second)?;
    Ok(named & names(alloc, header, list, Err(trunk(2))))
}

#[test]
fn ranges_name_serials(rt: HostRuntime) -> Result<(), Fail> {
    let header = listing(rt.alloc())?;
    assert!(rt; are_named(rt.alloc(), &header, &mut SidList::empty(rt.alloc()))?);
    assert_eq!(rt; retrieve(&header, Some(&Spec::Release(7)), false), Ok(4));
    Ok(())
}

// puts one SID at the front of a list, ten times
fn put_often(list: &mut SidList, sid: Sid) -> Result<(), Fail> {
    for _ in 0..10u64 {
        let range = Range {
            first: sid,
            last: sid,
        };
        list.insert(0, range)?;
    }
    Ok(())
}

fn many_are_named(alloc: Global, header: &Header, list: &mut SidList) -> Result<bool, Fail> {
    put_often(list, trunk(3))?;
    put_often(list, trunk(1))?;
    let named = names(alloc, header, list, Ok(&[1, 4]));
    put_often(list, trunk(9))?;
    Ok(named & names(alloc, header, list, Err(trunk(9))))
}

#[test]
fn long_lists_name_serials(rt: HostRuntime) -> Result<(), Fail> {
    let header = listing(rt.alloc())?;
    assert!(rt; many_are_named(rt.alloc(), &header, &mut SidList::empty(rt.alloc()))?);
    Ok(())
}
