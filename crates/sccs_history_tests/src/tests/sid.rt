use sccs_base::MemorySink;
use sccs_sid::words::{drop_blanks, next_word, one_word, three};
use sccs_sid::*;
use std::test::Fail;

const fn sid(release: u16, level: u16, branch: u16, sequence: u16) -> Sid {
    Sid {
        release,
        level,
        branch,
        sequence,
    }
}

#[test]
fn lists_and_their_places(rt: HostRuntime) -> Result<(), Fail> {
    let rows: [(&[u8], u64); 20] = [
        (b"1.2", 0),
        (b"1.2-1.4", 0),
        (b"1.1,1.3-1.2.1.10,0002.9", 0),
        (b"1.0,1.2", 4),
        (b"1.000", 6),
        (b"1.0000", 6),
        (b"1.00x", 5),
        (b"1.12345", 7),
        (b"1.2.3,", 6),
        (b"1.2.3", 6),
        (b"", 1),
        (b"1.2,", 5),
        (b"1.2-", 5),
        (b"1", 2),
        (b"1.", 3),
        (b"1.2,,1.3", 5),
        (b"1.2, 1.3", 5),
        (b"1.2-1.3-1.4", 8),
        (b"1.2.3.4.5", 8),
        (b"0.1", 2),
    ];
    for (text, place) in rows {
        let found = match SidList::read(rt.alloc(), text) {
            Ok(_) => 0,
            Err(ListFault::Malformed(place)) => place,
            Err(ListFault::Memory) => 99,
        };
        assert_eq!(rt; found, place);
    }
    Ok(())
}

// whether a list has these two ranges
fn has_ranges(list: &SidList, first: &Range, second: &Range) -> bool {
    list.len() == 2 && *list.at(0) == *first && *list.at(1) == *second
}

// whether a range comes first once it is put there; the one behind it goes
fn comes_first(list: &mut SidList, range: Range) -> bool {
    let put = list.insert(0, range).is_ok();
    if list.len() < 2 {
        return false;
    }
    list.remove(1);
    put & (*list.at(0) == range)
}

#[test]
fn a_list_of_ranges(rt: HostRuntime) -> Result<(), Fail> {
    let one = Range {
        first: sid(1, 2, 0, 0),
        last: sid(1, 2, 0, 0),
    };
    let two = Range {
        first: sid(1, 3, 0, 0),
        last: sid(1, 2, 1, 10),
    };
    let mut list = SidList::read(rt.alloc(), b"1.2,1.3-1.2.1.10")?;
    let read = has_ranges(&list, &one, &two);
    assert!(rt; read & comes_first(&mut list, two));
    assert_eq!(rt; SidList::empty(rt.alloc()).len(), 0);
    Ok(())
}

fn sids_are_read() -> bool {
    let trunk = Sid::read(b"1.2") == Ok(sid(1, 2, 0, 0));
    let branch = Sid::read(b"1.2.3.0004") == Ok(sid(1, 2, 3, 4));
    let zero = Sid::read(b"1.0") == Err(SidFault::OutOfRange);
    let prefix = Sid::read(b"1.0.1") == Err(SidFault::Malformed);
    trunk & branch & zero & prefix
}

fn prefixes_are_read() -> bool {
    let release = Spec::read(b"7") == Ok(Spec::Release(7));
    let branch = Spec::read(b"1.2.3") == Ok(Spec::Branch(1, 2, 3));
    let full = Spec::read(b"1.2") == Ok(Spec::Full(sid(1, 2, 0, 0)));
    let zero = Spec::read(b"1.2.0") == Err(SidFault::OutOfRange);
    let dot = Spec::read(b"1.") == Err(SidFault::Malformed);
    release & branch & full & zero & dot
}

#[test]
fn sids_and_their_prefixes(rt: HostRuntime) -> Result<(), Fail> {
    assert!(rt; sids_are_read());
    assert!(rt; prefixes_are_read());
    Ok(())
}

const fn at(seconds: i64) -> Result<Moment, MomentFault> {
    Ok(Moment { seconds })
}

const fn fault(place: u64) -> Result<Moment, MomentFault> {
    Err(MomentFault { place })
}

fn moments_are_read() -> bool {
    let later = Moment::read(b"75/2/28", b"23:59:59") == at(162_863_999);
    let day = Moment::read(b"75/2/29", b"0:0:0") == fault(3);
    let month = Moment::read(b"75", b"0:0:0") == fault(2);
    let second = Moment::read(b"75/2/1", b"0:0") == fault(6);
    later & day & month & second
}

fn cutoffs_are_read() -> bool {
    let month = Cutoff::read(b"7502") == at(162_863_999);
    let parted = Cutoff::read(b"77/2/2 9:22:25") == at(223_723_345);
    let joined = Cutoff::read(b"770202092225") == at(223_723_345);
    let none = Cutoff::read(b"") == fault(1);
    let thirteenth = Cutoff::read(b"7513") == fault(2);
    let seventh = Cutoff::read(b"7702020922251") == fault(7);
    month & parted & joined & none & thirteenth & seventh
}

#[test]
fn moments_and_cutoffs(rt: HostRuntime) -> Result<(), Fail> {
    assert!(rt; moments_are_read());
    assert!(rt; cutoffs_are_read());
    assert_eq!(rt; Moment::from_seconds(3_124_224_000), None);
    assert!(rt; Moment::from_seconds(-31_536_000).is_some());
    Ok(())
}

#[test]
fn written_texts(rt: HostRuntime) -> Result<(), Fail> {
    let mut sink = MemorySink::new(rt.alloc(), 1000, &[])?;
    sid(1, 20, 0, 0).write(&mut sink)?;
    sid(1, 2, 3, 4000).write(&mut sink)?;
    let leap = Moment {
        seconds: 951_868_799,
    };
    leap.write(&mut sink)?;
    for refusal in [
        Refusal::BadName,
        Refusal::BadSum(3, 65535),
        Refusal::BadFormat(12),
        Refusal::BadList(sid(1, 2, 3, 4)),
        Refusal::BadList(sid(5, 6, 0, 0)),
        Refusal::ScriptRange(u64::MAX, u64::MAX),
        Refusal::FlagBad(b'x'),
        Refusal::NotTip,
        Refusal::NotOwner,
        Refusal::Changed(1, 2, 3, 4),
        Refusal::BadRcs(7),
        Refusal::BadRevision(0),
        Refusal::RcsScript(2, 1),
        Refusal::RcsScript(u64::MAX, u64::MAX),
        Refusal::GroupPending,
        Refusal::BadIntent(1),
    ] {
        write_refusal(b"s.a", &refusal, &mut sink)?;
    }
    let wanted = b"1.201.2.3.400000/02/29 23:59:59ERROR [s.a]: not a name of an s-file (01)\n\
            ERROR [s.a]: bad sum: stored 00003, computed 65535 (07)\nERROR [s.a]: format error at line 12 (08)\n\
            ERROR [s.a]: bad list at 1.2.3.4 (16)\nERROR [s.a]: bad list at 5.6 (16)\n\
            ERROR [s.a]: script line 18446744073709551615: text has 18446744073709551615 lines (22)\n\
            ERROR [s.a]: bad flag x (27)\nERROR [s.a]: not the newest delta of its branch (31)\n\
            ERROR [s.a]: not the owner (32)\nERROR [s.a]: file changed while read (34)\n\
            ERROR [s.a]: bad RCS file at byte 7 (35)\nERROR [s.a]: revision 0 is unfit (36)\n\
            ERROR [s.a]: revision 2 fails at line 1 (37)\n\
            ERROR [s.a]: revision 18446744073709551615 fails at line 18446744073709551615 (37)\n\
            ERROR [s.a]: a group is pending (38)\nERROR [s.a]: format error in intent at line 1 (39)\n";
    assert_eq!(rt; sink.bytes(), wanted.as_slice());
    Ok(())
}

fn words_are_found() -> bool {
    let (first, rest) = next_word(b"  one  two ");
    let word = first == b"one".as_slice();
    let last = one_word(rest) == Some(b"two".as_slice());
    let none = one_word(b"one two").is_none();
    word & last & none & (drop_blanks(b" a b  ") == b" a b".as_slice())
}

fn threes_are_read() -> bool {
    let numbers = three(5, b'/', b"00012/3/00000") == Some((12, 3, 0));
    numbers & three(5, b'/', b"1/2").is_none()
}

#[test]
fn words_of_a_line(rt: HostRuntime) -> Result<(), Fail> {
    assert!(rt; words_are_found());
    assert!(rt; threes_are_read());
    Ok(())
}
