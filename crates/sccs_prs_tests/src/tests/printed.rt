ghost use Rattle.std.specs.Prelude.{◌≡◌, true};
ghost use Rattle.sccs_base.specs.Name.{is_sfile_name};

use sccs_base::{Bytes, Line, MemorySink, MemorySource, Name, Words};
use sccs_disk::MemoryDisk;
use sccs_prs::Prs;
use sccs_sid::{Refusal, StepFault};
use sccs_steps::Utility;
use sccs_words::{Command, PrsWords, read_words};
use std::alloc::Global;
use std::test::Fail;

// two deltas on the trunk and a branch on the first
const S_FILE: &[u8] =
    b"\x01h13003\n\x01s 00001/00000/00002\n\x01d D 1.1.1.1 99/12/31 23:59:59 bob 3 1\n\x01c\n\x01e\n\
        \x01s 00001/00001/00001\n\x01d D 1.2 75/03/01 00:00:00 ann 2 1\n\x01c two\n\x01e\n\x01s 00002/00000/00000\n\
        \x01d D 1.1 75/02/28 23:59:59 ann 1 0\n\x01c one\n\x01e\n\x01u\nann\nbob\n\x01U\n\x01f e 0\n\x01t\n\x01T\n\
        \x01I 1\na\n\x01D 2\nb\n\x01E 2\n\x01I 2\nB\n\x01E 2\n\x01I 3\nc\n\x01E 3\n\x01E 1\n";

// the words of a line, which semicolons part
fn words_of(alloc: Global, line: &[u8]) -> Result<Words, Fail> {
    let mut words = Words::new(alloc);
    for word in line.split(|byte| *byte == b';') {
        words.push(Bytes::new(alloc, word)?)?;
    }
    Ok(words)
}

// the words of prs in a line
fn prs_words(alloc: Global, line: &[u8]) -> Result<PrsWords, Fail> {
    match read_words(alloc, &words_of(alloc, line)?) {
        Ok(Command::Prs(words, _)) => Ok(words),
        _ => Err("words of prs".into()),
    }
}

// a disk with the s-file
fn folder(alloc: Global, name: &Name) -> Result<MemoryDisk, Fail> {
    let mut disk = MemoryDisk::new(alloc, 200, &[])?;
    disk.put(name, S_FILE, false)?;
    Ok(disk)
}

// what prs answers over a disk
fn shown_on(
    alloc: Global,
    prs: &Prs,
    name: &Name,
    out: &mut MemorySink,
    disk: &mut MemoryDisk,
) -> Result<Result<(), StepFault>, Fail>
    requires { is_sfile_name name.now ≡ true }
{
    let mut input = MemorySource::new(alloc, b"", &[])?;
    let mut err = MemorySink::new(alloc, 100, &[])?;
    Ok(prs.step(alloc, name, &mut input, out, &mut err, disk))
}

// what it answers on the s-file
fn shown_by(alloc: Global, prs: &Prs, out: &mut MemorySink) -> Result<Result<(), StepFault>, Fail> {
    let name = Name::read_sfile(b"s.b").ok_or("a name")?;
    if !name.is_sfile() {
        return Err("a name of an s-file".into());
    }
    let mut disk = folder(alloc, &name)?;
    shown_on(alloc, prs, &name, out, &mut disk)
}

// what a line answers on the s-file
fn shown(alloc: Global, line: &[u8], out: &mut MemorySink) -> Result<Result<(), StepFault>, Fail> {
    let words = prs_words(alloc, line)?;
    let place = Line::new(alloc, b"/d")?;
    let prs = Prs {
        words: &words,
        place: &place,
    };
    shown_by(alloc, &prs, out)
}

// whether a line prints this text
fn prints(alloc: Global, line: &[u8], wanted: &[u8]) -> Result<bool, Fail> {
    let mut out = MemorySink::new(alloc, 1000, &[])?;
    let answer = shown(alloc, line, &mut out)?;
    Ok((answer == Ok(())) & (out.bytes() == wanted))
}

#[test]
fn keywords_of_a_delta(rt: HostRuntime) -> Result<(), Fail> {
    let alloc = rt.alloc();
    let short = prints(
        alloc,
        b"prs;-r1.1.1.1;-d:I: :DL: :DS:/:DP: [:C:] :W: :zz:;s.b",
        b"1.1.1.1 00001/00000/00002 3/1 [\n] @(#)b\t1.1.1.1 :zz:\n",
    )?;
    let texts = prints(
        alloc,
        b"prs;-r1.1.1.1;-d:GB:|:UN:|:DI:|:DT:|:Dy::Dm::Dd:|:T:|:KF:|:PN:;s.b",
        b"a\nb\nc\n|ann\nbob\n|//|D|991231|23:59:59|no|/d/s.b\n",
    )?;
    assert!(rt; short & texts);
    Ok(())
}

#[test]
fn all_deltas(rt: HostRuntime) -> Result<(), Fail> {
    let alloc = rt.alloc();
    let all = prints(
        alloc,
        b"prs;s.b",
        b"s.b:\n\nD 1.1.1.1 99/12/31 23:59:59 bob 3 1\t00001/00000/00002\nMRs:\nCOMMENTS:\n\n\n\
            D 1.2 75/03/01 00:00:00 ann 2 1\t00001/00001/00001\nMRs:\nCOMMENTS:\ntwo\n\n\
            D 1.1 75/02/28 23:59:59 ann 1 0\t00002/00000/00000\nMRs:\nCOMMENTS:\none\n\n",
    )?;
    assert!(rt; all);
    Ok(())
}

#[test]
fn deltas_beside_one(rt: HostRuntime) -> Result<(), Fail> {
    let alloc = rt.alloc();
    let earlier = prints(alloc, b"prs;-e;-r1.2;-d:I:;s.b", b"1.2\n1.1\n")?;
    let later = prints(alloc, b"prs;-l;-r1.2;-d:I:;s.b", b"1.1.1.1\n1.2\n")?;
    let newest = prints(alloc, b"prs;-d:I:\\t:P:;s.b", b"1.1.1.1\tbob\n")?;
    let cut = prints(alloc, b"prs;-c7502;-e;-d:I:;s.b", b"1.1\n")?;
    assert!(rt; earlier & later & newest & cut);
    Ok(())
}

#[test]
fn body_as_it_is(rt: HostRuntime) -> Result<(), Fail> {
    let alloc = rt.alloc();
    let body = prints(
        alloc,
        b"prs;-d:BD:;s.b",
        b"\x01I 1\na\n\x01D 2\nb\n\x01E 2\n\x01I 2\nB\n\x01E 2\n\x01I 3\nc\n\x01E 3\n\x01E 1\n\n",
    )?;
    assert!(rt; body);
    Ok(())
}

#[test]
fn no_such_delta(rt: HostRuntime) -> Result<(), Fail> {
    let alloc = rt.alloc();
    let mut out = MemorySink::new(alloc, 100, &[])?;
    let answer = shown(alloc, b"prs;-r9.9;s.b", &mut out)?;
    let refused = answer == Err(StepFault::Refused(Refusal::NoSid));
    assert!(rt; refused & out.bytes().is_empty());
    Ok(())
}
