use sccs_base::*;
use std::alloc::Global;
use std::io;
use std::io::Write;
use std::test::Fail;

fn nine(alloc: Global) -> Result<SteadySource, Memory> {
    SteadySource::new(alloc, b"123456789")
}

fn is_too_long(alloc: Global) -> Result<bool, Fail> {
    let mut source = nine(alloc)?;
    Ok(matches!(take_all(alloc, &mut source, 8), Err(TakeFault::TooLong)))
}

fn are_nine(alloc: Global) -> Result<bool, Fail> {
    let mut source = nine(alloc)?;
    let bytes = take_all(alloc, &mut source, 9)?;
    Ok(bytes.bytes() == b"123456789".as_slice())
}

#[test]
fn takes_all_within_a_limit(rt: HostRuntime) -> Result<(), Fail> {
    assert!(rt; is_too_long(rt.alloc())? & are_nine(rt.alloc())?);
    Ok(())
}

fn has_lines(alloc: Global) -> Result<bool, Fail> {
    let text = Text::read(alloc, b"one\r\n\ntwo")?;
    let lines = text.items();
    Ok(match lines {
        [first, second, third] => {
            (first.bytes() == b"one\r".as_slice())
                & second.bytes().is_empty()
                & (third.bytes() == b"two".as_slice())
        }
        _ => false,
    })
}

fn has_line(alloc: Global) -> Result<bool, Fail> {
    let line = Line::new(alloc, b"one")?;
    Ok(line.bytes() == b"one".as_slice())
}

// puts two words into an empty list, and takes one out again
fn change(alloc: Global, words: &mut Words) -> Result<(), Fail> {
    words.push(Bytes::new(alloc, b"get")?)?;
    words.insert(0, Bytes::new(alloc, b"sccs")?)?;
    words.remove(1);
    Ok(())
}

fn has_one_word(alloc: Global) -> Result<bool, Fail> {
    let mut words = Words::new(alloc);
    change(alloc, &mut words)?;
    Ok(words.len() == 1)
}

#[test]
fn lines_and_words(rt: HostRuntime) -> Result<(), Fail> {
    let alloc = rt.alloc();
    let lines = has_lines(alloc)? & has_line(alloc)?;
    assert!(rt; lines & has_one_word(alloc)?);
    Ok(())
}

fn source_fails(alloc: Global) -> Result<bool, Fail> {
    let mut source = MemorySource::new(alloc, b"abc", &[1])?;
    let mut piece = [0; 2];
    let failed = source.take(&mut piece) == Err(Failed);
    Ok(failed & (source.take(&mut piece) == Ok(2)))
}

// whether a sink with room for four bytes fails at its second call, and where its room ends
fn sink_fails_twice(sink: &mut MemorySink) -> bool {
    let planned = give_parts(sink, &[b"ab".as_slice(), b"c".as_slice()]) == Err(Failed);
    let full = sink.give(b"cde") == Err(Failed);
    planned & full & (sink.give(b"cd") == Ok(()))
}

fn sink_fails(alloc: Global) -> Result<bool, Fail> {
    let mut sink = MemorySink::new(alloc, 4, &[2])?;
    let failed = sink_fails_twice(&mut sink);
    Ok(failed & (sink.bytes() == b"abcd".as_slice()))
}

#[test]
fn planned_calls_fail(rt: HostRuntime) -> Result<(), Fail> {
    assert!(rt; source_fails(rt.alloc())? & sink_fails(rt.alloc())?);
    Ok(())
}

// a writer that takes one byte a call, and none at one call, once it has taken so many
#[derive(Drop)]
struct Narrow {
    taken: Vec<u8>,
    fails_at: Option<usize>,
}

impl Write for Narrow {
    fn write(&mut self, bytes: &[u8]) -> io::Result<usize> {
        let Some(first) = bytes.first() else {
            return Ok(0);
        };
        if self.fails_at == Some(self.taken.len()) {
            self.fails_at = None;
            return Ok(0);
        }
        match self.taken.push(*first) {
            Ok(()) => Ok(1),
            Err(_) => Ok(0),
        }
    }

    fn flush(&mut self) -> io::Result<()> {
        Ok(())
    }
}

fn narrow_writer(alloc: Global, fails_at: Option<usize>) -> Narrow {
    Narrow {
        taken: Vec::new(alloc),
        fails_at,
    }
}

fn many(alloc: Global, count: usize) -> Result<Vec<u8>, Memory> {
    let bytes = vec![in alloc; b'x'; count]?;
    Ok(bytes)
}

fn source_passes_on(alloc: Global) -> Result<bool, Fail> {
    let mut source = ReaderSource::new(b"abc".as_slice());
    let bytes = take_all(alloc, &mut source, 10)?;
    Ok(bytes.bytes() == b"abc".as_slice())
}

fn gives_twice<S: Sink>(sink: &mut S) -> bool {
    let first = sink.give(b"abc") == Ok(());
    first & (sink.give(b"def") == Err(Failed))
}

fn sink_passes_on(alloc: Global) -> bool {
    let mut writer = narrow_writer(alloc, Some(5));
    let failed = gives_twice(&mut WriterSink::new(&mut writer));
    failed & (writer.taken.as_slice() == b"abcde".as_slice())
}

#[test]
fn adapters_pass_bytes_on(rt: HostRuntime) -> Result<(), Fail> {
    assert!(rt; source_passes_on(rt.alloc())? & sink_passes_on(rt.alloc()));
    Ok(())
}

// whether each of these is given, a long text among them
fn gives_all<S: Sink>(buffer: &mut OutputBuffer, sink: &mut S, long: &[u8]) -> bool {
    let first = buffer.give(sink, b"ab") == Ok(());
    let flushed = buffer.flush(sink) == Ok(());
    let held = buffer.give(sink, b"cd") == Ok(());
    let passed = buffer.give(sink, long) == Ok(());
    let last = buffer.give(sink, b"ef") == Ok(());
    first & flushed & held & passed & last & (buffer.flush(sink) == Ok(()))
}

fn buffer_gives(alloc: Global, writer: &mut Narrow, long: &[u8]) -> Result<bool, Fail> {
    let mut buffer = OutputBuffer::new(alloc)?;
    Ok(gives_all(&mut buffer, &mut WriterSink::new(writer), long))
}

// whether these are all bytes, each once
fn are_all(taken: &[u8]) -> bool {
    let front = taken.starts_with(b"abcdx");
    let back = taken.ends_with(b"xef");
    front & back & (taken.len() == 70_006)
}

fn buffer_passes_on(alloc: Global, long: &[u8]) -> Result<bool, Fail> {
    let mut writer = narrow_writer(alloc, None);
    let given = buffer_gives(alloc, &mut writer, long)?;
    Ok(given & are_all(writer.taken.as_slice()))
}

#[test]
fn a_buffer_passes_each_byte_on_once(rt: HostRuntime) -> Result<(), Fail> {
    let long = many(rt.alloc(), 70_000)?;
    assert!(rt; buffer_passes_on(rt.alloc(), long.as_slice())?);
    Ok(())
}

// whether what was held is given, and then the long text isn't
fn fails_behind<S: Sink>(buffer: &mut OutputBuffer, sink: &mut S, long: &[u8]) -> bool {
    let first = buffer.give(sink, b"ab") == Ok(());
    let flushed = buffer.flush(sink) == Ok(());
    let held = buffer.give(sink, b"cd") == Ok(());
    let failed = buffer.give(sink, long) == Err(Failed);
    first & flushed & held & failed & (buffer.flush(sink) == Ok(()))
}

fn buffer_fails(alloc: Global, writer: &mut Narrow, long: &[u8]) -> Result<bool, Fail> {
    let mut buffer = OutputBuffer::new(alloc)?;
    Ok(fails_behind(&mut buffer, &mut WriterSink::new(writer), long))
}

fn tells_failure(alloc: Global, long: &[u8]) -> Result<bool, Fail> {
    let mut writer = narrow_writer(alloc, Some(3));
    let failed = buffer_fails(alloc, &mut writer, long)?;
    Ok(failed & (writer.taken.as_slice() == b"abc".as_slice()))
}

#[test]
fn a_failure_after_a_buffer_is_told(rt: HostRuntime) -> Result<(), Fail> {
    let long = many(rt.alloc(), 70_000)?;
    assert!(rt; tells_failure(rt.alloc(), long.as_slice())?);
    Ok(())
}
