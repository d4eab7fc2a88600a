//! Pieces, faults in mid-stream, and a reader and a writer of std.

use std::alloc::Global;
use std::io::{self, Read, Write};
use std::test::Fail;
use ua_cases::{Asked, expect, number, part, put_bytes, put_flag, put_value_of};
use ua_io::{MemSink, MemSource, Source, StdSink, StdSource, WriteFault, read_all, write_all};

/// Which call is made.
enum Call {
    Read,
    Write,
}

impl Asked for Call {
    fn put_answer(&self, alloc: Global, asked: &str, text: &mut String) -> Result<(), Fail> {
        match self {
            Call::Read => put_read(alloc, asked, text),
            Call::Write => put_written(alloc, asked, text),
        }
    }
}

/// The calls of a text, each by its number.
fn calls(alloc: Global, text: &str) -> Result<Vec<u32>, Fail> {
    let mut calls = Vec::new(alloc);
    for word in text.split_whitespace() {
        calls.push(word.parse()?)?;
    }
    Ok(calls)
}

/// The source of a text as `3, 1`, which gives so many bytes a call at most; the calls listed fail.
fn source(alloc: Global, asked: &str) -> Result<MemSource, Fail> {
    let most = number(asked, 0)?;
    let fails = calls(alloc, part(asked, 1))?;
    Ok(MemSource::new(b"lattice".to_vec(alloc)?, most.max(1), fails))
}

/// All bytes of a source, or why there are none.
fn put_all<S: Source>(
    alloc: Global,
    source: &mut S,
    limit: u32,
    text: &mut String,
) -> Result<(), Fail> {
    match read_all(alloc, source, limit) {
        Ok(bytes) => put_bytes(text, bytes.as_slice()),
        Err(error) => put_value_of(text, &error),
    }
}

/// All bytes of the source of a text as `3, 1, 9`, where they are within the limit.
fn put_read(alloc: Global, asked: &str, text: &mut String) -> Result<(), Fail> {
    let limit = number(asked, 2)?;
    let mut source = source(alloc, asked)?;
    put_all(alloc, &mut source, limit, text)
}

/// The sink of a text as `9, 3, 1`, which has so much room and takes so many bytes a call at most; the calls
/// listed fail.
fn sink(alloc: Global, asked: &str) -> Result<MemSink, Fail> {
    let room = number(asked, 0)? as usize;
    let most = number(asked, 1)?;
    let fails = calls(alloc, part(asked, 2))?;
    Ok(MemSink::new(vec![in alloc; 0; room]?, most.max(1), fails))
}

/// What a sink takes, and whether it is all.
fn written(mut sink: MemSink) -> (Vec<u8>, bool) {
    let all = write_all(&mut sink, b"lattice").is_ok();
    (sink.into_bytes(), all)
}

/// What the sink of a text takes, and whether it is all.
fn put_written(alloc: Global, asked: &str, text: &mut String) -> Result<(), Fail> {
    let (bytes, all) = written(sink(alloc, asked)?);
    put_bytes(text, bytes.as_slice())?;
    text.push(' ')?;
    put_flag(text, all)
}

#[test]
fn pieces_read(rt: HostRuntime) -> Result<(), Fail> {
    let cases = "
        1, , 7 => lattice
        2, , 7 => lattice
        100, 9, 7 => lattice
        5, , 6 => TooLong
        3, 1, 9 => Fault";
    expect(rt.alloc(), &Call::Read, cases)
}

#[test]
fn pieces_written(rt: HostRuntime) -> Result<(), Fail> {
    let cases = "
        9, 1, => lattice true
        7, 2, => lattice true
        9, 100, 9 => lattice true
        9, 3, 1 => lat false
        4, 9, => latt false";
    expect(rt.alloc(), &Call::Write, cases)
}

/// Gives an error, then two bytes, then the end; takes nothing, then an error, then all.
#[derive(Drop)]
struct Uneven {
    call: u8,
}

impl Read for Uneven {
    fn read(&mut self, buf: &mut [u8]) -> io::Result<usize> {
        let call = self.call;
        self.call = call.saturating_add(1);
        match call {
            0 => Err(io::Error::from(io::ErrorKind::Other)),
            1 if buf.len() >= 2 => {
                buf[0] = b'o';
                buf[1] = b'p';
                Ok(2)
            }
            _ => Ok(0),
        }
    }
}

impl Write for Uneven {
    fn write(&mut self, buf: &[u8]) -> io::Result<usize> {
        let call = self.call;
        self.call = call.saturating_add(1);
        match call {
            0 => Ok(0),
            1 => Err(io::Error::from(io::ErrorKind::Other)),
            _ => Ok(buf.len()),
        }
    }

    fn flush(&mut self) -> io::Result<()> {
        Ok(())
    }
}

/// What two reads of a reader of std answer.
fn read_twice(alloc: Global) -> Result<String, Fail> {
    let mut source = StdSource::new(Uneven { call: 0 });
    let mut text = String::new(alloc);
    put_all(alloc, &mut source, 9, &mut text)?;
    text.push(' ')?;
    put_all(alloc, &mut source, 9, &mut text)?;
    Ok(text)
}

#[test]
fn a_reader_of_std(rt: HostRuntime) -> Result<(), Fail> {
    let text = read_twice(rt.alloc())?;
    assert_eq!(rt; text.as_str(), "Fault op");
    Ok(())
}

#[test]
fn a_writer_of_std(rt: HostRuntime) {
    let mut sink = StdSink::new(Uneven { call: 0 });
    for answer in [Err(WriteFault), Err(WriteFault), Ok(())] {
        assert_eq!(rt; write_all(&mut sink, b"op"), answer);
    }
}
