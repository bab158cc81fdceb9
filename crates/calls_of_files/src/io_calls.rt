//! Calls of `outside_io`: forms in memory, real files and streams.

use outside_io::{
    Files, FilesInMemory, HostFiles, HostSink, ReadAnswer, Sink, SinkInMemory, SureFiles, SureSink,
};
use std::alloc::{AllocError, Global};
use std::io::Write;
use std::test::Fail;
use std::{fs, io};

/// A read: the name, the limit, the answer, and the bytes that are read.
type Read = (&'static str, usize, ReadAnswer, &'static [u8]);

fn reads<F: Files>(alloc: Global, files: &mut F, read: Read) -> bool {
    let (name, at_most, answer, bytes) = read;
    let mut into = Vec::new(alloc);
    files.read(alloc, name, at_most, &mut into) == answer && into.as_slice() == bytes
}

fn two_files(alloc: Global) -> Result<FilesInMemory, AllocError> {
    let mut files = FilesInMemory::new(alloc, &[2, 6])?;
    files.put(alloc, "a", b"first")?;
    files.put(alloc, "b", b"")?;
    files.put(alloc, "a", b"second")?;
    Ok(files)
}

const READS: [Read; 8] = [
    ("a", 1024, ReadAnswer::Done, b"second"),
    ("b", 0, ReadAnswer::Done, b""),
    ("a", 1024, ReadAnswer::Failed, b""),
    ("a", 6, ReadAnswer::Done, b"second"),
    ("a", 5, ReadAnswer::TooLong, b""),
    ("c", 1024, ReadAnswer::Failed, b""),
    ("b", 1024, ReadAnswer::Failed, b""),
    ("b", 1024, ReadAnswer::Done, b""),
];

#[test]
fn files_in_memory(rt: HostRuntime) -> Result<(), Fail> {
    let mut files = two_files(rt.alloc())?;
    for read in READS {
        assert!(rt;
            reads(rt.alloc(), &mut files, read),
            "{} {}",
            read.0,
            read.1
        );
    }
    Ok(())
}

const SURE_READS: [Read; 4] = [
    ("a", 6, ReadAnswer::Done, b"second"),
    ("a", 5, ReadAnswer::TooLong, b""),
    ("c", 0, ReadAnswer::Done, b""),
    ("", 1024, ReadAnswer::Done, b""),
];

#[test]
fn sure_forms(rt: HostRuntime) -> Result<(), Fail> {
    let mut files = SureFiles::new(rt.alloc());
    files.put(rt.alloc(), "a", b"first")?;
    files.put(rt.alloc(), "a", b"second")?;
    for read in SURE_READS {
        assert!(rt;
            reads(rt.alloc(), &mut files, read),
            "{} {}",
            read.0,
            read.1
        );
    }
    assert!(rt; SureSink::new().write(b"any").is_ok());
    Ok(())
}

const FAILING: [(u64, usize); 5] = [(1, 2), (3, 9), (1, 0), (8, 5), (9, 0)];

// A piece, whether its write is done, and what the sink then holds.
const WRITES: [(&'static [u8], bool, &'static [u8]); 11] = [
    (b"abc", true, b"abc"),
    (b"defg", false, b"abcde"),
    (b"hijklmn", false, b"abcde"),
    (b"hij", false, b"abcdehij"),
    (b"klmn", false, b"abcdehij"),
    (b"kl", true, b"abcdehijkl"),
    (b"", true, b"abcdehijkl"),
    (b"mn", false, b"abcdehijkl"),
    (b"mn", false, b"abcdehijklm"),
    (b"", false, b"abcdehijklm"),
    (b"", true, b"abcdehijklm"),
];

fn writes(sink: &mut SinkInMemory, piece: &[u8], is_done: bool, held: &[u8]) -> bool {
    sink.write(piece).is_ok() == is_done && sink.bytes() == held
}

#[test]
fn sink_in_memory(rt: HostRuntime) -> Result<(), Fail> {
    let mut sink = SinkInMemory::new(rt.alloc(), 11, &FAILING)?;
    for (piece, is_done, held) in WRITES {
        assert!(rt; writes(&mut sink, piece, is_done, held));
    }
    Ok(())
}

const FOLDER: &'static str = "io_calls";

// A file of several turns, an empty one, a missing one, and a folder.
const REAL_READS: [Read; 6] = [
    ("io_calls/file", 149_999, ReadAnswer::TooLong, b""),
    ("io_calls/file", 0, ReadAnswer::TooLong, b""),
    ("io_calls/empty ", 0, ReadAnswer::Done, b""),
    ("io_calls/empty", 9, ReadAnswer::Failed, b""),
    ("io_calls/missing", 9, ReadAnswer::Failed, b""),
    (FOLDER, 9, ReadAnswer::Failed, b""),
];

#[test]
fn real_files(rt: HostRuntime) -> Result<(), Fail> {
    let _ = fs::remove_dir_all(&rt, FOLDER);
    fs::create_dir(&rt, FOLDER)?;
    let mut held = Vec::new(rt.alloc());
    held.resize(150_000, 7u8)?;
    let mut sink = HostSink::new(fs::create(&rt, "io_calls/file")?);
    assert!(rt; sink.write(held.as_slice()).is_ok());
    let _ = fs::create(&rt, "io_calls/empty ")?;
    let mut files = HostFiles::new(rt.alloc(), &rt);
    let mut into = Vec::new(rt.alloc());
    let answer = files.read(rt.alloc(), "io_calls/file", 150_000, &mut into);
    assert!(rt; answer == ReadAnswer::Done && into.as_slice() == held.as_slice());
    for read in REAL_READS {
        assert!(rt;
            reads(rt.alloc(), &mut files, read),
            "{} {}",
            read.0,
            read.1
        );
    }
    fs::remove_dir_all(&rt, FOLDER)?;
    Ok(())
}

#[test]
fn real_streams(rt: HostRuntime) {
    assert!(rt; HostSink::new(rt.stdout()).write(b"").is_ok());
    assert!(rt; HostSink::new(rt.stderr()).write(b"").is_ok());
}

/// Takes three bytes so many times, and then none.
#[derive(Drop)]
struct ShortWriter {
    takes: u64,
}

impl Write for ShortWriter {
    fn write(&mut self, buf: &[u8]) -> io::Result<usize> {
        if self.takes == 0 {
            return Ok(0);
        }
        self.takes -= 1;
        Ok(buf.len().min(3))
    }

    fn flush(&mut self) -> io::Result<()> {
        Ok(())
    }
}

const TURNS: [(u64, &'static [u8], bool); 5] = [
    (2, b"abcde", true),
    (1, b"abcde", false),
    (0, b"", true),
    (0, b"a", false),
    (1, b"abc", true),
];

fn is_written(takes: u64, piece: &[u8]) -> bool {
    HostSink::new(ShortWriter { takes }).write(piece).is_ok()
}

#[test]
fn a_writer_in_short_turns(rt: HostRuntime) {
    for (takes, piece, is_ok) in TURNS {
        assert!(rt; is_written(takes, piece) == is_ok, "{takes} turns");
    }
}
