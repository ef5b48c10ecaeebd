//! Test vectors, and inputs and outputs that fail.

ghost use Rattle.std.specs.Prelude.{◌≤◌, IfOk, IfSome};
ghost use Rattle.sixel.specs.Words.{IsServable};

use crate::engine::serve;
use crate::fault::Fault;
use crate::words::{Word, read_word};
use std::io;
use std::io::{Read, Write};
use std::test::Fail;

/// How calls of a reader or a writer fail.
#[derive(Clone, Copy)]
enum Failure {
    /// One call fails, by an error that many loops retry.
    Once,
    /// All calls from one on fail.
    Always,
    /// All calls from one on move 0 bytes.
    Full,
}

impl Failure {
    /// The result of a call for `len` bytes, of which it moves three at most.
    fn result(self, call: usize, failing: usize, len: usize) -> io::Result<usize>
        ensures { IfOk result (λ count. count ≤ len) }
    {
        match self {
            Self::Once if call == failing => Err(io::Error::from(io::ErrorKind::Interrupted)),
            Self::Always if call >= failing => Err(io::Error::from(io::ErrorKind::BrokenPipe)),
            Self::Full if call >= failing => Ok(0),
            _ => Ok(len.min(3)),
        }
    }
}

/// An input with a failing call, counted from 1.
#[derive(Drop)]
struct Source<'a> {
    bytes: &'a [u8],
    calls: usize,
    failing: usize,
    failure: Failure,
}

impl<'a> Read for Source<'a> {
    fn read(&mut self, buf: &mut [u8]) -> io::Result<usize> {
        self.calls = self.calls.saturating_add(1);
        let len = self.bytes.len().min(buf.len());
        let count = self.failure.result(self.calls, self.failing, len)?;
        let (front, rest) = self.bytes.split_at(count);
        buf[..count].copy_from_slice(front);
        self.bytes = rest;
        Ok(count)
    }
}

/// An output with a failing call, counted from 1.
#[derive(Drop)]
struct Sink {
    bytes: Vec<u8>,
    calls: usize,
    failing: usize,
    failure: Failure,
}

impl Write for Sink {
    fn write(&mut self, buf: &[u8]) -> io::Result<usize> {
        self.calls = self.calls.saturating_add(1);
        let count = self.failure.result(self.calls, self.failing, buf.len())?;
        self.bytes.extend_from_slice(&buf[..count])?;
        Ok(count)
    }

    fn flush(&mut self) -> io::Result<()> {
        Ok(())
    }
}

/// Two complete sequences and an interrupted one, which is the last.
const SEQUENCES: &[u8] = b"\x1bPq#42;2;100;0;0@\x1b\\\x90q#42@\x18tail";

/// The images of both.
const IMAGES: &[u8] = b"image 1 6 9 0\n\
    \xff\0\0\xff\0\0\0\xff\0\0\0\xff\0\0\0\xff\0\0\0\xff\0\0\0\xff\n\
    image 1 6 9 0\n\
    \xff\0\0\xff\0\0\0\xff\0\0\0\xff\0\0\0\xff\0\0\0\xff\0\0\0\xff\n";

/// The work that these arguments ask for.
fn read_words(words: &str) -> Option<Word>
    ensures { IfSome result IsServable }
{
    let mut words = words.split(' ');
    read_word(words.next()?, words.next(), words.next(), words.next())
}

#[test]
fn runs(rt: HostRuntime) -> Result<(), Fail> {
    let blue = b"image 1 6 9 0\n33\xcc\xff33\xcc\xff33\xcc\xff33\xcc\xff33\xcc\xff33\xcc\xff\n";
    let black = b"image 1 6 9 0\n\0\0\0\xff\0\0\0\xff\0\0\0\xff\0\0\0\xff\0\0\0\xff\0\0\0\xff\n";
    let pixels = b"\0\0\0\xff\x0a\0\0\xff\xff\xff\xff\xff";
    let two_colors = b"\x1bP9;1;0q\"1;1;3;1#0;2;0;0;0#1;2;100;100;100#0@@?$#1??@$-\x1b\\";
    let header = "invalid SIXEL data: invalid SIXEL DCS header";
    let introducer = "no SIXEL data found (missing DCS introducer)";
    let length = "buffer size mismatch: expected 16 bytes, got 15";
    let sides = "invalid dimensions: 0x4";
    let rows: [(&str, &[u8], &[u8], &str); 9] = [
        ("payload", b"#1~", blue, ""),
        ("decode", b"\x1bPq#1~\x1b\\", blue, ""),
        ("decode", b"\x1bPbad", b"", header),
        ("frames 1", b"", b"", ""),
        ("frames 1", SEQUENCES, IMAGES, ""),
        ("frames 1", b"\x1bPq@\x1b\\\n", black, introducer),
        ("encode 3 1 2", pixels, two_colors, ""),
        ("encode 0 4 16", b"", b"", sides),
        ("encode 2 2 256", &[0; 15], b"", length),
    ];
    for (words, input, output, error) in rows {
        let Some(word) = read_words(words) else {
            panic!(rt; "{words}");
        };
        let (mut input, mut written) = (input, Vec::new(rt.alloc()));
        let failed = match serve(rt.alloc(), word, &mut input, &mut written) {
            Ok(()) => String::new(rt.alloc()),
            Err(fault) => format!(in rt.alloc(); "{fault}")?,
        };
        assert_eq!(rt; written.as_slice(), output);
        assert_eq!(rt; failed.as_str(), error);
    }
    Ok(())
}

#[test]
fn usage(rt: HostRuntime) {
    for words in [
        "frames 0",
        "frames +1",
        "frames 18446744073709551616",
        "frames",
        "payload 1",
        "encode 1 1 65536",
        "encode 1 1",
        "Decode",
    ] {
        assert!(rt; read_words(words).is_none(), "{words}");
    }
}

/// The reads of the sequences, of three bytes each and the end.
const READS: usize = 11;

#[test]
fn failing_reads(rt: HostRuntime) {
    for failure in [Failure::Once, Failure::Always] {
        for failing in 1..=READS {
            let mut source = Source {
                bytes: SEQUENCES,
                calls: 0,
                failing,
                failure,
            };
            let mut written = Vec::new(rt.alloc());
            let result = serve(rt.alloc(), Word::Frames(1), &mut source, &mut written);
            assert!(rt; matches!(result, Err(Fault::Input)), "read {failing}");
            assert_eq!(rt; source.calls, failing);
            assert!(rt; written.is_empty());
        }
    }
}

/// The writes of two images, each of a line of 14 bytes, 24 bytes of pixels and a line end.
const WRITES: usize = 28;

#[test]
fn failing_writes(rt: HostRuntime) {
    for failure in [Failure::Once, Failure::Always, Failure::Full] {
        for failing in 1..=WRITES + 1 {
            let mut source = Source {
                bytes: SEQUENCES,
                calls: 0,
                failing: READS + 1,
                failure,
            };
            let mut sink = Sink {
                bytes: Vec::new(rt.alloc()),
                calls: 0,
                failing,
                failure,
            };
            let result = serve(rt.alloc(), Word::Frames(1), &mut source, &mut sink);
            if failing <= WRITES {
                assert!(rt; matches!(result, Err(Fault::Output)), "write {failing}");
                assert_eq!(rt; sink.calls, failing);
                assert!(rt; IMAGES.starts_with(&sink.bytes));
            } else {
                assert!(rt; result.is_ok());
                assert_eq!(rt; sink.bytes.as_slice(), IMAGES);
            }
        }
    }
}
