//! Runs of the program whose streams fail, or whose input is no text.
use shake_run::run;
use std::alloc::Global;
use std::io;
use std::io::{Error, ErrorKind, Read, Write};
use std::process::Abort;

// Gives its bytes `step` at a time, and fails at the end where it says so.
#[derive(Drop)]
struct Source<'a> {
    rest: &'a [u8],
    step: usize,
    fails: bool,
}

impl Read for Source<'_> {
    fn read(&mut self, buf: &mut [u8]) -> io::Result<usize> {
        if self.rest.is_empty() && self.fails {
            return Err(Error::from(ErrorKind::Other));
        }
        let count = self.step.min(buf.len()).min(self.rest.len());
        let (front, back) = self.rest.split_at(count);
        buf[..count].copy_from_slice(front);
        self.rest = back;
        Ok(count)
    }
}

// Takes a byte a write, and fails once `room` writes are done.
#[derive(Drop)]
struct Sink {
    taken: Vec<u8>,
    room: usize,
    flushes: bool,
}

impl Sink {
    fn new(alloc: Global, room: usize) -> Sink {
        Sink {
            taken: Vec::new(alloc),
            room,
            flushes: true,
        }
    }
}

impl Write for Sink {
    fn write(&mut self, buf: &[u8]) -> io::Result<usize> {
        if self.room == 0 {
            return Err(Error::from(ErrorKind::Other));
        }
        self.room -= 1;
        let Some(byte) = buf.first() else {
            return Ok(0);
        };
        self.taken.push(*byte)?;
        Ok(1)
    }

    fn flush(&mut self) -> io::Result<()> {
        if self.flushes {
            Ok(())
        } else {
            Err(Error::from(ErrorKind::Other))
        }
    }
}

const AMPLE: usize = 1000;

// What a run answers: its status, what it wrote, and what it said.
#[derive(Drop)]
struct Outcome {
    status: u8,
    output: Vec<u8>,
    said: Vec<u8>,
}

/// Runs the program with one word behind its name, where so many writes of what it says succeed.
fn ran(
    rt: &impl Abort,
    alloc: Global,
    word: &str,
    mut source: Source<'_>,
    mut sink: Sink,
    said: usize,
) -> Outcome {
    let word = String::from_str(alloc, word).expect(rt, "a word");
    let words = vec![in alloc; word].expect(rt, "words");
    let mut errors = Sink::new(alloc, said);
    let status = run(alloc, words.as_slice(), &mut source, &mut sink, &mut errors);
    Outcome {
        status,
        output: sink.taken,
        said: errors.taken,
    }
}

fn bytes(text: &[u8]) -> Source<'_> {
    Source {
        rest: text,
        step: 1,
        fails: false,
    }
}

const TEXT: &[u8] = b"import {a} from 'm'; if (0) f(1 + 1); let p; g(2 + 3);";

const SIMPLIFIED: &str = "import {a} from 'm';\nif (0) f(2);\nlet p;\ng(5);\n";

/// Tries an input that isn't read.
fn tells_input(rt: &impl Abort, alloc: Global, source: Source<'_>) {
    let unread = ran(rt, alloc, "expr", source, Sink::new(alloc, AMPLE), AMPLE);
    assert!(rt; unread.status == 1 && unread.output.is_empty());
    assert!(rt; unread.said.as_slice() == b"shake: input\n".as_slice());
}

#[test]
fn tells_bytes_that_are_no_text(rt: HostRuntime) {
    tells_input(&rt, rt.alloc(), bytes(b"f(\xff);"));
}

#[test]
fn tells_a_failed_read(rt: HostRuntime) {
    let mut broken = bytes(TEXT);
    broken.fails = true;
    tells_input(&rt, rt.alloc(), broken);
}

#[test]
fn tells_failed_writes(rt: HostRuntime) {
    let alloc = rt.alloc();
    for (room, flushes) in [(0usize, true), (1, true), (AMPLE, false)] {
        let mut sink = Sink::new(alloc, room);
        sink.flushes = flushes;
        let cut = ran(&rt, alloc, "expr", bytes(TEXT), sink, AMPLE);
        assert!(rt; cut.status == 1 && cut.output.len() == room.min(SIMPLIFIED.len()));
        assert!(rt; SIMPLIFIED.as_bytes().starts_with(cut.output.as_slice()));
        assert!(rt; cut.said.as_slice() == b"shake: output\n".as_slice());
    }
}

#[test]
fn ends_where_nothing_can_be_said(rt: HostRuntime) {
    let alloc = rt.alloc();
    for (word, status) in [("fold", 2u8), ("expr", 1)] {
        let sink = Sink::new(alloc, AMPLE);
        let unsaid = ran(&rt, alloc, word, bytes(b"f(1 + 2"), sink, 0);
        assert!(rt; unsaid.status == status && unsaid.said.is_empty(), "{word}");
    }
}
