//! Runs of lines, each from an empty map; and readers and writers that fail.
use multimap_tool::execute::execute;
use multimap_tool::faults::ToolFault;
use std::io;
use std::io::{Error, ErrorKind, Read, Write};
use test_helpers::{Failed, Test, requests_until_enough, test_all};

// Lines, each with its reply behind an arrow.
const RUNS: &[&str] = &[
    "pairs -> empty|keys -> empty|popfront -> none|popback -> none|get 1 -> none",
    "insert 1 1 -> none|insert 2 2 -> none|append 2 3 -> more|append 1 4 -> more\
    |pairs -> 1:1 2:2 2:3 1:4",
    "insert 1 1 -> none|insert 2 2 -> none|append 2 3 -> more|append 1 4 -> more\
    |popback -> borrowed 1 4|popback -> borrowed 2 3|popback -> owned 2 2\
    |popback -> owned 1 1|popback -> none",
    "insert 1 1 -> none|insert 2 2 -> none|append 2 3 -> more|append 1 4 -> more\
    |popfront -> borrowed 1 1|popfront -> borrowed 2 2|popfront -> owned 2 3\
    |popfront -> owned 1 4|popfront -> none",
    "insert 1 10 -> none|insert 2 20 -> none|insert 1 30 -> old 10|pairs -> 2:20 1:30\
    |keys -> 1 2|json -> done|keys -> 2 1|pairs -> 2:20 1:30",
    "append 1 1 -> new|append 2 9 -> new|append 1 2 -> more|append 1 3 -> more\
    |append 1 9 -> more|retain 9 -> done|pairs -> 2:9 1:9|keys -> 1 2|all 1 -> 9|walk 1 bf -> 9 -",
    "append 1 1 -> new|append 1 2 -> more|retain 9 -> done|pairs -> empty|keys -> empty\
    |append 1 5 -> new",
    "append 1 1 -> new|append 1 2 -> more|append 1 3 -> more|append 1 4 -> more\
    |walk 1 fbfbf -> 1 4 2 3 -",
    "append 1 1 -> new|append 2 2 -> new|removeall 1 -> 1|append 1 3 -> new|keys -> 2 1\
    |pairs -> 2:2 1:3",
    "append 1 5 -> new|append 1 6 -> more|walkpairs bfb -> 1:6 1:5 -|all 2 -> empty\
    |walk 2 fb -> - -",
    "append 1 1 -> new|append 2 2 -> new|append 1 3 -> more|front -> 1:1|back -> 1:3\
    |len 1 -> 2|has 3 -> no|lengths -> 2 3",
    "append 4294967295 -9223372036854775808 -> new|append 4294967295 9223372036854775807 -> more\
    |lists -> 4294967295=-9223372036854775808,9223372036854775807",
    "insertall 1 1 -> empty|append 1 2 -> more|insertall 1 3 -> 1 2|pairs -> 1:3|lengths -> 1 1",
    "setfirst 1 5 -> none|orinsert 1 42 -> 42|orinsert 1 7 -> 42|setfirst 1 43 -> old 42\
    |append 2 8 -> new|setback 9 -> 2:8|setfront 4 -> 1:43|pairs -> 1:4 2:9",
    "insert 1 1 -> none|insert 2 2 -> none|append 2 3 -> more|append 1 4 -> more\
    |lists -> 1=1,4 2=2,3|walkpairs fbb -> 1:1 1:4 2:3|walkkeys bff -> 2 1 -|swap -> done\
    |removeentryall 2 -> 2=2,3|removeentry 2 -> none|pairs -> 1:1 1:4|clear -> done\
    |lengths -> 0 0|walkvalues fb -> - -",
    "insert 1 1 -> none|reserve 2 2 -> done|packtofit -> done|append 2 2 -> new|json -> done\
    |pairs -> 1:1 2:2",
    "append 1 1 -> new|append 1 2 -> more|append 2 5 -> new|append 1 3 -> more\
    |removeat 1 1 -> 2|removeat 1 2 -> none|removeat 2 0 -> none|removeat 7 0 -> none\
    |removeat 1 0 -> 1|removeat 1 0 -> none|pairs -> 2:5 1:3|keys -> 1 2|walk 1 bf -> 3 -",
    "insert 1 10 -> none|insert 2 20 -> none|insert 1 30 -> old 10|json2 -> done|keys -> 1 2\
    |json -> done|keys -> 2 1|json2 -> done|keys -> 2 1|pairs -> 2:20 1:30",
];

// Texts, and the first bad line, if there is one, or else what is written.
const TEXTS: &[(&str, Result<&str, u64>)] = &[
    ("append 1 1\nappend 1\n", Err(2)),
    ("", Ok("")),
    ("append 4294967296 1\n", Err(1)),
    ("append 1 -0\n", Err(1)),
    ("get  1\n", Err(1)),
    ("get 1", Ok("none\n")),
];

// Adds the lines of a run to a text, and their replies to another.
fn add_lines(test: &Test, run: &str, lines: &mut String, replies: &mut String) {
    for step in run.split('|') {
        match step.split_once(" -> ") {
            Some((line, reply)) => {
                test.expect(lines.push_str(line).is_ok() && lines.push('\n').is_ok());
                test.expect(replies.push_str(reply).is_ok() && replies.push('\n').is_ok());
            }
            None => test.fail(),
        }
    }
}

fn is_written(test: &Test, text: &str, wanted: Result<&str, ToolFault>) -> bool {
    let mut output = Vec::new(test.alloc());
    let ended = execute(
        test.alloc(),
        test.alloc(),
        &mut text.as_bytes(),
        &mut output,
    );
    ended.err() == wanted.err() && output.as_slice() == wanted.unwrap_or("").as_bytes()
}

fn run_is_answered(test: &Test, run: &str) -> bool {
    let lines = &mut String::new(test.alloc());
    let replies = &mut String::new(test.alloc());
    add_lines(test, run, lines, replies);
    is_written(test, lines.as_str(), Ok(replies.as_str()))
}

#[test]
fn lines_are_answered(rt: HostRuntime) -> Result<(), Failed> {
    let test = Test::new(rt.alloc());
    for (row, run) in RUNS.iter().enumerate() {
        test.expect_at(row, run_is_answered(&test, run));
    }
    for (row, (text, wanted)) in TEXTS.iter().enumerate() {
        test.expect_at(
            row,
            is_written(&test, text, wanted.map_err(ToolFault::BadLine)),
        );
    }
    test.end()
}

const INPUT: &[u8] =
    b"append 1 1\nappend 2 2\nappend 2 3\nappend 1 4\npairs\nall 1\nget 2\nget 3\n";

const OUTPUT: &[u8] = b"new\nnew\nmore\nmore\n1:1 2:2 2:3 1:4\n1 4\n2\nnone\n";

/// A reader that gives five bytes a read, and fails one of its reads.
#[derive(Drop)]
struct FailingReader<'a> {
    rest: &'a [u8],
    reads_before: u64,
    kind: ErrorKind,
    failed: bool,
}

impl Read for FailingReader<'_> {
    fn read(&mut self, buf: &mut [u8]) -> io::Result<usize> {
        if self.reads_before == 0 && !self.failed {
            self.failed = true;
            return Err(Error::from(self.kind));
        }
        self.reads_before = self.reads_before.saturating_sub(1);
        let count = self.rest.len().min(buf.len()).min(5);
        let (first, others) = self.rest.split_at(count);
        buf[..count].copy_from_slice(first);
        self.rest = others;
        Ok(count)
    }
}

/// What becomes of one write, or of the flush.
#[derive(Clone, Copy)]
enum Trouble {
    Fails,
    TakesNothing,
    IsUnflushed,
}

/// A writer that takes three bytes a write, and has trouble with one of its writes.
#[derive(Drop)]
struct FailingWriter {
    taken: Vec<u8>,
    before: u64,
    trouble: Trouble,
    met: bool,
}

impl Write for FailingWriter {
    fn write(&mut self, buf: &[u8]) -> io::Result<usize> {
        if self.before == 0 && !self.met {
            self.met = true;
            match self.trouble {
                Trouble::Fails => return Err(Error::from(ErrorKind::BrokenPipe)),
                Trouble::TakesNothing => return Ok(0),
                Trouble::IsUnflushed => {}
            }
        }
        self.before = self.before.saturating_sub(1);
        let count = buf.len().min(3);
        match self.taken.extend_from_slice(&buf[..count]) {
            Ok(()) => Ok(count),
            Err(_) => Err(Error::from(ErrorKind::OutOfMemory)),
        }
    }

    fn flush(&mut self) -> io::Result<()> {
        match self.trouble {
            Trouble::IsUnflushed => Err(Error::from(ErrorKind::Other)),
            _ => Ok(()),
        }
    }
}

/// A run in which the read after this many fails. It returns whether the input ended before.
fn read_with(test: &Test, text: &[u8], kind: ErrorKind, reads_before: u64) -> bool {
    let mut input = FailingReader {
        rest: text,
        reads_before,
        kind,
        failed: false,
    };
    let mut output = Vec::new(test.alloc());
    let fault = execute(test.alloc(), test.alloc(), &mut input, &mut output).err();
    if input.failed {
        test.expect(fault == Some(ToolFault::Read));
        test.expect(output.is_empty());
        return false;
    }
    test.expect(fault.is_none());
    test.expect(output.as_slice() == OUTPUT);
    true
}

// An interrupted read counts as failed too.
const KINDS: &[ErrorKind] = &[ErrorKind::Other, ErrorKind::Interrupted];

// The input has 68 bytes, and a last read meets its end.
fn each_read_fails(test: &Test) {
    for kind in KINDS {
        let reads = requests_until_enough(|reads_before| read_with(
            test,
            INPUT,
            *kind,
            reads_before,
        ));
        test.expect(reads == Some(15));
    }
}

fn a_failed_read_is_told_before_a_bad_line(test: &Test) {
    test.expect(!read_with(test, b"unknown\nget 1\n", ErrorKind::Other, 3));
}

/// A run in which the write after this many fails. It returns whether all was written before.
fn write_with(test: &Test, mut input: &[u8], wanted: &[u8], trouble: Trouble, before: u64) -> bool {
    let mut output = FailingWriter {
        taken: Vec::new(test.alloc()),
        before,
        trouble,
        met: false,
    };
    let fault = execute(test.alloc(), test.alloc(), &mut input, &mut output).err();
    if output.met {
        test.expect(fault == Some(ToolFault::Write));
        test.expect(wanted.starts_with(&output.taken));
        return false;
    }
    test.expect(fault.is_none());
    test.expect(output.taken.as_slice() == wanted);
    true
}

// The output has 45 bytes.
fn each_write_has_trouble(test: &Test) {
    for trouble in [Trouble::Fails, Trouble::TakesNothing] {
        let writes = requests_until_enough(|before| write_with(
            test, INPUT, OUTPUT, trouble, before,
        ));
        test.expect(writes == Some(15));
    }
}

// Nothing is to be written, so a writer that takes nothing is no fault.
fn no_line_is_answered(test: &Test) {
    test.expect(write_with(test, b"", b"", Trouble::TakesNothing, 0));
}

fn a_failed_flush_is_told(test: &Test) {
    test.expect(!write_with(test, INPUT, OUTPUT, Trouble::IsUnflushed, 0));
}

#[test]
fn failed_reads_and_writes_are_told(rt: HostRuntime) -> Result<(), Failed> {
    test_all!(rt.alloc(); each_read_fails, a_failed_read_is_told_before_a_bad_line,
        each_write_has_trouble, no_line_is_answered, a_failed_flush_is_told)
}
