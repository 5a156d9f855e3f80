//! What no clause says: that calls succeed with memory, and what files and writers really do.
ghost use Rattle.std.specs.Prelude.{◌≡◌, ◌+◌, ◌<◌};

use super::*;
use crate::file_shelf::read_within;
use std::alloc::{AllocError, Global};
use std::io::{BufWriter, ErrorKind, Read, Write};
use std::marker::Brand;
use std::mem::size_of;
use std::process::Abort;
use std::sync::ledger::{Blank, Ledger};
use std::test::Fail;
use std::{fs, io};

// A call without the parameter `steps` makes a counter of its own and hands it down.
fn double<L: Ledger>(n: u32, steps: &mut Steps<L>) -> u64
    ensures result { result ≡ n + n }
    ensures steps { steps.new ≡ steps.old + 1 }
{
    steps.tick();
    n as u64 + n as u64
}

fn double_with<L: Ledger>(n: u32, blank: Blank) -> u64
    requires name { blank.name ≡ L.name }
    requires parts { blank.parts ≡ L.parts }
    requires some { 0 < blank.parts }
    ensures { result ≡ n + n }
{
    let mut steps = Steps::<L>::new(blank);
    double(n, &mut steps)
}

fn double_uncounted(n: u32) -> u64
    ensures { result ≡ n + n }
{
    double_with::<Brand>(n, Blank::new(1))
}

#[test]
fn steps_change_no_answer(rt: HostRuntime) {
    assert_eq!(rt; double_uncounted(21), 42);
}

#[test]
fn steps_take_no_bytes(rt: HostRuntime) {
    assert_eq!(rt; size_of::<Steps<Brand>>(), 0);
}

/// The answer of a fetch, and the bytes that it leaves.
#[derive(Drop)]
struct Fetched {
    answer: Result<(), FetchFault>,
    bytes: Vec<u8>,
}

fn fetch<S: Shelf>(
    alloc: Global,
    shelf: &mut S,
    name: &str,
    limit: u32,
) -> Result<Fetched, AllocError> {
    let name = name.to_string(alloc)?;
    let mut bytes = Vec::new(alloc);
    let answer = shelf.fetch(&name, MAX_LIMIT.min(limit as u64), &mut bytes);
    Ok(Fetched { answer, bytes })
}

/// Compares what a fetch answers, and the bytes that it leaves, with what they should be.
fn expect_fetch<S: Shelf>(
    rt: &impl Abort,
    alloc: Global,
    shelf: &mut S,
    name: &str,
    limit: u32,
    answer: Result<(), FetchFault>,
    bytes: &[u8],
) -> Result<(), Fail> {
    let fetched = fetch(alloc, shelf, name, limit)?;
    assert_eq!(rt; fetched.answer, answer, "{name} up to {limit}");
    assert!(rt; fetched.bytes.as_slice() == bytes, "{name} up to {limit}");
    Ok(())
}

/// A text of so many bytes, with a line feed behind each 79 others. It ends in the middle of a line
/// where its length is no multiple of 80.
fn text_of(alloc: Global, length: usize) -> Result<Vec<u8>, AllocError> {
    let mut text = Vec::new(alloc);
    for place in 0..length {
        let byte = if place % 80 == 79 {
            b'\n'
        } else {
            (place % 251) as u8 | 128
        };
        text.push(byte)?;
    }
    Ok(text)
}

#[test]
fn memory_shelf_gives_the_newest_file_of_a_name(rt: HostRuntime) -> Result<(), Fail> {
    let alloc = rt.alloc();
    let mut shelf = MemoryShelf::new(alloc);
    for (name, bytes) in [("a", "old"), ("b", "six"), ("a", "newer")] {
        shelf.add(name.to_string(alloc)?, bytes.as_bytes().to_vec(alloc)?)?;
    }
    shelf.fail_at(3)?;
    for (name, limit, answer, bytes) in [
        ("a", 5, Ok(()), "newer"),
        ("a", 4, Err(FetchFault::TooLong), "newer"),
        ("a", 5, Err(FetchFault::Failed), ""),
        ("b", 1, Err(FetchFault::TooLong), "si"),
        ("c", 9, Err(FetchFault::Failed), ""),
    ] {
        expect_fetch(
            &rt,
            alloc,
            &mut shelf,
            name,
            limit,
            answer,
            bytes.as_bytes(),
        )?;
    }
    Ok(())
}

#[test]
fn memory_shelf_gives_a_file_of_more_than_64_kib(rt: HostRuntime) -> Result<(), Fail> {
    let alloc = rt.alloc();
    let text = text_of(alloc, 70_000)?;
    let mut shelf = MemoryShelf::new(alloc);
    shelf.add("".to_string(alloc)?, text.clone()?)?;
    expect_fetch(&rt, alloc, &mut shelf, "", 70_000, Ok(()), &text)
}

#[test]
fn file_shelf_gives_files_whole_or_up_to_the_first_byte_past_the_limit(
    rt: HostRuntime,
) -> Result<(), Fail> {
    let alloc = rt.alloc();
    let long = text_of(alloc, 200_000)?;
    let front = long.as_slice().get(..70_001).ok_or("a short text")?;
    let files = [
        ("six", b"abcdef".as_slice()),
        ("six ", b"ghi\n".as_slice()),
        ("empty", b"".as_slice()),
        ("long", long.as_slice()),
    ];
    for (name, bytes) in files {
        fs::write(&rt, name, bytes)?;
    }
    fs::create_dir(&rt, "folder")?;
    let mut shelf = FileShelf::new(alloc, &rt);
    for (name, limit, answer, bytes) in [
        ("six", 6, Ok(()), b"abcdef".as_slice()),
        ("six", 3, Err(FetchFault::TooLong), b"abcd".as_slice()),
        ("six ", 9, Ok(()), b"ghi\n".as_slice()),
        ("empty", 0, Ok(()), b"".as_slice()),
        ("long", 200_000, Ok(()), long.as_slice()),
        ("long", 70_000, Err(FetchFault::TooLong), front),
        ("six  ", 6, Err(FetchFault::Failed), b"".as_slice()),
        ("", 6, Err(FetchFault::Failed), b"".as_slice()),
        ("folder", 6, Err(FetchFault::Failed), b"".as_slice()),
    ] {
        expect_fetch(&rt, alloc, &mut shelf, name, limit, answer, bytes)?;
    }
    for (name, _) in files {
        fs::remove_file(&rt, name)?;
    }
    fs::remove_dir(&rt, "folder")?;
    Ok(())
}

#[test]
fn file_shelf_closes_its_files(rt: HostRuntime) -> Result<(), Fail> {
    let alloc = rt.alloc();
    fs::write(&rt, "often", "1\n")?;
    let mut shelf = FileShelf::new(alloc, &rt);
    for round in 0..2000u32 {
        let fetched = fetch(alloc, &mut shelf, "often", 2)?;
        assert_eq!(rt; fetched.answer, Ok(()), "after {round}");
    }
    fs::remove_file(&rt, "often")?;
    Ok(())
}

/// A reader that gives its bytes three at a time, and fails behind the last.
#[derive(Drop)]
struct Broken {
    left: usize,
}

impl Read for Broken {
    fn read(&mut self, buf: &mut [u8]) -> io::Result<usize> {
        let n = buf.len().min(3).min(self.left);
        if n == 0 {
            return Err(ErrorKind::Other.into());
        }
        buf[..n].fill(b'a');
        self.left -= n;
        Ok(n)
    }
}

#[test]
fn failed_read_leaves_the_bytes_before_it(rt: HostRuntime) -> Result<(), Fail> {
    let mut bytes = Vec::new(rt.alloc());
    let answer = read_within(&mut Broken { left: 7 }, 20, &mut bytes);
    assert_eq!(rt; answer, Err(FetchFault::Failed));
    assert_eq!(rt; bytes.as_slice(), b"aaaaaaa".as_slice());
    Ok(())
}

#[test]
fn reader_is_read_on_behind_the_bytes_that_were_taken(rt: HostRuntime) -> Result<(), Fail> {
    let mut file = b"abcdefg".as_slice();
    let mut front = Vec::new(rt.alloc());
    assert_eq!(rt;
        read_within(&mut file, 3, &mut front),
        Err(FetchFault::TooLong)
    );
    assert_eq!(rt; front.as_slice(), b"abcd".as_slice());
    let mut rest = Vec::new(rt.alloc());
    assert_eq!(rt; read_within(&mut file, 3, &mut rest), Ok(()));
    assert_eq!(rt; rest.as_slice(), b"efg".as_slice());
    Ok(())
}

#[test]
fn memory_sink_fails_where_it_was_named_to(rt: HostRuntime) -> Result<(), Fail> {
    let cases = [
        (0, "head\n!"),
        (1, "head\np!"),
        (4, "head\npeak!"),
        (9, "head\npeak\n!"),
    ];
    for (taken, written) in cases {
        let mut sink = MemorySink::new(rt.alloc(), 20)?;
        // The number named later counts.
        sink.fail_at(2, 3)?;
        sink.fail_at(2, taken)?;
        assert_eq!(rt; sink.put(b"head\n"), Ok(()));
        assert_eq!(rt; sink.put(b""), Ok(()));
        assert_eq!(rt; sink.put(b"peak\n"), Err(Failed));
        assert_eq!(rt; sink.put(b"!"), Ok(()));
        assert_eq!(rt; sink.bytes(), written.as_bytes(), "after {taken} bytes");
    }
    Ok(())
}

#[test]
fn memory_sink_takes_what_there_is_room_for(rt: HostRuntime) -> Result<(), Fail> {
    let mut sink = MemorySink::new(rt.alloc(), 3)?;
    assert_eq!(rt; sink.put(b"ab"), Ok(()));
    assert_eq!(rt; sink.put(b"cd"), Err(Failed));
    assert_eq!(rt; sink.put(b""), Ok(()));
    assert_eq!(rt; sink.put(b"e"), Err(Failed));
    assert_eq!(rt; sink.bytes(), b"abc".as_slice());
    Ok(())
}

/// A writer that takes two bytes at a time, until it has no room. Then it takes nothing or fails.
#[derive(Drop)]
struct Narrow {
    taken: Vec<u8>,
    room: usize,
    fails: bool,
}

impl Write for Narrow {
    fn write(&mut self, buf: &[u8]) -> io::Result<usize> {
        let n = buf.len().min(2).min(self.room);
        if n == 0 && self.fails {
            return Err(ErrorKind::BrokenPipe.into());
        }
        self.taken.extend_from_slice(&buf[..n])?;
        self.room -= n;
        Ok(n)
    }

    fn flush(&mut self) -> io::Result<()> {
        Ok(())
    }
}

#[test]
fn stream_sink_writes_pieces_whole(rt: HostRuntime) -> Result<(), Fail> {
    let mut written = Vec::new(rt.alloc());
    {
        let mut sink = StreamSink::new(&mut written);
        for piece in ["peak", "", " 1\n"] {
            assert_eq!(rt; sink.put(piece.as_bytes()), Ok(()));
        }
    }
    assert_eq!(rt; written.as_slice(), b"peak 1\n".as_slice());
    Ok(())
}

#[test]
fn stream_sink_ends_at_the_first_fault(rt: HostRuntime) -> Result<(), Fail> {
    for fails in [false, true] {
        let mut narrow = Narrow {
            taken: Vec::new(rt.alloc()),
            room: 5,
            fails,
        };
        {
            let mut sink = StreamSink::new(&mut narrow);
            assert_eq!(rt; sink.put(b"abc"), Ok(()));
            assert_eq!(rt; sink.put(b"defg"), Err(Failed));
            assert_eq!(rt; sink.put(b""), Ok(()));
        }
        assert_eq!(rt; narrow.taken.as_slice(), b"abcde".as_slice());
    }
    Ok(())
}

#[test]
fn stream_sink_finishes_what_is_left_in_a_buffer(rt: HostRuntime) -> Result<(), Fail> {
    let alloc = rt.alloc();
    let text = text_of(alloc, 5603)?;
    let cases = [
        (65_536, 9_000, Ok(()), Ok(()), 5603),
        (65_536, 5_000, Ok(()), Err(Failed), 5_000),
        (64, 9_000, Ok(()), Ok(()), 5603),
        (64, 5_000, Err(Failed), Err(Failed), 5_000),
    ];
    for (capacity, room, put, finished, length) in cases {
        let mut narrow = Narrow {
            taken: Vec::new(alloc),
            room,
            fails: true,
        };
        {
            let buffer = BufWriter::with_capacity(alloc, capacity, &mut narrow)?;
            let mut sink = StreamSink::new(buffer);
            assert_eq!(rt; put_lines(&text, &mut sink), put, "{capacity} {room}");
            assert_eq!(rt; sink.finish(), finished, "{capacity} {room}");
        }
        let written = text.as_slice().get(..length).ok_or("a short text")?;
        assert!(rt; narrow.taken.as_slice() == written, "{capacity} {room}");
    }
    Ok(())
}

/// Puts a text line by line into a sink of which one put is named to take so many bytes and fail, and
/// compares the answer and what was written with what they should be.
fn expect_lines(
    rt: &impl Abort,
    alloc: Global,
    text: &[u8],
    (call, taken): (u64, u64),
    answer: Result<(), Failed>,
    length: usize,
) -> Result<(), Fail> {
    let mut sink = MemorySink::new(alloc, 6_000)?;
    sink.fail_at(call, taken)?;
    assert_eq!(rt; put_lines(text, &mut sink), answer, "put {call}");
    let written = text.get(..length).ok_or("a short text")?;
    assert!(rt; sink.bytes() == written, "put {call}");
    Ok(())
}

#[test]
fn put_lines_puts_nothing_after_a_failed_put(rt: HostRuntime) -> Result<(), Fail> {
    let alloc = rt.alloc();
    let text = text_of(alloc, 5603)?;
    for (call, taken, answer, length) in [
        (1, 0, Err(Failed), 0),
        (1, 79, Err(Failed), 79),
        (2, 65, Err(Failed), 145),
        (52, 80, Err(Failed), 4_160),
        (70, 1, Err(Failed), 5_521),
        (71, 80, Err(Failed), 5_603),
        (72, 0, Ok(()), 5_603),
    ] {
        expect_lines(&rt, alloc, &text, (call, taken), answer, length)?;
    }
    Ok(())
}

#[test]
fn put_lines_puts_each_line_by_itself(rt: HostRuntime) -> Result<(), Fail> {
    for (text, call, answer, length) in [
        ("", 1, Ok(()), 0),
        ("a", 1, Err(Failed), 0),
        ("a\n", 1, Err(Failed), 0),
        ("a\n", 2, Ok(()), 2),
        ("\n\nb", 3, Err(Failed), 2),
        ("\n\nb", 4, Ok(()), 3),
    ] {
        expect_lines(&rt, rt.alloc(), text.as_bytes(), (call, 0), answer, length)?;
    }
    Ok(())
}
