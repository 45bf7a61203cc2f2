// That calls succeed with memory at hand, and what the adapters do over readers and writers of std.
use rx_io::*;
use std::alloc::{AllocError, Global};
use std::io;
use std::io::{ErrorKind, Read, Write};
use std::test::Fail;

/// Gives one byte, fails once, and gives one more.
#[derive(Drop)]
struct Hiccup {
    calls: u8,
}

impl Read for Hiccup {
    fn read(&mut self, buf: &mut [u8]) -> io::Result<usize> {
        self.calls = self.calls.saturating_add(1);
        match (self.calls, buf.first_mut()) {
            (2, _) => Err(ErrorKind::Other.into()),
            (1 | 3, Some(first)) => {
                *first = b'x';
                Ok(1)
            }
            _ => Ok(0),
        }
    }
}

/// Takes one byte a call, and nothing from the third call on.
#[derive(Drop)]
struct Stopping {
    calls: u8,
}

impl Write for Stopping {
    fn write(&mut self, buf: &[u8]) -> io::Result<usize> {
        self.calls = self.calls.saturating_add(1);
        Ok(if self.calls < 3 { buf.len().min(1) } else { 0 })
    }

    fn flush(&mut self) -> io::Result<()> {
        Ok(())
    }
}

#[test]
fn reads_memory_to_its_end(rt: HostRuntime) -> Result<(), Fail> {
    let alloc = rt.alloc();
    let mut whole = MemSource::new(alloc, b"abc", &[])?;
    assert_eq!(rt;
        read_all(alloc, &mut whole, 3)?.as_slice(),
        b"abc".as_slice()
    );
    let mut long = MemSource::new(alloc, b"abc", &[])?;
    assert_eq!(rt;
        read_all(alloc, &mut long, 2).err(),
        Some(ReadError::TooLong)
    );
    let mut sure = SureSource::new(b"abc");
    assert_eq!(rt;
        read_all(alloc, &mut sure, 3)?.as_slice(),
        b"abc".as_slice()
    );
    Ok(())
}

#[test]
fn a_source_is_asked_no_more_once_it_ended(rt: HostRuntime) -> Result<(), Fail> {
    let alloc = rt.alloc();
    let mut src = MemSource::new(alloc, b"abc", &[3])?;
    assert_eq!(rt; read_all(alloc, &mut src, 9)?.as_slice(), b"abc".as_slice());
    let mut piece = [0; 1];
    assert_eq!(rt; src.read(&mut piece), Err(Failed), "the third call");
    Ok(())
}

#[test]
fn each_call_moves_a_piece_at_most(rt: HostRuntime) -> Result<(), Fail> {
    let alloc = rt.alloc();
    let mut src = MemSource::new(alloc, b"abcde", &[5])?;
    src.pieces(2);
    let mut piece = [0; 4];
    assert_eq!(rt; src.read(&mut piece), Ok(2));
    assert_eq!(rt; read_all(alloc, &mut src, 9)?.as_slice(), b"cde".as_slice());
    let mut out = MemSink::new(alloc, 9, &[4])?;
    out.pieces(2);
    assert_eq!(rt; out.write(b"abcd"), Ok(2));
    assert_eq!(rt; write_all(&mut out, b"cde"), Ok(()));
    assert_eq!(rt; out.bytes(), b"abcde".as_slice());
    assert_eq!(rt; write_all(&mut out, b"f"), Err(Failed), "the fourth call");
    Ok(())
}

#[test]
fn a_read_that_fails_in_mid_stream_takes_nothing(rt: HostRuntime) -> Result<(), Fail> {
    let alloc = rt.alloc();
    let mut src = MemSource::new(alloc, b"abc", &[2])?;
    let mut piece = [0; 2];
    assert_eq!(rt; src.read(&mut piece), Ok(2));
    assert_eq!(rt; read_all(alloc, &mut src, 9).err(), Some(ReadError::Failed));
    assert_eq!(rt; read_all(alloc, &mut src, 9)?.as_slice(), b"c".as_slice());
    Ok(())
}

#[test]
fn a_write_that_fails_in_mid_stream_appends_nothing(rt: HostRuntime) -> Result<(), Fail> {
    let alloc = rt.alloc();
    let mut out = MemSink::new(alloc, 5, &[2])?;
    assert_eq!(rt; write_all(&mut out, b"abc"), Ok(()));
    assert_eq!(rt; write_all(&mut out, b"d"), Err(Failed));
    assert_eq!(rt; write_all(&mut out, b"efg"), Err(Failed), "it is full");
    assert_eq!(rt; out.bytes(), b"abcef".as_slice());
    assert_eq!(rt; write_all(&mut SureSink, b"abc"), Ok(()));
    Ok(())
}

#[test]
fn a_std_source_gives_the_bytes_of_its_reader(rt: HostRuntime) -> Result<(), Fail> {
    let alloc = rt.alloc();
    let mut src = StdSource::new(&b"abc"[..]);
    assert_eq!(rt; read_all(alloc, &mut src, 3)?.as_slice(), b"abc".as_slice());
    let mut src = StdSource::new(Hiccup { calls: 0 });
    assert_eq!(rt; read_all(alloc, &mut src, 3).err(), Some(ReadError::Failed));
    assert_eq!(rt; read_all(alloc, &mut src, 3)?.as_slice(), b"x".as_slice());
    Ok(())
}

#[test]
fn a_std_sink_gives_its_writer_the_bytes(rt: HostRuntime) -> Result<(), Fail> {
    let mut bytes = Vec::new(rt.alloc());
    assert_eq!(rt; write_all(&mut StdSink::new(&mut bytes), b"abc"), Ok(()));
    assert_eq!(rt; bytes.as_slice(), b"abc".as_slice());
    let mut out = StdSink::new(Stopping { calls: 0 });
    assert_eq!(rt; write_all(&mut out, b"ab"), Ok(()));
    assert_eq!(rt; write_all(&mut out, b"c"), Err(Failed), "it took nothing");
    Ok(())
}

/// So many bytes, none like those beside it.
fn many_bytes(alloc: Global, count: u32) -> Result<Vec<u8>, AllocError> {
    (0..count).map(|i| (i % 251) as u8).collect(alloc)
}

#[test]
fn a_large_piece_is_moved_whole(rt: HostRuntime) -> Result<(), Fail> {
    let alloc = rt.alloc();
    let many = many_bytes(alloc, 150_000)?;
    let mut src = StdSource::new(many.as_slice());
    let read = read_all(alloc, &mut src, 150_000)?;
    assert_eq!(rt; read.as_slice(), many.as_slice());
    let mut written = Vec::new(alloc);
    assert_eq!(rt; write_all(&mut StdSink::new(&mut written), &many), Ok(()));
    assert_eq!(rt; written.as_slice(), many.as_slice());
    Ok(())
}

/// Sizes of buffers and pieces, small and large.
const SIZES: [u32; 8] = [1, 2, 99, 100, 101, 4096, 65_537, 150_000];

#[test]
fn a_buffer_and_a_piece_of_any_size_are_taken(rt: HostRuntime) -> Result<(), Fail> {
    let alloc = rt.alloc();
    for size in SIZES {
        let piece = many_bytes(alloc, size)?;
        let mut buffer = many_bytes(alloc, size)?;
        let mut src = StdSource::new(piece.as_slice());
        assert_eq!(rt; src.read(&mut buffer), Ok(size as usize), "{size} read");
        let mut written = Vec::new(alloc);
        let taken = StdSink::new(&mut written).write(&piece);
        assert_eq!(rt; taken, Ok(size as usize), "{size} written");
    }
    Ok(())
}
