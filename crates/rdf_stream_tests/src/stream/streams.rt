// A reader and a writer that count their calls, as devices; and puts that take a part.

use rdf_stream::{Drain, Failed, In, Out, Source, put_all};
use slow_devices::slow_drain;
use std::alloc::Global;
use std::io;
use std::io::{ErrorKind, Read, Write};

/// Gives its bytes, and fails where it is broken.
#[derive(Drop)]
struct Giving<'a> {
    bytes: &'a [u8],
    calls: u64,
    broken: bool,
}

impl<'a> Read for Giving<'a> {
    fn read(&mut self, buf: &mut [u8]) -> io::Result<usize> {
        self.calls = self.calls.saturating_add(1);
        if self.broken {
            return Err(io::Error::from(ErrorKind::BrokenPipe));
        }
        self.bytes.read(buf)
    }
}

/// Takes three bytes a call, and holds them until it is flushed. It fails where it is broken.
#[derive(Drop)]
struct Holding {
    held: Vec<u8>,
    sent: Vec<u8>,
    calls: u64,
    flushes: u64,
    broken: bool,
}

impl Write for Holding {
    fn write(&mut self, buf: &[u8]) -> io::Result<usize> {
        self.calls = self.calls.saturating_add(1);
        if self.broken {
            return Err(io::Error::from(ErrorKind::BrokenPipe));
        }
        let count = buf.len().min(3);
        self.held.extend_from_slice(&buf[..count])?;
        Ok(count)
    }

    fn flush(&mut self) -> io::Result<()> {
        self.flushes = self.flushes.saturating_add(1);
        if self.broken {
            return Err(io::Error::from(ErrorKind::BrokenPipe));
        }
        self.sent.extend_from_slice(self.held.as_slice())?;
        self.held.clear();
        Ok(())
    }
}

/// What one fill of a source over the reader gives, and whether the source has ended and has failed then.
fn fill(reader: &mut Giving<'_>, buf: &mut [u8]) -> (Option<usize>, bool, bool) {
    let mut source = In::new(reader);
    let count = source.fill(buf).ok();
    let ended = source.ended();
    let failed = source.failed();
    drop(source);
    (count, ended, failed)
}

/// Whether a fill gives these bytes, and ends where there are none.
fn gives(reader: &mut Giving<'_>, bytes: &[u8]) -> bool {
    let mut buf = [0u8; 4];
    let (count, ended, failed) = fill(reader, &mut buf);
    match count {
        Some(count) => buf.get(..count) == Some(bytes) && ended == bytes.is_empty() && !failed,
        None => false,
    }
}

fn fills_by_reads() -> bool {
    let mut reader = Giving {
        bytes: b"abcdef",
        calls: 0,
        broken: false,
    };
    let has_given = gives(&mut reader, b"abcd")
        && gives(&mut reader, b"ef")
        && gives(&mut reader, b"");
    let calls = reader.calls;
    reader.broken = true;
    let last = fill(&mut reader, &mut [0u8; 4]);
    has_given && calls == 3 && last == (None, false, true) && reader.calls == 4
}

#[test]
fn a_fill_is_one_read(rt: HostRuntime) {
    assert!(rt; fills_by_reads());
}

/// What one put into a drain over the writer takes, and whether the drain has failed then.
fn put(writer: &mut Holding, bytes: &[u8]) -> (Option<usize>, bool) {
    let mut drain = Out::new(writer);
    let count = drain.put_some(bytes).ok();
    let failed = drain.failed();
    drop(drain);
    (count, failed)
}

/// Whether a flush of a drain over the writer is done, and whether the drain has failed then.
fn flush(writer: &mut Holding) -> (bool, bool) {
    let mut drain = Out::new(writer);
    let is_done = drain.flush().is_ok();
    let failed = drain.failed();
    drop(drain);
    (is_done, failed)
}

fn has(writer: &Holding, held: &[u8], sent: &[u8]) -> bool {
    writer.held.as_slice() == held && writer.sent.as_slice() == sent
}

fn puts_by_writes(alloc: Global) -> bool {
    let mut writer = Holding {
        held: Vec::new(alloc),
        sent: Vec::new(alloc),
        calls: 0,
        flushes: 0,
        broken: false,
    };
    let has_put = put(&mut writer, b"abcd") == (Some(3), false) && has(&writer, b"abc", b"");
    let has_sent = flush(&mut writer) == (true, false) && has(&writer, b"", b"abc");
    writer.broken = true;
    let fails = put(&mut writer, b"d") == (None, true) && flush(&mut writer) == (false, true);
    has_put
        && has_sent
        && fails
        && has(&writer, b"", b"abc")
        && (writer.calls, writer.flushes) == (2, 2)
}

#[test]
fn a_put_is_one_write_and_a_flush_one_flush(rt: HostRuntime) {
    assert!(rt; puts_by_writes(rt.alloc()));
}

/// Whether a drain that takes a byte a call, and fails after these calls, has these bytes after a put of `bytes`.
fn takes(alloc: Global, calls: u64, taken: &[u8]) -> bool {
    let mut drain = slow_drain(alloc, 1, calls);
    let is_whole = put_all(&mut drain, b"bytes") == Ok(());
    drain.bytes.as_slice() == taken && is_whole == (calls >= 5) && drain.failed != is_whole
}

/// Whether a put of more bytes than a slice has room for fails.
fn fails_at_its_end() -> bool {
    let mut room = [0u8; 3];
    let mut drain = Out::new(room.as_mut_slice());
    put_all(&mut drain, b"bytes") == Err(Failed) && drain.failed()
}

#[test]
fn a_put_goes_on_after_a_short_one(rt: HostRuntime) {
    assert!(rt; takes(rt.alloc(), 5, b"bytes"));
    assert!(rt; takes(rt.alloc(), 3, b"byt"));
    assert!(rt; fails_at_its_end());
}
