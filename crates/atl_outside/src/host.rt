// Files and standard output of the operating system. They tell nothing of content, and count what goes wrong.
ghost use Rattle.std.specs.Prelude.{◌≡◌, ◌≤◌, ◌<◌, length, None, IfOk, IfSome, OnOk, IsErrOf};
ghost use Rattle.std.specs.Io.KnownBytes.{Appends};

use crate::files::{FileFault, Files};
use crate::sink::{Sink, SinkFault};
use atl_base::text::Text;
use std::alloc::Global;
use std::io::{ErrorKind, Read, Write};
use std::marker::Model;
use std::rt::Files as SystemFiles;
use std::{fs, io};

/// How many bytes a turn of a read asks for.
const CHUNK: usize = 8192;

/// The files of a runtime. Contracts see how often they have failed.
#[derive(Drop)]
pub struct HostFiles<'a, R: SystemFiles> {
    rt: &'a R,
    faults: u64,
}

impl<'a, R: SystemFiles> Model for HostFiles<'a, R> {
    ghost use Rattle.std.specs.Prelude.{ℕ};

    ghost Value = { ℕ };

    ghost view = { λ files. files.faults };
}

impl<'a, R: SystemFiles> HostFiles<'a, R> {
    /// The runtime's files, which have not failed yet.
    pub fn new(rt: &'a R) -> HostFiles<'a, R>
        ensures { result ≡ 0 }
    {
        HostFiles { rt, faults: 0 }
    }
}

impl<'a, R: SystemFiles> Files for HostFiles<'a, R> {
    ghost held = { λ _. None };

    ghost faults = { λ files. files };

    fn read(&mut self, alloc: Global, path: &Text, limit: u64) -> Result<Vec<u8>, FileFault> {
        let answer = match fs::open(self.rt, path.as_str()) {
            Ok(mut file) => read_to_end(alloc, &mut file, limit),
            Err(_) => Err(FileFault::Failed),
        };
        if let Err(FileFault::Failed) = answer {
            self.faults = self.faults.saturating_add(1);
        }
        answer
    }

    fn write(&mut self, _alloc: Global, path: &Text, bytes: &[u8]) -> Result<(), FileFault> {
        let answer = match fs::create(self.rt, path.as_str()) {
            Ok(mut file) => write_whole(&mut file, bytes),
            Err(error) => Err(error),
        };
        if answer.is_ok() {
            return Ok(());
        }
        self.faults = self.faults.saturating_add(1);
        Err(FileFault::Failed)
    }
}

/// Reads until a read gives no bytes, or more than `limit` came. Each turn takes at least one byte or ends the loop, so
/// there are at most `limit + 1`.
fn read_to_end<F: Read>(alloc: Global, from: &mut F, limit: u64) -> Result<Vec<u8>, FileFault>
    ensures within { IfOk result (λ v. length v.items ≤ limit) }

    // where it is known what the reader has left
    ensures bytes { IfSome (F.remaining from.old) (λ left. IfOk result (λ v. v.items ≡ left)) }
    ensures too_big { IfSome (F.remaining from.old) (λ left. IsErrOf result FileFault.TooBig → limit < length left) }
{
    let mut bytes = Vec::new(alloc);
    let mut chunk = [0u8; CHUNK];
    loop {
        let count = match from.read(&mut chunk) {
            Ok(count) => count,
            Err(_) => return Err(FileFault::Failed),
        };
        if count == 0 {
            return Ok(bytes);
        }
        if count as u64 > limit - bytes.len() as u64 {
            return Err(FileFault::TooBig);
        }
        bytes.extend_from_slice(&chunk[..count])?;
    }
}

/// Writes all bytes and flushes. Each turn takes at least one byte or ends the loop, so there are at most as many turns as
/// bytes.
fn write_whole<W: Write>(to: &mut W, bytes: &[u8]) -> io::Result<()>
    ensures { OnOk result (Appends (W.contents to.old) (W.contents to.new) bytes.now) }
{
    let mut rest = bytes;
    while !rest.is_empty() {
        let count = to.write(rest)?;
        if count == 0 {
            return Err(io::Error::from(ErrorKind::WriteZero));
        }
        rest = &rest[count..];
    }
    to.flush()
}

/// The standard output of a runtime. Contracts see how often it has failed.
#[derive(Drop)]
pub struct HostSink<'a, R: Print> {
    rt: &'a R,
    faults: u64,
}

impl<'a, R: Print> Model for HostSink<'a, R> {
    ghost use Rattle.std.specs.Prelude.{ℕ};

    ghost Value = { ℕ };

    ghost view = { λ sink. sink.faults };
}

impl<'a, R: Print> HostSink<'a, R> {
    /// The runtime's standard output, which has not failed yet.
    pub fn new(rt: &'a R) -> HostSink<'a, R>
        ensures { result ≡ 0 }
    {
        HostSink { rt, faults: 0 }
    }
}

impl<'a, R: Print> Sink for HostSink<'a, R> {
    ghost taken = { λ _. None };

    ghost faults = { λ sink. sink };

    fn put(&mut self, _alloc: Global, bytes: &[u8]) -> Result<(), SinkFault> {
        if write_whole(&mut io::writer(self.rt), bytes).is_ok() {
            return Ok(());
        }
        self.faults = self.faults.saturating_add(1);
        Err(SinkFault::Failed)
    }
}

#[cfg(test)]
mod tests {
    use super::*;
    use std::env;
    use std::fmt::Display;
    use std::test::Fail;

    /// Gives its bytes three at a time, and fails once its turns are over.
    #[derive(Drop)]
    struct Slow<'a> {
        rest: &'a [u8],
        turns: u8,
    }

    impl Read for Slow<'_> {
        fn read(&mut self, buf: &mut [u8]) -> io::Result<usize> {
            if self.turns == 0 {
                return Err(io::Error::from(ErrorKind::Other));
            }
            self.turns -= 1;
            let count = buf.len().min(self.rest.len()).min(3);
            let (front, rest) = self.rest.split_at(count);
            buf[..count].copy_from_slice(front);
            self.rest = rest;
            Ok(count)
        }
    }

    /// Takes two bytes at a time while there is room, and then none.
    #[derive(Drop)]
    struct Narrow {
        room: usize,
    }

    impl Write for Narrow {
        fn write(&mut self, buf: &[u8]) -> io::Result<usize> {
            let count = buf.len().min(self.room).min(2);
            self.room -= count;
            Ok(count)
        }

        fn flush(&mut self) -> io::Result<()> {
            Ok(())
        }
    }

    /// Takes nothing.
    struct Closed;

    impl Print for Closed {
        fn print<D: Display + Drop>(&self, _value: D) -> io::Result<()> {
            Err(io::Error::from(ErrorKind::BrokenPipe))
        }

        fn println<D: Display + Drop>(&self, _value: D) -> io::Result<()> {
            Err(io::Error::from(ErrorKind::BrokenPipe))
        }

        fn write_all(&self, _bytes: &[u8]) -> io::Result<()> {
            Err(io::Error::from(ErrorKind::BrokenPipe))
        }
    }

    fn read_slowly(alloc: Global, turns: u8, limit: u64) -> Result<Vec<u8>, FileFault> {
        let mut slow = Slow {
            rest: b"abcdefgh",
            turns,
        };
        read_to_end(alloc, &mut slow, limit)
    }

    #[test]
    fn pieces_are_joined(rt: HostRuntime) -> Result<(), Fail> {
        let alloc = rt.alloc();
        assert!(rt; read_slowly(alloc, 4, 8)?.as_slice() == b"abcdefgh".as_slice());
        assert!(rt; read_slowly(alloc, 4, u64::MAX)?.as_slice() == b"abcdefgh".as_slice());
        assert!(rt; matches!(read_slowly(alloc, 4, 7), Err(FileFault::TooBig)));
        assert!(rt;
            matches!(read_slowly(alloc, 3, 8), Err(FileFault::Failed)),
            "no end came"
        );
        Ok(())
    }

    #[test]
    fn a_writer_that_takes_nothing_fails(rt: HostRuntime) {
        assert!(rt; write_whole(&mut Narrow { room: 5 }, b"abcde").is_ok());
        assert!(rt; write_whole(&mut Narrow { room: 5 }, b"abcdef").is_err());
        assert!(rt; write_whole(&mut Narrow { room: 0 }, b"").is_ok());
    }

    #[test]
    fn a_sink_over_standard_output(rt: HostRuntime) {
        let alloc = rt.alloc();
        let mut sink = HostSink::new(&rt);
        assert!(rt; sink.put(alloc, b"taken\n").is_ok());
        let mut closed = HostSink::new(&Closed);
        assert_eq!(rt; closed.put(alloc, b"lost\n"), Err(SinkFault::Failed));
    }

    #[test]
    fn a_file_is_written_and_read(rt: HostRuntime) -> Result<(), Fail> {
        let alloc = rt.alloc();
        let mut name = env::temp_dir(&rt)?;
        name.push("atl_outside_written_and_read")?;
        let path = Text::from_bytes(alloc, name.as_str().as_bytes())?;
        let mut files = HostFiles::new(&rt);
        files.write(alloc, &path, b"a longer text")?;
        files.write(alloc, &path, b"abc")?;
        assert!(rt; files.read(alloc, &path, 3)?.as_slice() == b"abc".as_slice());
        assert!(rt; matches!(files.read(alloc, &path, 2), Err(FileFault::TooBig)));
        fs::remove_file(&rt, path.as_str())?;
        assert!(rt;
            matches!(files.read(alloc, &path, 3), Err(FileFault::Failed)),
            "no such file"
        );
        Ok(())
    }
}
