use crate::files::{FileFault, Files};
use crate::memory::{MemFiles, MemSink};
use crate::sink::{Sink, SinkFault};
use crate::sure::{SureFiles, SureSink};
use atl_base::text::{Text, TextRefusal};
use std::alloc::Global;
use std::process::Abort;
use std::test::Fail;

fn text(alloc: Global, letters: &str) -> Result<Text, TextRefusal> {
    Text::from_bytes(alloc, letters.as_bytes())
}

/// One pair: `a.xmi` with the bytes `abc`.
fn one_pair(alloc: Global) -> Result<Vec<(Text, Vec<u8>)>, Fail> {
    let mut pairs = Vec::new(alloc);
    let path = text(alloc, "a.xmi")?;
    let bytes = b"abc".to_vec(alloc)?;
    pairs.push((path, bytes))?;
    Ok(pairs)
}

fn holds(content: Option<&[u8]>, bytes: &[u8]) -> bool {
    match content {
        Some(found) => found == bytes,
        None => false,
    }
}

/// Whether a read gives these bytes.
fn gives<F: Files>(
    alloc: Global,
    files: &mut F,
    path: &Text,
    limit: u64,
    bytes: &[u8],
) -> Result<bool, FileFault> {
    let found = files.read(alloc, path, limit)?;
    Ok(found.as_slice() == bytes)
}

fn wrote<F: Files>(alloc: Global, files: &mut F, path: &Text, bytes: &[u8]) -> bool {
    files.write(alloc, path, bytes).is_ok()
}

fn took<S: Sink>(alloc: Global, sink: &mut S, bytes: &[u8]) -> bool {
    sink.put(alloc, bytes).is_ok()
}

#[test]
fn planned_reads_fail(rt: HostRuntime) -> Result<(), Fail> {
    let alloc = rt.alloc();
    let path = text(alloc, "a.xmi")?;
    let absent = text(alloc, "b.xmi")?;
    let mut files = MemFiles::new(one_pair(alloc)?, [2u64].to_vec(alloc)?);
    assert_eq!(rt; gives(alloc, &mut files, &path, 3, b"abc"), Ok(true));
    assert_eq!(rt;
        gives(alloc, &mut files, &path, 3, b"abc"),
        Err(FileFault::Failed),
        "the second call"
    );
    assert_eq!(rt;
        gives(alloc, &mut files, &path, 2, b"abc"),
        Err(FileFault::TooBig),
        "one byte above the limit"
    );
    assert_eq!(rt; gives(alloc, &mut files, &path, u64::MAX, b"abc"), Ok(true));
    assert_eq!(rt;
        gives(alloc, &mut files, &absent, 3, b""),
        Err(FileFault::Failed),
        "an absent path"
    );
    Ok(())
}

#[test]
fn planned_writes_fail(rt: HostRuntime) -> Result<(), Fail> {
    let alloc = rt.alloc();
    let path = text(alloc, "a.xmi")?;
    let other = text(alloc, "b.xmi")?;
    let mut files = MemFiles::new(one_pair(alloc)?, [2u64].to_vec(alloc)?);
    assert!(rt; wrote(alloc, &mut files, &other, b"xy"));
    assert!(rt; !wrote(alloc, &mut files, &path, b"z"), "the second call");
    assert!(rt; holds(files.content(&path), b"abc"), "nothing is written");
    assert!(rt; wrote(alloc, &mut files, &path, b"z"));
    assert!(rt; holds(files.content(&path), b"z"));
    assert!(rt; holds(files.content(&other), b"xy"));
    Ok(())
}

#[test]
fn sure_files_never_fail(rt: HostRuntime) -> Result<(), Fail> {
    let alloc = rt.alloc();
    let path = text(alloc, "a.xmi")?;
    let absent = text(alloc, "b.xmi")?;
    let mut files = SureFiles::new(one_pair(alloc)?);
    assert!(rt; files.content(&absent).is_none());
    assert_eq!(rt;
        gives(alloc, &mut files, &absent, 0, b""),
        Ok(true),
        "an absent path is empty"
    );
    assert_eq!(rt; gives(alloc, &mut files, &path, 3, b"abc"), Ok(true));
    assert_eq!(rt;
        gives(alloc, &mut files, &path, 2, b"abc"),
        Err(FileFault::TooBig)
    );
    assert!(rt; wrote(alloc, &mut files, &absent, b"new"));
    assert!(rt; holds(files.content(&absent), b"new"));
    assert!(rt; holds(files.content(&path), b"abc"));
    Ok(())
}

#[test]
fn sinks_take_pieces_in_order(rt: HostRuntime) -> Result<(), Fail> {
    let alloc = rt.alloc();
    let mut sure = SureSink::new(alloc);
    assert!(rt; took(alloc, &mut sure, b"ab"));
    assert!(rt; took(alloc, &mut sure, b"c"));
    assert!(rt; sure.bytes() == b"abc".as_slice());

    let mut sink = MemSink::new(alloc, [2u64, 4].to_vec(alloc)?);
    assert!(rt; took(alloc, &mut sink, b"ab"));
    assert_eq!(rt;
        sink.put(alloc, b"lost"),
        Err(SinkFault::Failed),
        "the second put"
    );
    assert!(rt; took(alloc, &mut sink, b"c"));
    assert!(rt; !took(alloc, &mut sink, b"lost"), "the fourth put");
    assert!(rt; sink.bytes() == b"abc".as_slice());
    Ok(())
}
