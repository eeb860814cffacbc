//! Sources and sinks.

use hs_base::{Failed, Sink, SinkMem, SinkStd, Source, SourceMem, SourceStd};
use hs_expr::List;
use std::alloc::{AllocError, Global};
use std::io::Cursor;
use std::process::Abort;
use std::test::Fail;

fn bytes(alloc: Global, text: &str) -> Result<List<u8>, AllocError> {
    Ok(List::from_vec(Vec::from_slice(alloc, text.as_bytes())?))
}

fn calls(alloc: Global, numbers: &[u32]) -> Result<List<u32>, AllocError> {
    Ok(List::from_vec(Vec::from_slice(alloc, numbers)?))
}

/// Reads once into four bytes, and compares the answer and the bytes that were moved.
fn reads<S: Source>(rt: &impl Abort, source: &mut S, answer: Result<usize, Failed>, moved: &[u8]) {
    let mut into = [b'.'; 4];
    assert_eq!(rt; source.read(&mut into), answer);
    assert!(rt; moved.len() <= 4);
    assert_eq!(rt; &into[..moved.len()], moved);
}

#[test]
fn a_source_in_memory_moves_its_pieces_and_fails_where_it_is_told_to(
    rt: HostRuntime,
) -> Result<(), Fail> {
    let alloc = rt.alloc();
    let mut source = SourceMem::new(bytes(alloc, "graph")?, 3, calls(alloc, &[2])?);
    reads(&rt, &mut source, Ok(3), b"gra");
    reads(&rt, &mut source, Err(Failed), b"....");
    reads(&rt, &mut source, Ok(2), b"ph..");
    reads(&rt, &mut source, Ok(0), b"....");
    Ok(())
}

#[test]
fn a_sink_in_memory_takes_its_pieces_and_fails_past_its_room(rt: HostRuntime) -> Result<(), Fail> {
    let alloc = rt.alloc();
    let mut sink = SinkMem::new(alloc, 4, 3, calls(alloc, &[1])?)?;
    assert_eq!(rt; sink.write(b"graph"), Err(Failed));
    assert_eq!(rt; sink.write(b"graph"), Ok(3));
    assert_eq!(rt; sink.write(b"ph"), Err(Failed));
    assert_eq!(rt; sink.write(b"p"), Ok(1));
    assert_eq!(rt; sink.written(), b"grap".as_slice());
    Ok(())
}

#[test]
fn a_reader_of_the_standard_library_is_a_source(rt: HostRuntime) {
    let mut source = SourceStd::new(Cursor::new(b"rule".as_slice()));
    reads(&rt, &mut source, Ok(4), b"rule");
    reads(&rt, &mut source, Ok(0), b"....");
}

#[test]
fn a_writer_of_the_standard_library_is_a_sink(rt: HostRuntime) -> Result<(), Fail> {
    let mut sink = SinkStd::new(Vec::new(rt.alloc()));
    assert_eq!(rt; sink.write(b"rule"), Ok(4));
    assert_eq!(rt; sink.write(b""), Ok(0));
    Ok(())
}
