use lx_io::{Failed, MemorySink, MemorySource, Sink, Source, SureSource};
use std::test::Fail;

fn read_any(source: &mut impl Source, into: &mut [u8]) -> Result<usize, Failed> {
    source.read(into)
}

fn write_any(sink: &mut impl Sink, piece: &[u8]) -> Result<usize, Failed> {
    sink.write(piece)
}

#[test]
fn a_source_is_read_to_its_end_past_a_failure(rt: HostRuntime) -> Result<(), Fail> {
    let bytes = b"abcde".to_vec(rt.alloc())?;
    let mut source = MemorySource::new(bytes, 3, [2].to_vec(rt.alloc())?);
    let mut buffer = *b"....";
    assert!(rt; matches!(source.read(&mut buffer), Ok(3)));
    assert_eq!(rt; buffer, *b"abc.");
    assert!(rt; matches!(source.read(&mut buffer), Err(Failed)));
    assert_eq!(rt; buffer, *b"abc.");
    assert!(rt; matches!(source.read(&mut buffer), Ok(2)));
    assert_eq!(rt; buffer, *b"dec.");
    assert!(rt; matches!(read_any(&mut source, &mut buffer), Ok(0)));
    Ok(())
}

#[test]
fn a_sink_takes_a_byte_at_a_time_past_a_failure_until_it_is_full(
    rt: HostRuntime,
) -> Result<(), Fail> {
    let mut sink = MemorySink::new(rt.alloc(), 2, 0, [2].to_vec(rt.alloc())?)?;
    assert!(rt; matches!(sink.write(b"xyz"), Ok(1)));
    assert!(rt; matches!(sink.write(b"yz"), Err(Failed)));
    assert!(rt; matches!(sink.write(b"yz"), Ok(1)));
    assert!(rt; matches!(sink.write(b"z"), Err(Failed)));
    assert!(rt; matches!(write_any(&mut sink, b""), Ok(0)));
    assert_eq!(rt; sink.taken(), b"xy".as_slice());
    Ok(())
}

#[test]
fn a_sure_source_is_read_to_its_end(rt: HostRuntime) -> Result<(), Fail> {
    let mut source = SureSource::new(b"abcde".to_vec(rt.alloc())?);
    let mut buffer = *b"...";
    assert!(rt; matches!(source.read(&mut buffer), Ok(3)));
    assert_eq!(rt; buffer, *b"abc");
    assert!(rt; matches!(source.read(&mut buffer), Ok(2)));
    assert_eq!(rt; buffer, *b"dec");
    assert!(rt; matches!(read_any(&mut source, &mut buffer), Ok(0)));
    Ok(())
}
