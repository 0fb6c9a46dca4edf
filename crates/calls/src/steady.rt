// The steady forms: sources that never fail, and a sink that tells its room.
use ef_base::Bytes;
use ef_io::{Failed, MemoryFile, ReadRefusal, Sink, Sources, SteadySink, SteadySources, put};
use std::test::Fail;

#[test]
fn a_steady_read_is_that_of_the_map(rt: HostRuntime) -> Result<(), Fail> {
    let alloc = rt.alloc();
    let files = vec![in alloc;
        MemoryFile {
            path: Bytes::from_slice(alloc, b"a")?,
            content: Bytes::from_slice(alloc, b"abc")?,
        },
    ]?;
    let mut sources = SteadySources::new(files)?;
    for (path, limit, want, length) in [
        ("a", 3, Ok(()), 4),
        ("a", 2, Err(ReadRefusal::TooLarge), 1),
        ("b", 3, Err(ReadRefusal::Absent), 1),
    ] {
        let mut into = vec![in alloc; b'!']?;
        assert_eq!(rt; sources.read(path, limit, &mut into), want, "{path}");
        assert_eq!(rt; into.len(), length, "{path}");
    }
    Ok(())
}

#[test]
fn a_steady_sink_takes_what_fits(rt: HostRuntime) -> Result<(), Fail> {
    let alloc = rt.alloc();
    let mut sink = SteadySink::new(alloc, 4)?;
    assert_eq!(rt; put(&mut sink, b"ab"), Ok(()));
    assert_eq!(rt; sink.write(b"cde"), Ok(2));
    assert_eq!(rt; sink.write(b""), Ok(0));
    assert_eq!(rt; sink.write(b"e"), Err(Failed));
    assert_eq!(rt; sink.bytes(), b"abcd".as_slice());
    Ok(())
}
