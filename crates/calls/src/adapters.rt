// The adapters over files that the tests write.
use ef_io::{Failed, FileOutput, FileSources, OutSink, Output, ReadRefusal, Sources, put};
use std::test::Fail;
use std::{fs, process};

// A new empty folder.
fn folder(rt: &HostRuntime, test: &str) -> Result<String, Fail> {
    let alloc = rt.alloc();
    let id = process::id(rt.process());
    let path = format!(in alloc; "/tmp/erlfront_{test}_{id}")?;
    let _ = fs::remove_dir_all(rt, path.as_str());
    fs::create_dir(rt, path.as_str())?;
    Ok(path)
}

#[test]
fn files_are_read(rt: HostRuntime) -> Result<(), Fail> {
    let alloc = rt.alloc();
    let folder = folder(&rt, "files_are_read")?;
    let long = vec![in alloc; 7u8; 20000]?;
    fs::write(&rt, format!(in alloc; "{folder}/a")?.as_str(), "abc")?;
    fs::write(
        &rt,
        format!(in alloc; "{folder}/long")?.as_str(),
        long.as_slice(),
    )?;
    let mut sources = FileSources::new(alloc, &rt);
    for (path, limit, want, length) in [
        ("/a", 3, Ok(()), 4),
        ("/a", 2, Err(ReadRefusal::TooLarge), 1),
        ("/a", 0, Err(ReadRefusal::TooLarge), 1),
        ("/long", 20000, Ok(()), 20001),
        ("/long", 19999, Err(ReadRefusal::TooLarge), 1),
        ("/none", 3, Err(ReadRefusal::Absent), 1),
        ("/a/none", 3, Err(ReadRefusal::Absent), 1),
        ("", 3, Err(ReadRefusal::Failed), 1),
        ("/a\0", 3, Err(ReadRefusal::Failed), 1),
    ] {
        let mut into = vec![in alloc; b'!']?;
        let path = format!(in alloc; "{folder}{path}")?;
        assert_eq!(rt;
            sources.read(path.as_str(), limit, &mut into),
            want,
            "{path}"
        );
        assert_eq!(rt; into.len(), length, "{path}");
    }
    fs::remove_dir_all(&rt, folder.as_str())?;
    Ok(())
}

#[test]
fn a_file_is_created_and_written(rt: HostRuntime) -> Result<(), Fail> {
    let alloc = rt.alloc();
    let folder = folder(&rt, "a_file_is_created_and_written")?;
    let path = format!(in alloc; "{folder}/a")?;
    fs::write(&rt, path.as_str(), "what was there")?;
    let mut output = FileOutput::new(alloc, &rt);
    assert_eq!(rt; output.create(folder.as_str()), Err(Failed));
    assert_eq!(rt;
        output.create(format!(in alloc; "{folder}/none/a")?.as_str()),
        Err(Failed)
    );
    assert_eq!(rt; output.create(path.as_str()), Ok(()));
    assert_eq!(rt; put(&mut output, b"ab"), Ok(()));
    assert_eq!(rt; put(&mut output, b"c"), Ok(()));
    drop(output);
    assert_eq!(rt; fs::read(&rt, path.as_str())?.as_slice(), b"abc".as_slice());
    let mut full = FileOutput::new(alloc, &rt);
    assert_eq!(rt; full.create("/dev/full"), Ok(()));
    assert_eq!(rt; put(&mut full, b"abc"), Err(Failed));
    fs::remove_dir_all(&rt, folder.as_str())?;
    Ok(())
}

#[test]
fn a_stream_is_written(rt: HostRuntime) -> Result<(), Fail> {
    let alloc = rt.alloc();
    let folder = folder(&rt, "a_stream_is_written")?;
    let path = format!(in alloc; "{folder}/a")?;
    let mut sink = OutSink::new(fs::create(&rt, path.as_str())?);
    assert_eq!(rt; put(&mut sink, b"ab"), Ok(()));
    assert_eq!(rt; put(&mut sink, b""), Ok(()));
    assert_eq!(rt; put(&mut sink, b"c"), Ok(()));
    assert_eq!(rt; fs::read(&rt, path.as_str())?.as_slice(), b"abc".as_slice());
    let mut full = OutSink::new(fs::create(&rt, "/dev/full")?);
    assert_eq!(rt; put(&mut full, b"abc"), Err(Failed));
    fs::remove_dir_all(&rt, folder.as_str())?;
    Ok(())
}
