//! Each public call once, and the host's files and streams, of which no clause says what they hold.
use crate::{Failed, Files, Gate, HostFiles, HostSink, MemFiles, MemSink, OpenGate, Sink};
use lo_base::SessionNo;
use std::io::Read;
use std::test::Fail;
use std::{env, fs, io, process};

#[test]
fn files_in_memory_are_put_and_read(rt: HostRuntime) -> Result<(), Fail> {
    let mut files = MemFiles::new(rt.alloc(), 2, 4)?;
    for (name, bytes, want) in [
        ("a", "wxyz", true),
        ("b", "vwxyz", false),
        ("b", "", true),
        ("c", "", false),
        ("a", "xyz", true),
    ] {
        assert_eq!(rt; files.put(name, bytes.as_bytes()), want, "{name}: {bytes}");
    }
    let mut out = *b"....";
    assert_eq!(rt; files.size("a"), Ok(Some(3)));
    assert_eq!(rt; files.read("a", 1, &mut out), Ok(2));
    assert_eq!(rt; out, *b"yz..");
    Ok(())
}

#[test]
fn files_in_memory_fail_by_number(rt: HostRuntime) -> Result<(), Fail> {
    let alloc = rt.alloc();
    let mut files = MemFiles::new(alloc, 1, 1)?;
    files.fail(vec![in alloc; 4, 2]?);
    for want in [Ok(None), Err(Failed), Ok(None), Err(Failed), Ok(None)] {
        assert_eq!(rt; files.size("a"), want);
    }
    Ok(())
}

#[test]
fn files_in_memory_are_written(rt: HostRuntime) -> Result<(), Fail> {
    let mut files = MemFiles::new(rt.alloc(), 2, 8)?;
    let mut out = *b"........";
    assert_eq!(rt; files.put("a", b"old"), true);
    assert_eq!(rt; files.append("b", b"x"), Err(Failed));
    assert_eq!(rt; files.sync("b"), Err(Failed));
    assert_eq!(rt; files.rename("b", "a"), Err(Failed));
    assert_eq!(rt; files.create("b"), Ok(()));
    assert_eq!(rt; files.create("c"), Err(Failed));
    assert_eq!(rt; files.append("b", b"new"), Ok(()));
    assert_eq!(rt; files.append("b", b"er ones"), Err(Failed));
    assert_eq!(rt; files.size("b"), Ok(Some(6)));
    assert_eq!(rt; files.append("b", b"!!"), Ok(()));
    assert_eq!(rt; files.sync("b"), Ok(()));
    assert_eq!(rt; files.rename("b", "a"), Ok(()));
    assert_eq!(rt; files.rename("a", "a"), Ok(()));
    assert_eq!(rt; files.size("b"), Ok(None));
    assert_eq!(rt; files.read("a", 0, &mut out), Ok(8));
    assert_eq!(rt; out, *b"newer !!");
    assert_eq!(rt; files.create("c"), Ok(()));
    assert_eq!(rt; files.rename("c", "d"), Ok(()));
    assert_eq!(rt; files.create("a"), Ok(()));
    assert_eq!(rt; files.size("a"), Ok(Some(0)));
    assert_eq!(rt; files.append("a", b"after"), Ok(()));
    assert_eq!(rt; files.read("a", 1, &mut out), Ok(4));
    assert_eq!(rt; out, *b"fterr !!");
    Ok(())
}

// One save of the file `a` by way of `a.new`. It ends at the first call that fails.
fn save<F: Files>(files: &mut F) -> Result<(), Failed> {
    files.create("a.new")?;
    files.append("a.new", b"ne")?;
    files.append("a.new", b"west")?;
    files.sync("a.new")?;
    files.rename("a.new", "a")
}

#[test]
fn each_call_of_a_save_fails_in_turn(rt: HostRuntime) -> Result<(), Fail> {
    let alloc = rt.alloc();
    for (failing, of_a, of_new) in [
        (1, Some(3), None),
        (2, Some(3), Some(1)),
        (3, Some(3), Some(4)),
        (4, Some(3), Some(6)),
        (5, Some(3), Some(6)),
        (6, Some(6), None),
    ] {
        let mut files = MemFiles::new(alloc, 2, 9)?;
        assert_eq!(rt; files.put("a", b"old"), true);
        files.fail(vec![in alloc; failing]?);
        let saved = save(&mut files);
        files.fail(Vec::new(alloc));
        assert_eq!(rt; saved.is_ok(), failing == 6, "{failing}");
        assert_eq!(rt; files.size("a"), Ok(of_a), "{failing}");
        assert_eq!(rt; files.size("a.new"), Ok(of_new), "{failing}");
        assert_eq!(rt; save(&mut files), Ok(()), "{failing}");
        assert_eq!(rt; files.size("a"), Ok(Some(6)), "{failing}");
    }
    Ok(())
}

#[test]
fn sink_in_memory_takes_what_fits(rt: HostRuntime) -> Result<(), Fail> {
    let alloc = rt.alloc();
    let mut sink = MemSink::new(alloc, 5, 2)?;
    sink.fail(vec![in alloc; 2]?);
    for (piece, want) in [
        ("abc", Ok(2)),
        ("cde", Err(Failed)),
        ("cde", Ok(2)),
        ("ef", Ok(1)),
        ("f", Err(Failed)),
        ("", Ok(0)),
    ] {
        assert_eq!(rt; sink.write(piece.as_bytes()), want, "{piece}");
    }
    assert_eq!(rt; sink.taken(), b"abcde".as_slice());
    Ok(())
}

#[test]
fn open_gate_holds_nobody(rt: HostRuntime) {
    let session = SessionNo::new(1).expect(&rt, "a session");
    OpenGate.before(session, 1);
}

#[test]
fn host_files_are_read(rt: HostRuntime) -> Result<(), Fail> {
    let alloc = rt.alloc();
    let temporary = env::temp_dir(&rt)?;
    let id = process::id(rt.process());
    let folder = format!(in alloc; "{}/lo_outside.{id}", temporary.display())?;
    let script = format!(in alloc; "{folder}/script")?;
    let missing = format!(in alloc; "{folder}/none")?;
    let below = format!(in alloc; "{folder}/script/none")?;
    fs::create_dir(&rt, folder.as_str())?;
    fs::write(&rt, script.as_str(), "A: lo_create 5\n")?;
    let mut files = HostFiles::new(&rt);
    let mut out = [0; 9];
    let size = files.size(script.as_str());
    let first = (files.read(script.as_str(), 3, &mut out), out);
    let of_missing = (files.read(missing.as_str(), 0, &mut out), out);
    let again = (files.read(script.as_str(), 13, &mut out), out);
    let at_the_end = (files.read(script.as_str(), 15, &mut out), out);
    let of_folder = files.read(folder.as_str(), 0, &mut out);
    let below_a_file = (
        files.size(below.as_str()),
        files.read(below.as_str(), 0, &mut out),
    );
    let anew = files.read(script.as_str(), 0, &mut out);
    fs::remove_dir_all(&rt, folder.as_str())?;
    let removed = files.size(script.as_str());
    let read_after = files.read(script.as_str(), 0, &mut out);
    assert_eq!(rt; size, Ok(Some(15)));
    assert_eq!(rt; first, (Ok(9), *b"lo_create"));
    assert_eq!(rt; of_missing, (Ok(0), *b"lo_create"));
    assert_eq!(rt; again, (Ok(2), *b"5\n_create"));
    assert_eq!(rt; at_the_end, (Ok(0), *b"5\n_create"));
    assert_eq!(rt; of_folder, Err(Failed));
    assert_eq!(rt; below_a_file, (Err(Failed), Err(Failed)));
    assert_eq!(rt; anew, Ok(9));
    assert_eq!(rt; removed, Ok(None));
    assert_eq!(rt; read_after, Ok(0));
    Ok(())
}

#[test]
fn host_files_are_written(rt: HostRuntime) -> Result<(), Fail> {
    let alloc = rt.alloc();
    let temporary = env::temp_dir(&rt)?;
    let id = process::id(rt.process());
    let folder = format!(in alloc; "{}/lo_outside.written.{id}", temporary.display())?;
    let image = format!(in alloc; "{folder}/image")?;
    let new = format!(in alloc; "{folder}/image.new")?;
    let below = format!(in alloc; "{folder}/none/image")?;
    fs::create_dir(&rt, folder.as_str())?;
    fs::write(&rt, image.as_str(), "old")?;
    fs::write(&rt, new.as_str(), "left over")?;
    let mut files = HostFiles::new(&rt);
    let mut out = *b"........";
    let of_old = (files.read(image.as_str(), 0, &mut out), out);
    let saved = [
        files.create(new.as_str()),
        files.append(new.as_str(), b"new"),
        files.append(new.as_str(), b"er"),
        files.sync(new.as_str()),
        files.rename(new.as_str(), image.as_str()),
    ];
    let of_new = (files.read(image.as_str(), 0, &mut out), out);
    let no_longer = files.size(new.as_str());
    let on_none = [
        files.append(new.as_str(), b"x"),
        files.sync(new.as_str()),
        files.rename(new.as_str(), image.as_str()),
        files.create(below.as_str()),
        files.create(folder.as_str()),
    ];
    let more = [
        files.append(image.as_str(), b"!"),
        files.sync(image.as_str()),
    ];
    let of_more = (files.read(image.as_str(), 3, &mut out), out);
    let anew = files.create(image.as_str());
    let size = files.size(image.as_str());
    fs::remove_dir_all(&rt, folder.as_str())?;
    assert_eq!(rt; of_old, (Ok(3), *b"old....."));
    assert_eq!(rt; saved, [Ok(()); 5]);
    assert_eq!(rt; of_new, (Ok(5), *b"newer..."));
    assert_eq!(rt; no_longer, Ok(None));
    assert_eq!(rt; on_none, [Err(Failed); 5]);
    assert_eq!(rt; more, [Ok(()); 2]);
    assert_eq!(rt; of_more, (Ok(3), *b"er!er..."));
    assert_eq!(rt; anew, Ok(()));
    assert_eq!(rt; size, Ok(Some(0)));
    Ok(())
}

#[test]
fn host_sink_fails_when_closed(rt: HostRuntime) -> Result<(), Fail> {
    let (mut reader, writer) = io::pipe(&rt)?;
    let mut sink = HostSink::new(writer);
    let mut out = [0; 3];
    assert_eq!(rt; sink.write(b"OK\n"), Ok(3));
    assert_eq!(rt; reader.read(&mut out)?, 3);
    assert_eq!(rt; out, *b"OK\n");
    drop(reader);
    assert_eq!(rt; sink.write(b"OK\n"), Err(Failed));
    Ok(())
}

#[test]
fn host_sink_reaches_both_streams(rt: HostRuntime) {
    assert_eq!(rt; HostSink::out(rt.stdout()).write(b""), Ok(0));
    assert_eq!(rt; HostSink::err(rt.stderr()).write(b""), Ok(0));
}
