// Each form on large objects once, and the numbers at the ends of their ranges.
use crate::read_script;
use lo_base::{Request, SessionNo};
use std::test::Fail;

/// All forms on large objects, with numbers at the ends of their ranges: those of objects in session 1, those of descriptors in 16.
const FORMS: &[u8] = b"# forms\xff on large objects
A: lo_creat -2147483648
A: lo_create 0\r

A: lo_create 4294967295
A: lo_open 4294967295 2147483647
A: lo_unlink 0
#
A: lo_get 0
A: lo_get 5 -9223372036854775808 2147483647
A: lo_put 0 8388608 \\x
A: lo_from_bytea 17000 \\xFf
P: lo_close -1
P: lo_read 0 -2147483648
P: lo_write 2147483647 \\x4aBCd0
P: lo_lseek 1 -2147483648 2
P: lo_lseek64 1 -9223372036854775808 -1
P: lo_tell 0
P: lo_tell64 255
P: lo_truncate 0 2147483647
P: lo_truncate64 0 9223372036854775807";

fn are_object_forms(lines: &[Request]) -> bool {
    match lines {
        [
            Request::LoCreat(-2147483648),
            Request::LoCreate(0),
            Request::LoCreate(4294967295),
            Request::LoOpen(4294967295, 2147483647),
            Request::LoUnlink(0),
            Request::LoGet(0, 0, None),
            Request::LoGet(5, -9223372036854775808, Some(2147483647)),
            Request::LoPut(0, 8388608, nothing),
            Request::LoFromBytea(17000, byte),
        ] => nothing.items().is_empty() && byte.items() == b"\xff".as_slice(),
        _ => false,
    }
}

fn are_descriptor_forms(lines: &[Request]) -> bool {
    match lines {
        [
            Request::LoClose(-1),
            Request::LoRead(0, -2147483648),
            Request::LoWrite(2147483647, bytes),
            Request::LoLseek(1, -2147483648, 2),
            Request::LoLseek64(1, -9223372036854775808, -1),
            Request::LoTell(0),
            Request::LoTell64(255),
            Request::LoTruncate(0, 2147483647),
            Request::LoTruncate64(0, 9223372036854775807),
        ] => bytes.items() == b"\x4a\xbc\xd0".as_slice(),
        _ => false,
    }
}

#[test]
fn forms_on_large_objects_are_read(rt: HostRuntime) -> Result<(), Fail> {
    let script = read_script(rt.alloc(), FORMS)?;
    let first = SessionNo::new(1).ok_or("no session")?;
    let last = SessionNo::new(16).ok_or("no session")?;
    assert_eq!(rt; script.order.items().len(), 18);
    assert!(rt; are_object_forms(script.programs.lines(first)));
    assert!(rt; are_descriptor_forms(script.programs.lines(last)));
    Ok(())
}
