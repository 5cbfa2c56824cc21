//! Names with what must not be printed as it is, and the way back.
use crate::names::{one_line, read_back};

/// Names, and what is printed for each.
const NAMES: &[(&[u8], &str)] = &[
    (b"lock.sheet", "lock.sheet"),
    (b"it's \"mine\"", "it's \"mine\""),
    (b"M\xc3\xbcller \xf0\x9f\x94\x92", "M\u{fc}ller \u{1f512}"),
    (b"M\xfcller", "M\\xfcller"),
    (b"M\xc3\xbc\xff", "M\\xc3\\xbc\\xff"),
    (b"M\\xfcller", "M\\\\xfcller"),
    (b"anna: ok 1\nbert", "anna: ok 1\\nbert"),
    (b"\t\r\x1b[31m\x7f\0", "\\t\\x0d\\x1b[31m\\x7f\\x00"),
    (
        b"\xe2\x80\xaea\xc2\x85\xe2\x80\xa8",
        "\\xe2\\x80\\xaea\\xc2\\x85\\xe2\\x80\\xa8",
    ),
    (b"", ""),
];

#[test]
fn a_name_is_one_line_and_is_read_back(rt: HostRuntime) -> anyhow::Result<()> {
    for (name, shown) in NAMES {
        let line = one_line(rt.alloc(), name)?;
        assert_eq!(rt; line.as_str(), *shown);
        let read = read_back(rt.alloc(), line.as_str())?;
        assert!(rt; read.is_some_and(|bytes| bytes.as_slice() == *name));
    }
    Ok(())
}

/// Every byte alone, before a letter and before itself.
#[test]
fn every_byte_is_read_back(rt: HostRuntime) -> anyhow::Result<()> {
    for byte in 0..=u8::MAX {
        for name in [[byte, b'a'], [byte, byte], [b'\\', byte]] {
            let line = one_line(rt.alloc(), &name)?;
            assert!(rt; line.bytes().all(|shown| shown >= b' '));
            let read = read_back(rt.alloc(), line.as_str())?;
            assert!(rt; read.is_some_and(|bytes| bytes.as_slice() == name.as_slice()));
        }
    }
    Ok(())
}
