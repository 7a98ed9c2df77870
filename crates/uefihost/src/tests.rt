//! Sources that give little and takers that take little, nothing, or fail.
use crate::host_files::read_all;
use crate::host_out::HostOut;
use std::io;
use std::io::{Error, ErrorKind, Read, Write};
use std::test::Fail;
use uh_base::{Failed, FileEnd, Sink};

/// What calls come to, one after the other: `!` is interrupted, `#` fails, `0` moves nothing, as does a call behind the
/// last sign, and any other sign moves one byte.
#[derive(Drop)]
struct Calls<'a> {
    signs: &'a [u8],
}

impl Calls<'_> {
    /// The sign of the next call, if it moves a byte.
    fn next(&mut self) -> io::Result<Option<u8>> {
        let Some((sign, behind)) = self.signs.split_first() else {
            return Ok(None);
        };
        self.signs = behind;
        match *sign {
            b'!' => Err(Error::from(ErrorKind::Interrupted)),
            b'#' => Err(Error::from(ErrorKind::BrokenPipe)),
            b'0' => Ok(None),
            byte => Ok(Some(byte)),
        }
    }
}

/// Gives the signs that move a byte.
impl Read for Calls<'_> {
    fn read(&mut self, buf: &mut [u8]) -> io::Result<usize> {
        match self.next()? {
            Some(byte) if !buf.is_empty() => {
                buf[0] = byte;
                Ok(1)
            }
            _ => Ok(0),
        }
    }
}

/// Takes a byte at each call that moves one.
#[derive(Drop)]
struct Taker<'a> {
    calls: Calls<'a>,
    taken: Vec<u8>,
}

impl Write for Taker<'_> {
    fn write(&mut self, buf: &[u8]) -> io::Result<usize> {
        match self.calls.next()? {
            Some(_) if !buf.is_empty() => {
                self.taken.push(buf[0])?;
                Ok(1)
            }
            _ => Ok(0),
        }
    }

    fn flush(&mut self) -> io::Result<()> {
        Ok(())
    }
}

#[test]
fn a_source_is_read_to_its_end(rt: HostRuntime) -> Result<(), Fail> {
    let rows: [(&[u8], usize, Result<&[u8], FileEnd>); 9] = [
        (b"abc", 8, Ok(b"abc")),
        (b"abc", 3, Ok(b"abc")),
        (b"abc", 2, Err(FileEnd::TooLong)),
        (b"!a!!b!", 8, Ok(b"ab")),
        (b"", 8, Ok(b"")),
        (b"", 0, Ok(b"")),
        (b"a", 0, Err(FileEnd::TooLong)),
        (b"#", 8, Err(FileEnd::Failed)),
        (b"ab#c", 8, Err(FileEnd::Failed)),
    ];
    for (signs, most, wanted) in rows {
        match (read_all(Calls { signs }, rt.alloc(), most), wanted) {
            (Ok(bytes), Ok(all)) => assert!(rt; bytes.as_slice() == all),
            (Err(end), Err(why)) => assert_eq!(rt; end, why),
            _ => return Err(Fail::from("another answer")),
        }
    }
    Ok(())
}

#[test]
fn a_taker_is_given_all_bytes(rt: HostRuntime) -> Result<(), Fail> {
    let rows: [(&[u8], Result<(), Failed>, &[u8]); 6] = [
        (b"...", Ok(()), b"abc"),
        (b"!.!!..", Ok(()), b"abc"),
        (b"", Err(Failed), b""),
        (b"..0.", Err(Failed), b"ab"),
        (b"#", Err(Failed), b""),
        (b".#..", Err(Failed), b"a"),
    ];
    for (signs, wanted, taken) in rows {
        let mut taker = Taker {
            calls: Calls { signs },
            taken: Vec::new(rt.alloc()),
        };
        assert_eq!(rt; HostOut::new(&mut taker).put(b"abc"), wanted);
        assert!(rt; taker.taken.as_slice() == taken);
    }
    Ok(())
}
