// A reader and a writer that are interrupted, do a part and fail, and the system's clock.

use nb_port::{Clock, ReadOut, Sink, Source, WriteOut};
use nb_system::{StdSink, StdSource, SystemClock};
use std::io;
use std::io::{Read, Write};
use std::test::Fail;

// Is interrupted, gives two bytes, fails, and is then at its end.
#[derive(Drop)]
struct FlakyReader {
    calls: u32,
}

impl Read for FlakyReader {
    fn read(&mut self, buf: &mut [u8]) -> io::Result<usize> {
        self.calls = self.calls.saturating_add(1);
        match self.calls {
            1 => Err(io::ErrorKind::Interrupted.into()),
            2 if buf.len() > 1 => {
                buf[..2].copy_from_slice(b"ab");
                Ok(2)
            }
            3 => Err(io::ErrorKind::Other.into()),
            _ => Ok(0),
        }
    }
}

#[test]
fn a_read_that_was_interrupted_is_tried_again(rt: HostRuntime) {
    let mut source = StdSource::over(FlakyReader { calls: 0 });
    let mut buf = [0u8; 4];
    for want in [ReadOut::Bytes(2), ReadOut::Failed, ReadOut::End] {
        assert_eq!(rt; source.read(&mut buf), want);
    }
    assert_eq!(rt; &buf, b"ab\0\0");
}

// Is interrupted, takes two bytes, takes nothing, and then fails.
#[derive(Drop)]
struct FlakyWriter {
    calls: u32,
}

impl Write for FlakyWriter {
    fn write(&mut self, buf: &[u8]) -> io::Result<usize> {
        self.calls = self.calls.saturating_add(1);
        match self.calls {
            1 => Err(io::ErrorKind::Interrupted.into()),
            2 => Ok(buf.len().min(2)),
            3 => Ok(0),
            _ => Err(io::ErrorKind::Other.into()),
        }
    }

    fn flush(&mut self) -> io::Result<()> {
        Ok(())
    }
}

#[test]
fn a_write_that_took_nothing_fails(rt: HostRuntime) {
    let mut sink = StdSink::over(FlakyWriter { calls: 0 });
    for want in [WriteOut::Took(2), WriteOut::Failed, WriteOut::Failed] {
        assert_eq!(rt; sink.write(b"abc"), want);
    }
}

// 2020-01-01 00:00 UTC
const YEAR_2020: u64 = 1_577_836_800;

// 2200-01-01 00:00 UTC
const YEAR_2200: u64 = 7_258_118_400;

#[test]
fn the_clock_gives_seconds_between_2020_and_2200(rt: HostRuntime) -> Result<(), Fail> {
    let mut clock = SystemClock::over(rt.clone()?);
    let now = clock.now();
    assert!(rt; YEAR_2020 < now && now < YEAR_2200);
    Ok(())
}
