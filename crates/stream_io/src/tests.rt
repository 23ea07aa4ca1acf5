//! The adapters over std: bytes go through a pipe, and a closed one is a fault.

use crate::adapters::{ReadSource, WriteSink};
use counted_io::{Failed, Sink, Source};
use std::io::{self, Read, Write};
use std::test::Fail;

/// A reader and a writer that fail at each call, and a writer that takes nothing.
#[derive(Drop)]
struct Broken {
    takes_nothing: bool,
}

impl Read for Broken {
    fn read(&mut self, _buf: &mut [u8]) -> io::Result<usize> {
        Err(io::ErrorKind::Other.into())
    }
}

impl Write for Broken {
    fn write(&mut self, _buf: &[u8]) -> io::Result<usize> {
        if self.takes_nothing {
            return Ok(0);
        }
        Err(io::ErrorKind::Other.into())
    }

    fn flush(&mut self) -> io::Result<()> {
        Ok(())
    }
}

/// A reader and a writer that a signal interrupts so many times, and then takes what it is given.
#[derive(Drop)]
struct Interrupted {
    times: u32,
}

impl Interrupted {
    fn call(&mut self) -> io::Result<()> {
        if self.times > 0 {
            self.times -= 1;
            return Err(io::ErrorKind::Interrupted.into());
        }
        Ok(())
    }
}

impl Read for Interrupted {
    fn read(&mut self, buf: &mut [u8]) -> io::Result<usize> {
        self.call()?;
        match buf.first_mut() {
            Some(byte) => {
                *byte = b'x';
                Ok(1)
            }
            None => Ok(0),
        }
    }
}

impl Write for Interrupted {
    fn write(&mut self, buf: &[u8]) -> io::Result<usize> {
        self.call()?;
        Ok(buf.len())
    }

    fn flush(&mut self) -> io::Result<()> {
        self.call()
    }
}

#[test]
fn bytes_go_through_a_pipe(rt: HostRuntime) -> Result<(), Fail> {
    let (reader, writer) = io::pipe(&rt)?;
    let mut source = ReadSource::new(reader);
    let mut sink = WriteSink::new(writer);
    assert_eq!(rt; sink.write(b"some bytes"), Ok(10));
    drop(sink);
    let mut buffer = [0; 8];
    assert_eq!(rt; source.read(&mut buffer), Ok(8));
    assert_eq!(rt; &buffer, b"some byt");
    assert_eq!(rt; source.read(&mut buffer), Ok(2));
    assert_eq!(rt; &buffer[..2], b"es".as_slice());
    assert_eq!(rt; source.read(&mut buffer), Ok(0), "the end");
    Ok(())
}

#[test]
fn errors_and_writes_of_nothing_are_faults(rt: HostRuntime) -> Result<(), Fail> {
    let mut source = ReadSource::new(Broken {
        takes_nothing: false,
    });
    assert_eq!(rt; source.read(&mut [0; 8]), Err(Failed));
    for takes_nothing in [false, true] {
        let mut sink = WriteSink::new(Broken { takes_nothing });
        assert_eq!(rt; sink.write(b"x"), Err(Failed), "{takes_nothing}");
    }
    Ok(())
}

#[test]
fn what_a_signal_interrupts_is_tried_again(rt: HostRuntime) -> Result<(), Fail> {
    let mut source = ReadSource::new(Interrupted { times: 3 });
    let mut buffer = [0; 8];
    assert_eq!(rt; source.read(&mut buffer), Ok(1));
    assert_eq!(rt; &buffer[..1], b"x".as_slice());
    let mut sink = WriteSink::new(Interrupted { times: 3 });
    assert_eq!(rt; sink.write(b"xy"), Ok(2));
    Ok(())
}
