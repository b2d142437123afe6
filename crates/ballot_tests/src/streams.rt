// Readers and writers of std that fail.
use crate::same::same;
use byte_edge::{Failed, Sink, Source, StdSink, StdSource};
use std::io::{self, Read, Write};

/// Takes nothing, gives nothing, and can't flush.
#[derive(Drop)]
struct Broken;

impl Write for Broken {
    fn write(&mut self, _: &[u8]) -> io::Result<usize> {
        Ok(0)
    }

    fn flush(&mut self) -> io::Result<()> {
        Err(io::Error::from(io::ErrorKind::Other))
    }
}

impl Read for Broken {
    fn read(&mut self, _: &mut [u8]) -> io::Result<usize> {
        Err(io::Error::from(io::ErrorKind::Other))
    }
}

#[test]
fn errors_of_std_are_failures(rt: HostRuntime) {
    let mut sink = StdSink::new(Broken);
    let written = sink.write(b"abc");
    let flushed = sink.flush();
    let read = StdSource::new(Broken).read(&mut [0; 3]);
    same(
        &rt,
        (written, flushed, read),
        (Err(Failed), Err(Failed), Err(Failed)),
    );
}
