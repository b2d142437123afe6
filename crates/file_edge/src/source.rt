// A file that is named, or the standard input, as a source.
ghost use Rattle.std.specs.Prelude.{◌≡◌, ◌<◌, None, length, IfOk};
ghost use Rattle.std.specs.Io.{ReadsAtMost};
ghost use Rattle.byte_edge.specs.Faults.{CountsFault};
ghost use Rattle.file_edge.specs.Source.{given_faults};

use byte_edge::{Failed, Source, StdSource};
use std::fs::File;
use std::io::{self, Input, Read};
use std::rt::Files;

/// The standard input, or a file that was opened. It tells no bytes, as neither does.
#[derive(Drop)]
pub enum GivenSource<I, F> {
    Standard(StdSource<I>),
    File(StdSource<F>),
}

impl<I: Read, F: Read> Source for GivenSource<I, F> {
    ghost left = { λ _. None };

    ghost faults = { given_faults };

    fn read(&mut self, buf: &mut [u8]) -> Result<usize, Failed>
        requires { 0 < length buf.old }
        ensures bound { ReadsAtMost result buf.new }
        ensures faults { CountsFault (given_faults self.old) (given_faults self.new) result }
    {
        match self {
            GivenSource::Standard(source) => source.read(buf),
            GivenSource::File(source) => source.read(buf),
        }
    }
}

/// Opens the file of this name, or takes the standard input where the name is `-`. No read has failed yet.
pub fn open<R: Files + Input>(rt: &R, name: &str) -> io::Result<GivenSource<R::Reader, R::File>>
    ensures { IfOk result (λ source. given_faults source ≡ 0) }
{
    if name == "-" {
        return Ok(GivenSource::Standard(StdSource::new(rt.reader())));
    }
    let file = File::open(rt, name)?;
    Ok(GivenSource::File(StdSource::new(file)))
}
