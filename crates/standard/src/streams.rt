// A reader or a writer that keeps whether it has failed. Its fields are private: nothing else can say that it has.
ghost use Rattle.std.specs.Prelude.{◌≡◌, ◌<◌, true, false, length, IfOk, OnOk, OnErr};
ghost use Rattle.std.specs.Io.{ReadsAtMost, WritesAtMost};
ghost use Rattle.std.specs.Io.KnownBytes.{ReadConsumes, WriteAppends};

use std::io;
use std::io::{Read, Write};

#[derive(Drop)]
pub struct Watched<T> {
    stream: T,
    has_failed: bool,
}

pub fn watch<T>(stream: T) -> Watched<T>
    ensures same { result.stream ≡ stream }
    ensures fresh { result.has_failed ≡ false }
{
    Watched {
        stream,
        has_failed: false,
    }
}

impl<R: Read> Watched<R> {
    // One read.
    pub(crate) fn read(&mut self, buffer: &mut [u8]) -> io::Result<usize>
        ensures bound { ReadsAtMost result buffer.new }
        ensures bytes { ReadConsumes (R.remaining self.old.stream) (R.remaining self.new.stream) result buffer.new }
        ensures cause { OnErr result (self.new.has_failed ≡ true) }
        ensures none { OnOk result (self.new.has_failed ≡ self.old.has_failed) }
    {
        match self.stream.read(buffer) {
            Ok(n) => Ok(n),
            Err(e) => {
                self.has_failed = true;
                Err(e)
            }
        }
    }
}

impl<W: Write> Watched<W> {
    // One write. One that takes no byte counts as a failed one.
    pub(crate) fn write(&mut self, text: &[u8]) -> io::Result<usize>
        ensures bound { WritesAtMost result text.now }
        ensures bytes { WriteAppends (W.contents self.old.stream) (W.contents self.new.stream) result text.now }
        ensures some { IfOk result (λ n. 0 < n) }
        ensures cause { OnErr result (self.new.has_failed ≡ true) }
        ensures none { OnOk result (self.new.has_failed ≡ self.old.has_failed) }
    {
        match self.stream.write(text) {
            Ok(0) => {
                self.has_failed = true;
                Err(io::Error::from(io::ErrorKind::WriteZero))
            }
            Ok(n) => Ok(n),
            Err(e) => {
                self.has_failed = true;
                Err(e)
            }
        }
    }
}
