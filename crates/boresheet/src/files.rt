// Reading all that a reader gives, as far as a buffer holds it.
ghost use Rattle.std.specs.Prelude.{◌≡◌, length, IfErr, IfOk, OnErr};
ghost use Rattle.std.specs.Counts.{IsPrefixLen};

use std::io;
use std::io::Read;

// A call that failed: how many bytes had come before, and why it failed.
#[derive(Clone, Copy)]
pub struct ReadFailed {
    pub count: usize,
    pub error: io::Error,
}

// Reads until the buffer is full or the input ends: how many bytes stand at its start. An error is that of a read that failed, and tells how many stand there then.
pub fn fill<R: Read>(from: &mut R, buf: &mut [u8]) -> Result<usize, ReadFailed>
    ensures ok { IfOk result (λ n. IsPrefixLen n buf.new) }
    ensures before { IfErr result (λ failed. IsPrefixLen failed.count buf.new) }
    ensures err { OnErr result (length buf.new ≡ length buf.old) }
{
    let mut done: usize = 0;
    // No range and no iterator: what a read gives is the step. (`read_full` of test_cases is the same but for its error: a program stands on no test crate, and a crate for this alone would be no plainer.)
    while done < buf.len() {
        let n = from
            .read(&mut buf[done..])
            .map_err(|error| ReadFailed { count: done, error })?;
        if n == 0 {
            break;
        }
        done += n;
    }
    Ok(done)
}
