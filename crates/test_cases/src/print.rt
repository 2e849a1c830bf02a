// How bytes are printed. An error is that of a write that failed; some of the text may have been written before it.
use std::io;

pub fn put(rt: &impl Print, text: &[u8]) -> io::Result<()> {
    rt.write_all(text)
}
