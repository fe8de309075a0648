//! Reading the job file.
use std::io;
use std::io::Read;

// One byte more than a job file has at most: a longer input is refused for its length, whatever follows.
const ENOUGH: u64 = 4097;

// What standard input holds, read to its end. Of a long input only the first bytes are kept.
pub(crate) fn read(rt: &HostRuntime) -> io::Result<Vec<u8>> {
    let mut bytes = Vec::new(rt.alloc());
    rt.stdin().take(ENOUGH).read_to_end(&mut bytes)?;
    io::copy(&mut rt.stdin(), &mut io::sink())?;
    Ok(bytes)
}
