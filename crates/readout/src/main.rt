// The read-out program: one sheet on standard input, the read-out of document 01 on standard output. A sheet of more than 16,384 bytes is
// refused by 1, so that no more than one byte past them is read.
#![tactic(auto)]

use input::read_full;
use std::io;

fn main(rt: HostRuntime) -> io::Result<()> {
    let mut sheet = [0u8; 16385];
    let n = read_full(&mut rt.reader(), &mut sheet)?;
    let mut out = [0u8; 8192];
    let m = report::read_out(&sheet[..n], &mut out);
    rt.write_all(&out[..m])
}
