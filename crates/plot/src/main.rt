// The program `plot`: reads a plot file from standard input and prints what is counted of it.
//
// The text is `report` of the file's bytes (crate report, specs/Report.antt), put together by
// `report::write_report`; here it is only read (crate read_full) and written. 4,096 bytes settle any file,
// however long it is, and 65,536 bytes hold every text (report/specs/Theorems.antt).
#![tactic(auto)]

use read_full::read_full;
use std::io;
use std::io::Write;

fn main(rt: HostRuntime) -> io::Result<()> {
    let mut file = [0u8; 4096];
    let mut text = [0u8; 65536];
    let read = read_full(&mut rt.stdin(), &mut file)?;
    let length = report::write_report(&file[..read], &mut text);
    rt.stdout().write_all(&text[..length])
}
