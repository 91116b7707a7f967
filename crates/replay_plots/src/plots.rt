// The command plot: the text that the program `plot` prints for a file.
use replay_text::text;
use replay_text::text::field;
use replay_text::write::Output;
use std::io;
use std::io::Write;

// plot BYTES: the text for a file of these bytes, with a vertical bar for each line feed. Of a longer
// file 4,096 bytes are read, which settle any file; no text has more than 65,536 bytes.
pub fn plot(to: &mut Output, line: &[u8]) -> io::Result<()> {
    let mut bytes = [0; 4096];
    let file = text::bytes_in(field(line, 1), &mut bytes);
    let mut shown = [0; 65536];
    let length = report::write_report(file, &mut shown);
    set_bars(&mut shown);
    to.write_all(&shown[..length])
}

// Puts a vertical bar in the place of each line feed.
fn set_bars(bytes: &mut [u8]) {
    for byte in bytes {
        if *byte == b'\n' {
            *byte = b'|';
        }
    }
}
