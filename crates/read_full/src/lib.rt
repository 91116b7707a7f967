// Reading until there is no room or the input ends, for the programs that read standard input.
#![tactic(auto)]

ghost use Rattle.std.specs.Prelude.{◌≡◌, ◌-◌, ◌≤◌, ◌<◌, IfOk, List, OnErr, drop, length, replicate, take, ℕ};
ghost use Rattle.std.specs.Io.KnownBytes.{Consumes, IsAtEnd};

use std::io;
use std::io::Read;

// Reads until the bytes are full or the input ends, and gives how many bytes were read. Where the bytes
// that the input has left are known, they stand in front, and fewer than there is room for only if that
// is the end. The bytes behind them are zero. Where a read fails, all the bytes are zero, and what was
// read before is lost, fewer bytes than there is room for.
pub fn read_full<R: Read>(from: &mut R, bytes: &mut [u8]) -> io::Result<usize>
    ensures bound { IfOk result (λ n. n ≤ length bytes.old) }
    ensures bytes { IfOk result (λ n. Consumes (R.remaining from.old) (R.remaining from.new) (take n bytes.new)) }
    ensures end { IfOk result (λ n. n < length bytes.old → IsAtEnd (R.remaining from.new)) }
    ensures behind { IfOk result (λ n. drop n bytes.new ≡ replicate (length bytes.old - n) 0) }
    ensures cleared { OnErr result (bytes.new ≡ replicate (length bytes.old) 0) }
    ensures lost { OnErr result ((bs : List ℕ) × (length bs < length bytes.old)
        × Consumes (R.remaining from.old) (R.remaining from.new) bs) }
{
    let mut done = 0;
    while done < bytes.len() {
        let n = match from.read(&mut bytes[done..]) {
            Ok(n) => n,
            Err(error) => {
                bytes.fill(0);
                return Err(error);
            }
        };
        if n == 0 {
            break;
        }
        done += n;
    }
    bytes[done..].fill(0);
    Ok(done)
}
