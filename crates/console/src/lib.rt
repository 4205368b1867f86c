// What the programs share: reading an input that may be of any length, and what to print for a net file.
#![tactic(auto)]

ghost use Rattle.std.specs.Prelude.{◌≤◌, length, IfOk, MatchResult};
ghost use Rattle.console.specs.Responses.{Responds};

use ledger::{Ledger, Ledgers};
use netfile::{run, write_fault};
use std::io;
use std::io::Read;

// One byte more than a net file may have, so that a longer input is seen to be too long.
pub const INPUT_BYTES: usize = 16_385;

// Enough for every printout: the longest has fewer than 119,600 bytes.
pub const OUTPUT_BYTES: usize = 131_072;

// Reads the input into the buffer until it ends or the buffer is full, and tells how many bytes came. What has no room is read and
// let go, so that whoever writes the input is not cut off. The buffer is the caller's: a call fails where reading does, and never for memory.
pub fn read_input<R: Read>(input: &mut R, buffer: &mut [u8]) -> io::Result<usize>
    ensures { IfOk result (λ n. n ≤ length buffer.new) }
{
    let mut count = 0;
    for _ in 0..u64::MAX {
        if count >= buffer.len() {
            break;
        }
        let got = input.read(&mut buffer[count..])?;
        if got == 0 {
            break;
        }
        count += got;
    }
    drain(input)?;
    Ok(count)
}

// Reads the input to its end. `io::copy` would try an interrupted read again, for as long as it is interrupted; here the caller learns of it.
fn drain<R: Read>(input: &mut R) -> io::Result<()> {
    let mut rest = [0u8; 4096];
    for _ in 0..u64::MAX {
        if input.read(&mut rest)? == 0 {
            break;
        }
    }
    Ok(())
}

// A net file has a fault: so many bytes at the front of the buffer are the line that tells it, and none where it has no room.
#[derive(Clone, Copy, Debug)]
pub struct FaultLine {
    pub length: usize,
}

// Runs a net file and puts what is to be printed to the front of the buffer: the printout, of which the length is told, or the line of
// its fault. What stands behind it stays.
pub fn respond<L: Ledger + Drop>(
    file: &[u8],
    out: &mut [u8],
    ledgers: Ledgers<L>,
) -> Result<usize, FaultLine>
    ensures within { MatchResult result (λ n. n ≤ length out.new) (λ line. line.length ≤ length out.new) }
    ensures says { Responds L.Ledger file.now out.old result out.new }
{
    match run(file, out, ledgers) {
        Ok(length) => Ok(length),
        Err(fault) => {
            let length = write_fault(&fault, out).unwrap_or(0);
            Err(FaultLine { length })
        }
    }
}
