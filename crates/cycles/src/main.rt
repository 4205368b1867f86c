// cycles: reads a net file from standard input, and prints its minimal cycles and the answers to its questions, on ruled ledgers.
// Where the file has a fault, the one line that tells it is printed instead, and the status is 1.
//
// `cycles_entry` differs in the kind of ledger alone. What both do to a file stands in `console`; the rest reads and prints. A call that both could
// share would be public, and each public call has a contract that pins its result, which none can of what is printed.
#![tactic(auto)]

use anyhow::anyhow;
use console::{FaultLine, INPUT_BYTES, OUTPUT_BYTES, read_input, respond};
use ledger::{Ledgers, RuledLedger};
use std::io::Write;

fn main(rt: HostRuntime) -> anyhow::Result<()> {
    let heap = rt.alloc();
    let mut file = vec![in heap; 0u8; INPUT_BYTES]?;
    let count = read_input(&mut rt.stdin(), &mut file)?;
    let mut out = vec![in heap; 0u8; OUTPUT_BYTES]?;
    let ledgers = Ledgers {
        current: RuledLedger::new(heap)?,
        spare: RuledLedger::new(heap)?,
    };
    match respond(&file[..count], &mut out, ledgers) {
        Ok(length) => {
            rt.stdout().write_all(&out[..length])?;
            Ok(())
        }
        Err(FaultLine { length }) => {
            rt.stdout().write_all(&out[..length])?;
            Err(anyhow!("the net file has a fault"))
        }
    }
}
