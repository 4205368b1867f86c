// vectors: runs each net file of data/ on both kinds of ledger, and compares what the programs would print with what they must, byte for byte.
#![tactic(auto)]

use anyhow::anyhow;
use console::{FaultLine, OUTPUT_BYTES, respond};
use ledger::{EntryLedger, Ledger, Ledgers, RuledLedger};
use std::alloc::{AllocError, Global};
use std::fs;

// Whether the net file gets the expected bytes on ledgers of the kind that `new` makes.
fn meets<L: Ledger + Drop, F: Fn(Global) -> Result<L, AllocError>>(
    file: &[u8],
    expected: &[u8],
    out: &mut [u8],
    heap: Global,
    new: F,
) -> Result<bool, AllocError>
    requires { F.IsAlwaysCallable new }
{
    let current = new(heap)?;
    let spare = new(heap)?;
    let length = match respond(file, out, Ledgers { current, spare }) {
        Ok(length) | Err(FaultLine { length }) => length,
    };
    Ok(&out[..length] == expected)
}

// How many of the two kinds of ledger print something else for the net file of this name.
fn differing(rt: &HostRuntime, name: &str, out: &mut [u8]) -> anyhow::Result<u32> {
    let heap = rt.alloc();
    let file = fs::read(rt, format!(in heap; "{name}.net")?)?;
    let ruled = fs::read(rt, format!(in heap; "{name}.out")?)?;
    let entry = fs::read(rt, format!(in heap; "{name}.entry.out")?)?;
    let mut wrong = 0;
    if !meets(&file, &ruled, out, heap, RuledLedger::new)? {
        println!(rt; "{name}: another printout on ruled ledgers")?;
        wrong += 1;
    }
    if !meets(&file, &entry, out, heap, EntryLedger::new)? {
        println!(rt; "{name}: another printout on entry ledgers")?;
        wrong += 1;
    }
    Ok(wrong)
}

fn main(rt: HostRuntime) -> anyhow::Result<()> {
    let index = fs::read_to_string(&rt, "index")?;
    let mut out = vec![in rt.alloc(); 0u8; OUTPUT_BYTES]?;
    let mut files = 0u32;
    let mut wrong = 0u32;
    for name in index.lines() {
        let differ = differing(&rt, name, &mut out)?;
        println!(rt; "{name}")?;
        files = files.saturating_add(1);
        wrong = wrong.saturating_add(differ);
    }
    println!(rt; "{files} net files on ruled and on entry ledgers, {wrong} other printouts")?;
    if wrong > 0 {
        return Err(anyhow!("a printout differs"));
    }
    Ok(())
}
