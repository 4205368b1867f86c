// cycles_compare FIRST SECOND: reads two net files, and prints whether they have the same cycles, on ruled and on entry ledgers.
// Where a file has a fault, the line that tells it stands behind the file's name, and the status is 1.
#![tactic(auto)]

use anyhow::anyhow;
use ledger::{EntryLedger, Ledger, Ledgers, RuledLedger};
use netfile::{read_sheet, write_fault};
use sheet::{ClosedSheet, Comparison, compare};
use std::alloc::{AllocError, Global};
use std::io::Write;
use std::{env, fs};

// Two ledgers of the kind that `new` makes.
fn ledgers_of<L: Ledger + Drop, F: Fn(Global) -> Result<L, AllocError>>(
    heap: Global,
    new: &F,
) -> Result<Ledgers<L>, AllocError>
    requires { F.IsAlwaysCallable new.now }
{
    let current = new(heap)?;
    let spare = new(heap)?;
    Ok(Ledgers { current, spare })
}

// The closed sheet of a net file, of which the steps and rows are told; or its fault is.
fn sheet_of<L: Ledger + Drop>(
    rt: &HostRuntime,
    name: &str,
    ledgers: Ledgers<L>,
) -> anyhow::Result<ClosedSheet<L>> {
    let file = fs::read(rt, name)?;
    match read_sheet(&file, ledgers) {
        Ok(sheet) => {
            let steps = sheet.steps();
            let rows = sheet.row_count();
            println!(rt; "{name}: {steps} steps, {rows} rows")?;
            Ok(sheet)
        }
        Err(fault) => {
            let mut line = [0u8; 128];
            let length = write_fault(&fault, &mut line).unwrap_or(0).min(128);
            print!(rt; "{name}: ")?;
            rt.stdout().write_all(&line[..length])?;
            Err(anyhow!("a net file has a fault"))
        }
    }
}

// Compares two net files on ledgers of the kind that `new` makes.
fn compare_on<L: Ledger + Drop, F: Fn(Global) -> Result<L, AllocError>>(
    rt: &HostRuntime,
    kind: &str,
    first: &str,
    second: &str,
    new: F,
) -> anyhow::Result<()>
    requires { F.IsAlwaysCallable new }
{
    let ledgers = ledgers_of(rt.alloc(), &new)?;
    let others = ledgers_of(rt.alloc(), &new)?;
    println!(rt; "on {kind} ledgers")?;
    let a = sheet_of(rt, first, ledgers)?;
    let b = sheet_of(rt, second, others)?;
    match compare(&a, &b) {
        Comparison::Same => println!(rt; "same cycles")?,
        Comparison::Different => println!(rt; "other cycles")?,
    }
    Ok(())
}

// Both kinds are tried, also where one of them is too small for a file.
fn main(rt: HostRuntime) -> anyhow::Result<()> {
    let mut names = env::args(&rt)?;
    let _program = names.next();
    let (Some(first), Some(second)) = (names.next(), names.next()) else {
        rt.eprintln("usage: cycles_compare FIRST SECOND")?;
        return Err(anyhow!("two net files are wanted"));
    };
    let ruled = compare_on(
        &rt,
        "ruled",
        first.as_str(),
        second.as_str(),
        RuledLedger::new,
    );
    let entry = compare_on(
        &rt,
        "entry",
        first.as_str(),
        second.as_str(),
        EntryLedger::new,
    );
    ruled?;
    entry?;
    Ok(())
}
