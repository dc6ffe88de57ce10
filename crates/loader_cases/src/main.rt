// Runs the loader on the cases of data/cases.bin, which tests/make_table_cases.py writes, and prints each one's label and verdict.
// A case is the label's length (1 byte), the table's length (2 bytes, low byte first), the label, and the table.
#![tactic(auto)]

use loader::Refused;
use reading::read_full;
use std::io::Read;
use std::{fs, io};

fn print_verdict(rt: &impl Print, verdict: Result<(), Refused>) -> io::Result<()> {
    match verdict {
        Ok(()) => println!(rt; "accepted"),
        Err(refused) => println!(rt; "{refused}"),
    }
}

// Reads a label of so many bytes and prints it.
fn copy_label<R: Read>(rt: &impl Print, file: &mut R, length: u8) -> io::Result<()> {
    let mut room = [0u8; 255];
    let label = &mut room[..usize::from(length)];
    let got = read_full(file, label)?;
    rt.write_all(&label[..got])?;
    rt.write_all(b": ")
}

// Reads a table of so many bytes and prints the verdict on it.
fn judge_table<R: Read>(rt: &impl Print, file: &mut R, length: u16) -> io::Result<()> {
    let mut room = [0u8; 65_535];
    let table = &mut room[..usize::from(length)];
    let got = read_full(file, table)?;
    print_verdict(rt, loader::judge(&table[..got]))
}

// Runs one case, and answers whether there was one.
fn run_case<R: Read>(rt: &impl Print, file: &mut R) -> io::Result<bool> {
    let mut head = [0u8; 3];
    if read_full(file, &mut head)? < 3 {
        return Ok(false);
    }
    copy_label(rt, file, head[0])?;
    judge_table(rt, file, u16::from_le_bytes([head[1], head[2]]))?;
    Ok(true)
}

// A proved loop has to end, and nothing says that a file does: at most 10,000 cases are run.
fn run_cases<R: Read>(rt: &impl Print, file: &mut R) -> io::Result<()> {
    for _ in 0..10_000 {
        if !run_case(rt, file)? {
            break;
        }
    }
    Ok(())
}

fn main(rt: HostRuntime) -> io::Result<()> {
    match fs::open(&rt, "cases.bin") {
        Ok(mut file) => run_cases(&rt, &mut file),
        Err(error) => eprintln!(rt; "cases.bin: {error}"),
    }
}
