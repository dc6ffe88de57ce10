// The runner: 01, "The runner". It reads tables.bin in the current folder and events on standard input, and prints a line for each event. Only
// reading and writing stand here: the kernel loads, and the crate `runner_text` has the text of a turn.
#![tactic(auto)]

ghost use Rattle.std.specs.Prelude.{◌^◌, ◌≤◌, ◌<◌, ◌≡◌, true, length, IfOk, IfSome};
ghost use Rattle.states.specs.Shown.{is_sound};
ghost use Rattle.reading.specs.Came.{came as bytes_came};

use loader::Refused;
use reading::{Unread, came, read_full};
use runner_text::{MOST_TABLES, TURN, TURN_SIZE, TURN_TEXT};
use states::State;
use std::fs::Files;
use std::io::Read;
use std::{fs, io};

// Tells standard error what could not be read or written, and why, in the words of the system, without the number that stands after them. Where
// standard error cannot be written either, there is nobody to tell.
fn tell(rt: &(impl Eprint + AllocGlobal), what: &str, failure: io::Error) {
    let _ = match format!(in rt.alloc(); "{failure}") {
        Ok(text) => match text.as_str().split_once(" (os error ") {
            Some((words, _)) => eprintln!(rt; "runner: {what}: {words}"),
            None => eprintln!(rt; "runner: {what}: {text}"),
        },
        Err(_) => eprintln!(rt; "runner: {what}: {failure}"),
    };
}

// Reads on in a file, and answers how many bytes came.
fn skip_some<F: Read>(file: &mut F) -> Result<usize, Unread>
    ensures { bytes_came result ≤ 65536 }
{
    let mut buffer = [0u8; 65_536];
    read_full(file, &mut buffer)
}

// How many bytes are left in a file. A proved loop has to end, and nothing says that a file does: it counts its turns.
fn rest<F: Read>(file: &mut F) -> Result<usize, Unread>
    ensures { bytes_came result ≤ 2 ^ 63 }
{
    let mut got: usize = 0;
    for _ in 0..0x4000_0000_0000u64 {
        match skip_some(file) {
            Ok(0) => break,
            Ok(more) => got += more,
            Err(unread) => return Err(unread.after(got)),
        }
    }
    Ok(got)
}

// Reads the start of tables.bin, and answers the file's length.
fn read_tables(rt: &impl Files, t: &mut [u8]) -> Result<usize, Unread>
    requires { length t.old ≤ 7728 }
{
    let mut file = fs::open(rt, "tables.bin")?;
    let start = read_full(&mut file, t)?;
    let left = rest(&mut file).map_err(|unread| unread.after(start))?;
    Ok(start + left)
}

// The length of tables.bin, whose start is read. Where the file cannot be opened, or no more be read of it, as of a folder, it counts as ended
// there, and standard error is told why.
fn tables_length(rt: &(impl Files + Eprint + AllocGlobal), t: &mut [u8]) -> usize
    requires { length t.old ≤ 7728 }
{
    match read_tables(rt, t) {
        Ok(size) => size,
        Err(unread) => {
            tell(rt, "tables.bin", unread.failure);
            unread.got
        }
    }
}

fn print_refusal(rt: &impl Print, refused: Refused) -> io::Result<()> {
    let mut text = [0u8; 60];
    let end = runner_text::tables_refused(refused.fault.number(), refused.record, &mut text);
    rt.write_all(&text[..end])
}

// Reads at most 400 records, and prints the text of what was read. Where all of them came the input may go on: the answer is the state that the next
// turn starts from. Where reading fails, what came before is answered, and nobody is told.
fn take_turn<I: Read>(
    rt: &impl Print,
    input: &mut I,
    t: &[u8],
    state: State,
    turns: u64,
) -> io::Result<Option<State>>
    requires { (is_sound t.now state ≡ true) × (turns < 2 ^ 54) }
    ensures { IfOk result (λ next. IfSome next (λ after. is_sound t.now after ≡ true)) }
{
    let mut events = [0u8; TURN_SIZE];
    let got = came(read_full(input, &mut events));
    let mut text = [0u8; TURN_TEXT];
    let turned = runner_text::turn_text(t, state, TURN * turns, &events[..got], &mut text);
    rt.write_all(&text[..turned.end])?;
    Ok((got == TURN_SIZE).then_some(turned.state))
}

// One turn after another, to the end of the input, or of the number of turns, which no input reaches.
fn run_all<I: Read>(rt: &impl Print, input: &mut I, t: &[u8], loaded: State) -> io::Result<()>
    requires { is_sound t.now loaded ≡ true }
{
    let mut state = loaded;
    for turns in 0..0x40_0000_0000_0000u64 {
        let Some(after) = take_turn(rt, input, t, state, turns)? else {
            break;
        };
        state = after;
    }
    Ok(())
}

fn run_tables<I: Read>(rt: &impl Print, input: &mut I, t: &[u8]) -> io::Result<()> {
    match kernel::load(t) {
        Ok(loaded) => run_all(rt, input, t, loaded),
        Err(refused) => print_refusal(rt, refused),
    }
}

// Where standard output cannot be written, the run ends there, and standard error is told why.
fn main(rt: HostRuntime) {
    let mut t = [0u8; MOST_TABLES];
    let size = runner_text::loaded_length(tables_length(&rt, &mut t));
    if let Err(failure) = run_tables(&rt, &mut rt.stdin(), &t[..size]) {
        tell(&rt, "standard output", failure);
    }
}
