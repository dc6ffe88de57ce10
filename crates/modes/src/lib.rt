// SET_PARTITION_MODE: the mode, and what modes 0..2 do to the caller's ports.
#![tactic(auto)]

ghost use Rattle.std.specs.Prelude.{◌≡◌, List, ℕ, ◌<◌, length, MatchResult};
ghost use Rattle.model.specs.Tables.{ports as port_count};
ghost use Rattle.model.specs.State.{State, mode_of, fresh};
ghost use Rattle.model.specs.Answers.{nothing_told};
ghost use Rattle.model.specs.Services.{refuse, done, with_mode, unmade, set_mode};
ghost use Rattle.events.specs.Shown.{refusal_number};
ghost use Rattle.ports.specs.Held.{ports_of, PortPut};
ghost use Rattle.service_contracts.specs.Called.{Rows, Calls};

use events::{Answer, COLD_START, IDLE, NORMAL, Refusal, WARM_START};
use ports::{ARRIVAL, COUNT, CREATED, VALIDITY};
use tables::Tables;

// A port as at load: not created, empty, with validity and arrival 0.
fn unmake(numbers: &mut [u32], k: usize)
    requires { (length numbers.old ≡ 832) × (k < 64) }
    ensures { (bytes : List ℕ) → PortPut numbers.old bytes numbers.new bytes k fresh }
{
    ports::set_number(numbers, k, CREATED, 0);
    ports::set_number(numbers, k, VALIDITY, 0);
    ports::set_number(numbers, k, ARRIVAL, 0);
    ports::set_number(numbers, k, COUNT, 0);
}

// Each port of the caller unmade.
fn unmake_all(tables: Tables, numbers: &mut [u32], p: u8)
    requires rows { Rows tables.bytes.now }
    requires numbers_len { length numbers.old ≡ 832 }
    ensures { (bytes : List ℕ) → ports_of numbers.new bytes (port_count tables.entry.bytes.now) ≡ unmade tables.entry.bytes.now p 0 (ports_of numbers.old bytes (port_count tables.entry.bytes.now)) }
{
    for k in 0..tables.ports {
        if tables.owner(k) == p {
            unmake(numbers, k);
        }
    }
}

// How mode m asked for in a mode is judged: above 3, 3; NORMAL in NORMAL, 1; WARM_START in COLD_START, 5; else it may be set.
// Modes stay bytes: what may not change is that `set_mode` answers every byte an event may hold.
#[tactic(auto, using(std::proofs::lemmas::Bool::Decides::nat_tests), unfolding(model::specs::Services::set_mode))]
fn judged(m: u8, mode: u8) -> Result<(), Refusal>
    ensures { (t : List ℕ) (s : State) (p : ℕ) → mode_of s p ≡ mode
        → MatchResult result (λ _. set_mode t s p m ≡ done nothing_told (with_mode t s p m)) (λ why. set_mode t s p m ≡ refuse (refusal_number why)) }
{
    match (m, mode) {
        (NORMAL, NORMAL) => Err(Refusal::NoAction),
        (WARM_START, COLD_START) => Err(Refusal::InvalidMode),
        (IDLE..=NORMAL, _) => Ok(()),
        _ => Err(Refusal::InvalidParam),
    }
}

// Refused as it is judged; else set, and modes 0..2 also unmake the caller's ports.
pub fn set_mode(tables: Tables, modes: &mut [u8], numbers: &mut [u32], p: u8, m: u8) -> Answer
    requires rows { Rows tables.bytes.now }
    requires numbers_len { length numbers.old ≡ 832 }
    requires p_in_bounds { p < length modes.old }
    ensures { (bytes : List ℕ) → Calls tables.entry.bytes.now (λ s. set_mode tables.entry.bytes.now s p m) p result modes.old numbers.old bytes modes.new numbers.new bytes }
{
    let at = p as usize;
    if let Err(why) = judged(m, modes[at]) {
        return events::refused(why, p);
    }
    modes[at] = m;
    if m != NORMAL {
        unmake_all(tables, numbers, p);
    }
    events::done(p)
}
