// One port's store: up to eight messages with their lengths. Every stored message passes through it.
// The slots are a ring: the oldest message is in slot `oldest`, the next in the slot after it, and after slot 7 comes slot 0.
#![tactic(auto)]

ghost use Rattle.std.specs.Prelude.{◌≡◌, ◌+◌, ◌<◌, ◌≤◌, [], ◌∷◌, ◌++◌, length, get_or};

// A store's slots, the bytes of one, and the bytes of all.
pub const SLOTS: usize = 8;

pub const SLOT_SIZE: usize = 64;

pub const BLOCK_SIZE: usize = 512;

// The slots again, as the number after which the ring begins anew.
pub const RING: u32 = 8;

// A message on its way: its bytes, with zeros after them, and its length. An array beside a length, since the kernel has no heap, and the zeros
// too are answered. It is lent from call to call: by value its bytes would be copied at each.
#[derive(Clone, Copy)]
pub struct Letter {
    pub bytes: [u8; SLOT_SIZE],
    pub size: u32,
    pub ghost short: { size ≤ 64 },
}

impl Letter {
    ghost use Rattle.stores.specs.Ring.{slot_size, letter_of};

    // The letter of a message.
    pub fn of(message: &[u8]) -> Letter
        requires { length message.now ≤ slot_size }
        ensures { result ≡ letter_of message.now }
    {
        let mut bytes = [0u8; SLOT_SIZE];
        bytes[..message.len()].copy_from_slice(message);
        Letter {
            bytes,
            size: message.len() as u32,
        }
    }
}

// 01: "Each port keeps up to eight messages with their lengths (a sampling port one)". Its form is the one that 01 names: flat bytes, the
// lengths, the oldest place and the count.
#[derive(Clone, Copy)]
pub struct Store {
    // eight slots of 64 bytes
    pub bytes: [u8; BLOCK_SIZE],
    // the length of the message in each slot
    pub lengths: [u32; SLOTS],
    // the slot of the oldest message, 0..7
    pub oldest: u32,
    // how many messages are stored, 0..8
    pub count: u32,
}

impl Store {
    ghost use Rattle.stores.specs.Ring.{Sized, slots, slot_size, slot_of, message_in, written, letter_of, no_messages, laid_behind, appended, oldest_of, dropped, queue_of, lay_out};

    // The store of a port at load.
    #[tactic(auto, unfolding(crate::specs::Ring::no_messages))]
    pub fn empty() -> Store
        ensures { result ≡ no_messages }
    {
        Store {
            bytes: [0; BLOCK_SIZE],
            lengths: [0; SLOTS],
            oldest: 0,
            count: 0,
        }
    }

    // The slot `i` places behind the oldest message's. The first remainder keeps the sum from wrapping.
    fn slot(&self, i: u32) -> u32
        requires { i ≤ slots }
        ensures { result ≡ slot_of self.now i }
    {
        (self.oldest % RING + i) % RING
    }

    // The message `i` places behind the oldest, which stays.
    fn letter(&self, i: u32) -> Letter
        requires place { i ≤ slots }
        requires short { get_or self.now.lengths (slot_of self.now i) 0 ≤ slot_size }
        ensures { result ≡ letter_of (message_in self.now (slot_of self.now i)) }
    {
        let at = self.slot(i) as usize;
        let first = SLOT_SIZE * at;
        Letter::of(&self.bytes[first..first + self.lengths[at] as usize])
    }

    // 64 bytes, with any number for their length, put into the slot behind the last.
    pub fn append(&mut self, bytes: &[u8], size: u32)
        requires room { self.old.count < slots }
        requires whole { length bytes.now ≡ slot_size }
        ensures { self.new ≡ laid_behind self.old bytes.now size }
    {
        let at = self.slot(self.count) as usize;
        let first = SLOT_SIZE * at;
        self.bytes[first..first + SLOT_SIZE].copy_from_slice(bytes);
        self.lengths[at] = size;
        self.count += 1;
    }

    // A letter put there.
    pub fn push(&mut self, letter: &Letter)
        requires { self.old.count < slots }
        ensures appended { self.new ≡ appended self.old letter.now }
        ensures queued { queue_of self.new ≡ queue_of self.old ++ written letter.now ∷ [] }
    {
        self.append(&letter.bytes, letter.size);
    }

    // The oldest message, which stays.
    #[tactic(auto, unfolding(crate::specs::Ring::oldest_of))]
    pub fn oldest(&self) -> Letter
        requires count_nonzero { 0 < self.now.count }
        requires st_bound { get_or self.now.lengths (slot_of self.now 0) 0 ≤ slot_size }
        ensures { result ≡ oldest_of self.now }
    {
        self.letter(0)
    }

    // The oldest message taken away: its bytes stay in their slot, which no longer counts.
    #[tactic(auto, unfolding(crate::specs::Ring::dropped))]
    pub fn drop_oldest(&mut self)
        requires { 0 < self.old.count }
        ensures { self.new ≡ dropped self.old }
    {
        self.oldest = self.slot(1);
        self.count -= 1;
    }

    // The same messages in settled form: the oldest in slot 0, and zeros wherever no message stands.
    pub fn settled(&self) -> Store
        requires { Sized self.now }
        ensures { result ≡ lay_out (queue_of self.now) }
    {
        let mut settled = Store::empty();
        for i in 0..self.count {
            settled.push(&self.letter(i));
        }
        settled
    }
}
