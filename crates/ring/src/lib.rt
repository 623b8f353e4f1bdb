// A ring: entries that wait, first in first out. It holds two numbers; the memory for its entries is lent to each call.
#![tactic(auto)]

ghost use Rattle.std.specs.Prelude.{◌≡◌, ◌<◌, length, ◌==◌};
ghost use Rattle.ring.specs.Ring.{waiting, place, empty, Pushed, Popped, Oldest, Got, Placed, Waits};

pub mod remove;
pub mod run;
#[cfg(test)]
mod tests;

// Where the first entry stands and how many wait. Any two numbers are a ring: calls reduce them to the memory they are lent.
#[derive(Clone, Copy, Debug)]
pub struct Ring {
    first: usize,
    count: usize,
}

// A new ring.
impl Default for Ring {
    ghost is_default = { λ r. r ≡ empty };

    fn default() -> Ring {
        Ring::new()
    }
}

impl Ring {
    // A ring in which nothing waits, over whatever memory.
    pub const fn new() -> Ring
        ensures { result ≡ empty }
    {
        Ring { first: 0, count: 0 }
    }

    // How many entries wait; never more than the memory has places.
    #[tactic(auto, using(crate::proofs::Waiting::lengths))]
    pub fn len<T: Copy>(&self, memory: &[T]) -> usize
        ensures { result ≡ length (waiting self.now memory.now) }
    {
        self.count.min(memory.len())
    }

    // Whether nothing waits.
    pub fn is_empty<T: Copy>(&self, memory: &[T]) -> bool
        ensures { result ≡ (length (waiting self.now memory.now) == 0) }
    {
        self.len(memory) == 0
    }

    // The place of the i-th entry, going round in the memory.
    #[tactic(auto, using(crate::proofs::Round::places))]
    fn place<T: Copy>(&self, memory: &[T], i: usize) -> usize
        requires { i < length memory.now }
        ensures answer { result ≡ place self.now (length memory.now) i }
        ensures within { result < length memory.now }
    {
        let start = self.first % memory.len();
        let gap = memory.len() - start;
        if i < gap { start + i } else { i - gap }
    }

    // Appends the entry; refuses exactly when every place is taken, and hands the entry back.
    #[tactic(auto, using(crate::proofs::Waiting::pushes))]
    pub fn push<T: Copy>(&mut self, memory: &mut [T], entry: T) -> Result<(), T>
        ensures { Pushed self.old memory.old entry result self.new memory.new }
    {
        if self.count >= memory.len() {
            return Err(entry);
        }
        let at = self.place(memory, self.count);
        memory[at] = entry;
        self.count += 1;
        Ok(())
    }

    // Takes the oldest entry; `None` exactly when nothing waits.
    #[tactic(auto, using(crate::proofs::Waiting::pops))]
    pub fn pop<T: Copy>(&mut self, memory: &[T]) -> Option<T>
        ensures { Popped self.old memory.now result self.new }
    {
        let entry = self.oldest(memory)?;
        self.count = self.len(memory) - 1;
        self.first = (self.first % memory.len() + 1) % memory.len();
        Some(entry)
    }

    // The entry that `pop` would take, left where it is.
    pub fn oldest<T: Copy>(&self, memory: &[T]) -> Option<T>
        ensures { Oldest (waiting self.now memory.now) result }
    {
        self.get(memory, 0)
    }

    // The i-th oldest entry, from 0; `None` exactly when no more than `i` wait.
    #[tactic(auto, using(crate::proofs::Waiting::reads))]
    pub fn get<T: Copy>(&self, memory: &[T], i: usize) -> Option<T>
        ensures { Got (waiting self.now memory.now) i result }
    {
        (i < self.len(memory)).then(|| memory[self.place(memory, i)])
    }

    // Puts `entry` in place of the i-th oldest; refuses exactly when no more than `i` wait, and hands the entry back.
    #[tactic(auto, using(crate::proofs::Waiting::sets))]
    pub fn set<T: Copy>(&self, memory: &mut [T], i: usize, entry: T) -> Result<(), T>
        ensures { Placed self.now memory.old i entry result memory.new }
    {
        if i >= self.len(memory) {
            return Err(entry);
        }
        let at = self.place(memory, i);
        memory[at] = entry;
        Ok(())
    }

    // Lets go of all that waits. The memory keeps its contents, which no longer wait.
    pub fn clear(&mut self)
        ensures { self.new ≡ empty }
    {
        self.first = 0;
        self.count = 0;
    }
}

// What `waiting` is, in terms of places: nothing in a new ring, never more than fits, each entry in a place of its own.
pub fn waiting_law<T: Copy>()
    ensures { Waits T }
{}
