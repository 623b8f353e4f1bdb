// Removal from the middle of a ring: the entries that a test picks go, the others keep their order.
ghost use Rattle.std.specs.Prelude.{◌≡◌, Bool, length, filter};
ghost use Rattle.ring.specs.Ring.{waiting};
ghost use Rattle.ring.specs.Remove.{Removed};

use super::Ring;

// A test on entries: `picked` says which it picks, and `picks` answers so. A trait and no closure: to call a closure takes a `requires`,
// which no public function has, and what `remove` promises is said by `picked`.
pub trait Pick<T> {
    ghost picked: { Self → T → Bool };

    fn picks(&self, entry: &T) -> bool
        ensures { result ≡ picked self.now entry.now };
}

impl Ring {
    // Removes the entries that `pick` picks and answers how many went. It moves the others together in place.
    pub fn remove<T: Copy, P: Pick<T>>(&mut self, memory: &mut [T], pick: &P) -> usize
        ensures answer { result ≡ length (filter (P.picked pick.now) (waiting self.old memory.old)) }
        ensures after { Removed (P.picked pick.now) self.old memory.old self.new memory.new }
    {
        let count = self.len(memory);
        // Counted: an entry's place goes round with the memory.
        let mut stay = 0;
        for i in 0..count {
            let entry = memory[self.place(memory, i)];
            let goes = pick.picks(&entry);
            if !goes {
                let at = self.place(memory, stay);
                memory[at] = entry;
                stay += 1;
            }
        }
        self.count = stay;
        count - stay
    }
}
