// A ring through whole runs: any steps in a row are answered as a list queue of the memory's length answers them.
ghost use Rattle.std.specs.Prelude.{◌≡◌, ◌<◌, min, length, take, drop, slice_set};
ghost use Rattle.ring.specs.Ring.{waiting};
ghost use Rattle.ring.specs.Run.{Stepped, Runs, Queues};

use super::Ring;

// One call of a run.
#[derive(Clone, Copy, Debug, PartialEq, Eq)]
pub enum Step<T> {
    Push(T),
    Pop,
}

// What that call answered.
#[derive(Clone, Copy, Debug, PartialEq, Eq)]
pub enum Answer<T> {
    OfPush(Result<(), T>),
    OfPop(Option<T>),
}

impl Ring {
    // Pushes or pops, as the step says.
    pub fn step<T: Copy>(&mut self, memory: &mut [T], step: Step<T>) -> Answer<T>
        ensures { Stepped self.old memory.old step result self.new memory.new }
    {
        match step {
            Step::Push(entry) => Answer::OfPush(self.push(memory, entry)),
            Step::Pop => Answer::OfPop(self.pop(memory)),
        }
    }

    // Performs the steps in their order, as many as there is room for answers, and says how many that were.
    pub fn run<T: Copy>(
        &mut self,
        memory: &mut [T],
        steps: &[Step<T>],
        answers: &mut [Answer<T>],
    ) -> usize
        ensures answer { result ≡ min (length steps.now) (length answers.old) }
        ensures after { Runs self.old memory.old (take result steps.now) (take result answers.new) self.new memory.new }
        ensures rest { drop result answers.new ≡ drop result answers.old }
        ensures queue { Queues (length memory.old) (waiting self.old memory.old) (take result steps.now) (take result answers.new) (waiting self.new memory.new) }
    {
        let count = steps.len().min(answers.len());
        // Counted: of what a zip over answers.iter_mut() wrote a proof learns nothing, and an index for the answers alone is no plainer.
        for i in 0..count {
            answers[i] = self.step(memory, steps[i]);
        }
        count
    }
}
