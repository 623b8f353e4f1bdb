// The rig: performs a script of store calls from standard input.
#![tactic(auto)]

use pile::Pile;
use script::answer::{Turn, answer};
use std::alloc::Global;
use std::io::{BufRead, BufReader};

const USAGE: &str = "usage: rig, with a script on standard input, one command a line
  store table N | store journal N  an empty store for N rows replaces the one that stands
  window SBASE SWIDTH MBASE MWIDTH  stacks a window of sessions and messages, at most three
  load K N | put K N HEX | drop K N  calls on a row; kind K is 0 or 1, HEX is `-` for no bytes
  power N      from now on N writes are left
  free         how many rows more can be put
  limit K      numbers of kind K lie below it
A line that is not understood is answered by `? ` and the line as escaped text.
";

fn main(rt: HostRuntime) -> anyhow::Result<()> {
    run(&rt)
}

fn run(rt: &HostRuntime) -> anyhow::Result<()> {
    if !answer_input(rt)? {
        rt.print(USAGE)?;
    }
    Ok(())
}

// Answers each line of standard input, and says whether there was any. Apart from the service tool's, as the store is handed on.
fn answer_input(rt: &HostRuntime) -> anyhow::Result<bool> {
    let heap: Global = rt.alloc();
    let mut pile: Option<Pile> = None;
    let mut any = false;
    for line in BufReader::new(rt.alloc(), rt.stdin())?.split(heap, b'\n') {
        let line = line?;
        let Turn { pile: next, text } = answer(heap, pile, line.as_slice())?;
        rt.print(text)?;
        pile = next;
        any = true;
    }
    Ok(any)
}
