// The technician's tool: answers command lines from its arguments or from standard input.
#![tactic(auto)]

use commands::answer::answer;
use std::alloc::Global;
use std::env;
use std::io::{BufRead, BufReader};

const USAGE: &str = "usage: service COMMAND, or command lines on standard input
  types        the packet type of each first byte, sixteen lines of sixteen, 0 for an illegal one
  dissect HEX  what a packet is, or `bad FIELD PLACE`; HEX is `-` for no bytes
  match FILTER TOPIC
               whether a topic filter takes a topic: yes, no, `bad filter` or `bad topic`; both are escaped texts
A line that is not understood is answered by `? ` and the line as escaped text.
";

fn main(rt: HostRuntime) -> anyhow::Result<()> {
    run(&rt)
}

fn run(rt: &HostRuntime) -> anyhow::Result<()> {
    let line = command_line(rt)?;
    if !line.is_empty() {
        rt.print(answer(rt.alloc(), line.as_bytes())?)?;
        return Ok(());
    }
    if !answer_input(rt)? {
        rt.print(USAGE)?;
    }
    Ok(())
}

// The arguments as one line, with blanks between them. No `join`: that puts a blank behind empty arguments at the
// front too, and the line is printed where it is not understood.
fn command_line(rt: &HostRuntime) -> anyhow::Result<String> {
    let mut line = String::new(rt.alloc());
    for argument in env::args(rt)?.skip(1) {
        if !line.is_empty() {
            line.push(' ')?;
        }
        line.push_str(argument.as_str())?;
    }
    Ok(line)
}

// Answers each line of standard input, and says whether there was any. By bytes and not by `rt.lines`, which stops at
// the first line that is no UTF-8. Apart from the rig's, which hands its store on from line to line.
fn answer_input(rt: &HostRuntime) -> anyhow::Result<bool> {
    let heap: Global = rt.alloc();
    let mut any = false;
    for line in BufReader::new(rt.alloc(), rt.stdin())?.split(heap, b'\n') {
        let line = line?;
        rt.print(answer(heap, line.as_slice())?)?;
        any = true;
    }
    Ok(any)
}
