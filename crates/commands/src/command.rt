// The commands of the service tool.
ghost use Rattle.std.specs.Prelude.{◌≡◌};
ghost use Rattle.commands.specs.Command.{asked_of, named, command_in};

use lines::words::{is_word, next_word};

// What a line asks for; words that are parameters are parts of the line.
#[derive(Clone, Copy)]
pub enum Command<'a> {
    // The line has no word: a command of its own, which prints nothing.
    Nothing,
    Types,
    Dissect { hex: &'a [u8] },
    Match { filter: &'a [u8], topic: &'a [u8] },
}

// The line is none of the commands.
#[derive(Clone, Copy, PartialEq, Eq, Debug)]
pub struct NotUnderstood;

// The command that a line is: its name and just as many words more as it takes.
pub fn read_command(line: &[u8]) -> Result<Command<'_>, NotUnderstood>
    ensures answer { asked_of result ≡ command_in line.now }
{
    let (name, rest) = next_word(line);
    let (first, rest) = next_word(rest);
    let (second, rest) = next_word(rest);
    let (third, _) = next_word(rest);
    command_of(name, first, second, third)
}

// The command with this name and the words behind it, the last of which may be empty.
fn command_of<'a>(
    name: &[u8],
    first: &'a [u8],
    second: &'a [u8],
    third: &[u8],
) -> Result<Command<'a>, NotUnderstood>
    ensures answer { asked_of result ≡ named name.now first.now second.now third.now }
{
    if name.is_empty() {
        return Ok(Command::Nothing);
    }
    if first.is_empty() && is_word(name, b"types") {
        return Ok(Command::Types);
    }
    if !first.is_empty() && second.is_empty() && is_word(name, b"dissect") {
        return Ok(Command::Dissect { hex: first });
    }
    if !second.is_empty() && third.is_empty() && is_word(name, b"match") {
        return Ok(Command::Match {
            filter: first,
            topic: second,
        });
    }
    Err(NotUnderstood)
}
