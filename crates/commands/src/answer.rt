// The answer to a line.
ghost use Rattle.std.specs.Prelude.{◌≡◌, IfOk, string_bytes};
ghost use Rattle.lines.specs.Hex.{hex_in};
ghost use Rattle.commands.specs.Answer.{Answers, MatchAnswer, dissect_answer, not_understood, verdict};

use crate::command::{Command, NotUnderstood, read_command};
use crate::dissect::dissect_text;
use crate::types::types_text;
use lines::escape::{Escaped, escaped_bytes};
use lines::hex::hex_bytes;
use std::alloc::{AllocError, Global};
use topics::matching::matches;
use topics::names::{is_topic_filter, is_topic_name};

// The lines to print for a command line, each ended by a line feed: none for an empty line, and for a line that is
// not understood `? ` and the line as escaped text.
pub fn answer(heap: Global, line: &[u8]) -> Result<String, AllocError>
    ensures answer { IfOk result (λ text. Answers line.now (string_bytes text)) }
{
    match read_command(line) {
        Ok(Command::Nothing) => Ok(String::new(heap)),
        Ok(Command::Types) => types_text(heap),
        Ok(Command::Dissect { hex }) => dissect_answer(heap, hex, line),
        Ok(Command::Match { filter, topic }) => match_answer(heap, filter, topic, line),
        Err(NotUnderstood) => not_understood(heap, line),
    }
}

// What the packet in hexadecimal is.
fn dissect_answer(heap: Global, hex: &[u8], line: &[u8]) -> Result<String, AllocError>
    ensures answer { IfOk result (λ text. string_bytes text ≡ dissect_answer (hex_in hex.now) line.now) }
{
    let Some(bytes) = hex_bytes(heap, hex)? else {
        return not_understood(heap, line);
    };
    dissect_text(heap, bytes.as_slice())
}

// Whether the filter takes the topic, both given as escaped texts.
fn match_answer(
    heap: Global,
    filter: &[u8],
    topic: &[u8],
    line: &[u8],
) -> Result<String, AllocError>
    ensures answer { IfOk result (λ text. MatchAnswer filter.now topic.now line.now (string_bytes text)) }
{
    let Some(filter) = escaped_bytes(heap, filter)? else {
        return not_understood(heap, line);
    };
    let Some(topic) = escaped_bytes(heap, topic)? else {
        return not_understood(heap, line);
    };
    String::from_str(heap, judge(filter.as_slice(), topic.as_slice()))
}

// The verdict as a line; the filter is judged first.
fn judge(filter: &[u8], topic: &[u8]) -> &'static str
    ensures answer { result.now ≡ verdict filter.now topic.now }
{
    if !is_topic_filter(filter) {
        "bad filter\n"
    } else if !is_topic_name(topic) {
        "bad topic\n"
    } else if matches(filter, topic) {
        "yes\n"
    } else {
        "no\n"
    }
}

// Heap and line stay two: a struct of them would be made in `answer` and taken apart in each function.
fn not_understood(heap: Global, line: &[u8]) -> Result<String, AllocError>
    ensures answer { IfOk result (λ text. string_bytes text ≡ not_understood line.now) }
{
    format!(in heap; "? {}\n", Escaped(line))
}
