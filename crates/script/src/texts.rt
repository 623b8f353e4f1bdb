// Answers of a store as words.
ghost use Rattle.std.specs.Prelude.{◌≡◌};
ghost use Rattle.script.specs.Texts.{end_word};

use store::kind::Refusal;

// How a put or a drop ended. A word, since a Result can have no Display of its own here.
pub fn end_word(end: Result<(), Refusal>) -> &'static str
    ensures answer { result.now ≡ end_word end }
{
    match end {
        Ok(()) => "done",
        Err(Refusal::Bad) => "bad",
        Err(Refusal::Gone) => "gone",
        Err(Refusal::NoRoom) => "no room",
    }
}
