// The words of a line, parted by blanks.
ghost use Rattle.std.specs.Prelude.{◌≡◌, ◌≤◌, length as len, take, drop};
ghost use Rattle.std.specs.Str.{bytes_eq};
ghost use Rattle.lines.specs.Words.{skip_blanks, word_in, after_word};

// The line from its first byte that is no blank.
fn skip_blanks(line: &[u8]) -> &[u8]
    ensures answer { result.now ≡ skip_blanks line.now }
{
    let blanks = line.iter().position(|byte| *byte != b' ');
    &line[blanks.unwrap_or(line.len())..]
}

// How many bytes stand before the first blank.
fn word_length(line: &[u8]) -> usize
    ensures word { take result line.now ≡ word_in line.now }
    ensures after { drop result line.now ≡ after_word line.now }
    ensures bound { result ≤ len line.now }
{
    let blank = line.iter().position(|byte| *byte == b' ');
    blank.unwrap_or(line.len())
}

// The first word of a line, empty where there is none, and what follows it. No Option: a word is never empty, and readers
// ask by `[]` how many there are.
pub fn next_word(line: &[u8]) -> (&[u8], &[u8])
    ensures word { result.0.now ≡ word_in (skip_blanks line.now) }
    ensures after { result.1.now ≡ after_word (skip_blanks line.now) }
{
    let line = skip_blanks(line);
    line.split_at(word_length(line))
}

// Is the word this name? Beside `==`, as its clause says it in the words of the commands' definitions.
pub fn is_word(word: &[u8], name: &[u8]) -> bool
    ensures answer { result ≡ bytes_eq word.now name.now }
{
    word == name
}
