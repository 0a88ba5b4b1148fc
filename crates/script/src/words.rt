ghost use Rattle.std.specs.Prelude.{◌≡◌, ◌<◌, [], ◌∷◌, length, MatchOption};
ghost use Rattle.std.specs.Iterator.{YieldsFirstRef, item_count};
ghost use Rattle.std.specs.Str.{bytes_eq};
ghost use Rattle.script.specs.Words.{blank, words, words_left};

// Stays: a public name for the comparison of a word with a text, which has its definition.
/// Whether the word is just the text.
pub fn is_text(word: &[u8], text: &[u8]) -> bool
    ensures { result ≡ bytes_eq word.now text.now }
{
    word == text
}

/// Whether the byte stands between words: space, tab or carriage return.
fn is_blank(b: u8) -> bool
    ensures { result ≡ blank b }
{
    matches!(b, b' ' | b'\t' | b'\r')
}

/// The first word of the line and what follows it, or nothing where the line has no word.
pub fn first_word(line: &[u8]) -> Option<(&[u8], &[u8])>
    ensures { MatchOption result (words line.now ≡ []) (λ x. (words line.now ≡ x.0.now ∷ words x.1.now) × (length x.1.now < length line.now)) }
{
    let start = line.iter().position(|b| !is_blank(*b))?;
    let text = &line[start..];
    let end = text.iter().position(|b| is_blank(*b)).unwrap_or(text.len());
    Some((&text[..end], &text[end..]))
}

/// The words of a text, one after another.
#[derive(Drop)]
pub struct Words<'a> {
    left: &'a [u8],
}

impl<'a> Words<'a> {
    /// The words of the text, from the first one on.
    pub fn new(text: &'a [u8]) -> Words<'a>
        ensures { words_left result ≡ words text.now }
    {
        Words { left: text }
    }
}

impl<'a> Iterator for Words<'a> {
    type Item = &'a [u8];

    ghost next_gives = { YieldsFirstRef words_left };

    ghost remaining = { item_count words_left };

    fn next(&mut self) -> Option<&'a [u8]> {
        let (word, rest) = first_word(self.left)?;
        self.left = rest;
        Some(word)
    }
}
