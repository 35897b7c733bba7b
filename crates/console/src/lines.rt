// The lines of a text. A line feed ends a line, and nothing follows a final one.
ghost use Rattle.std.specs.Prelude.{◌≡◌, ◌<◌, ◌≢◌, [], ◌∷◌, length, MatchOption};
ghost use Rattle.std.specs.Iterator.{YieldsFirstRef, item_count};
ghost use Rattle.std.specs.List.{AllByRecursion};
ghost use Rattle.console.specs.Lines.{first_line, after_line, lines_of, Splits};

// How many characters stand before the first line feed, or before the end.
fn line_length(text: &[u8]) -> usize
    ensures { result ≡ length (first_line text.now) }
{
    text.iter()
        .position(|character| *character == b'\n')
        .unwrap_or(text.len())
}

// Cuts a text after its first line, and leaves the line feed out.
fn split_line(text: &[u8]) -> (&[u8], &[u8])
    requires { 0 < length text.now }
    ensures line { result.0.now ≡ first_line text.now }
    ensures rest { result.1.now ≡ after_line text.now }
    ensures lines { lines_of text.now ≡ result.0.now ∷ lines_of result.1.now }
    ensures splits { Splits text.now result.0.now result.1.now }
    ensures feedless { AllByRecursion (λ c. c ≢ 10) result.0.now }
    ensures shorter { length result.1.now < length text.now }
{
    let (line, after) = text.split_at(line_length(text));
    match after {
        [] => (line, after),
        [_, rest @ ..] => (line, rest),
    }
}

// The first line, without its line feed, and the text after it; an empty text has no line.
pub fn next_line(text: &[u8]) -> Option<(&[u8], &[u8])>
    ensures line { MatchOption result (text.now ≡ []) (λ split. split.0.now ≡ first_line text.now) }
    ensures rest { MatchOption result (text.now ≡ []) (λ split. split.1.now ≡ after_line text.now) }
    ensures lines { MatchOption result (lines_of text.now ≡ []) (λ split. lines_of text.now ≡ split.0.now ∷ lines_of split.1.now) }
    ensures splits { MatchOption result (text.now ≡ []) (λ split. Splits text.now split.0.now split.1.now) }
    ensures feedless { MatchOption result (text.now ≡ []) (λ split. AllByRecursion (λ c. c ≢ 10) split.0.now) }
    ensures shorter { MatchOption result (text.now ≡ []) (λ split. length split.1.now < length text.now) }
{
    if text.is_empty() {
        return None;
    }
    Some(split_line(text))
}

// The lines of a text, one after another. The library's `split` would give an empty line after a final line feed, and `split_inclusive`
// would leave each line its feed, to be cut off by a closure in each of the two functions that take lines.
#[derive(Drop)]
pub struct Lines<'a>(pub &'a [u8]);

impl<'a> Iterator for Lines<'a> {
    type Item = &'a [u8];

    ghost next_gives = { YieldsFirstRef (λ left. lines_of left.0.now) };

    ghost remaining = { item_count (λ left. lines_of left.0.now) };

    fn next(&mut self) -> Option<&'a [u8]> {
        let (line, rest) = next_line(self.0)?;
        self.0 = rest;
        Some(line)
    }
}
