//! The words that lines begin with.
ghost use Rattle.std.specs.Prelude.{◌≡◌};
ghost use Rattle.cert_text.specs.Text.{name};
ghost use Rattle.cert_text.specs.Reading.{Reads, without, word_among, word_at};

/// The first word of a line.
#[derive(Clone, Copy)]
pub enum Word {
    Title,
    Cells,
    Nodes,
    Packs,
    Pack,
    Never,
    Node,
    Claim,
    Bound,
    End,
}

impl Word {
    pub fn name(self) -> &'static [u8]
        ensures { result.now ≡ name self }
    {
        match self {
            Word::Title => b"COBSOUND",
            Word::Cells => b"cells",
            Word::Nodes => b"nodes",
            Word::Packs => b"packs",
            Word::Pack => b"pack",
            Word::Never => b"none",
            Word::Node => b"node",
            Word::Claim => b"c",
            Word::Bound => b"d",
            Word::End => b"end",
        }
    }
}

// What follows the word, where the line begins with it.
fn without(word: Word, line: &[u8]) -> Option<&[u8]>
    ensures { Reads (λ rest. rest.now) result (without (name word) line.now) }
{
    line.strip_prefix(word.name())
}

// Longer words come before their own fronts.
const WORDS: [Word; 10] = [
    Word::Cells,
    Word::Claim,
    Word::Bound,
    Word::Nodes,
    Word::Node,
    Word::Never,
    Word::Packs,
    Word::Pack,
    Word::End,
    Word::Title,
];

// The first of the words that the line begins with, and the bytes after it.
fn word_among<'a>(words: &[Word], line: &'a [u8]) -> Option<(Word, &'a [u8])>
    ensures { Reads (λ x. (x.0, x.1.now)) result (word_among words.now line.now) }
{
    for word in words {
        if let Some(rest) = without(*word, line) {
            return Some((*word, rest));
        }
    }
    None
}

/// The word that a line begins with, and the bytes after it.
#[tactic(auto, unfolding(crate::specs::Reading::all_words))]
pub fn word_at(line: &[u8]) -> Option<(Word, &[u8])>
    ensures { Reads (λ x. (x.0, x.1.now)) result (word_at line.now) }
{
    word_among(&WORDS, line)
}
