//! Why the words of a command line ask for nothing.

ghost use Rattle.std.specs.Prelude.{◌≤◌, length};

use std::fmt;

/// Why the words of a command line ask for nothing.
#[derive(Clone, Copy, Debug)]
pub enum Mistake<'a> {
    /// There are no words.
    NoCommand,
    /// The first word is neither a command nor a file that is there.
    NoSuchCommand(&'a str),
    /// No option is called so. Another one that is called nearly so may be meant.
    NoSuchOption(&'a str, Option<&'static str>),
    /// A file is not named.
    NoFile(&'static str),
    /// A word is neither an option nor a file that is asked for.
    WordTooMany(&'a str),
    /// An option has no value, or another one needs it.
    NoValue(&'a str),
    /// A value is none of the option's.
    WrongValue(&'a str, &'a str),
    /// An option came before, or one that excludes it.
    Excluded(&'a str),
}

impl fmt::Display for Mistake<'_> {
    /// Prints it in words, without a line feed.
    fn fmt<W: fmt::Write>(&self, f: &mut fmt::Formatter<W>) -> fmt::Result {
        match self {
            Mistake::NoCommand => write!(f, "no command and no file is named"),
            Mistake::NoSuchCommand(word) => write!(
                f,
                "{word} is no command, and no such file is there"
            ),
            Mistake::NoSuchOption(word, None) => write!(f, "unknown option {word}"),
            Mistake::NoSuchOption(word, Some(name)) => {
                write!(f, "unknown option {word}; did you mean {name}?")
            }
            Mistake::NoFile(name) => write!(f, "{name} is missing"),
            Mistake::WordTooMany(word) => write!(f, "one word too many: {word}"),
            Mistake::NoValue(name) => write!(f, "{name} needs a value"),
            Mistake::WrongValue(name, value) => write!(f, "{name} does not take {value}"),
            Mistake::Excluded(name) => write!(f, "{name} stands twice, or beside what excludes it"),
        }
    }
}

/// Whether the word is one of these.
pub fn is_among(word: &str, names: &[&str]) -> bool {
    for name in names {
        if *name == word {
            return true;
        }
    }
    false
}

/// Whether a word is an option, where files and options stand in any order: it begins with `-`, and is not `-` alone.
pub fn is_option(word: &str) -> bool {
    word != "-" && word.starts_with('-')
}

// How many letters in a row may be wrong in what was meant for an option.
const MOST_WRONG: usize = 2;

/// The first of the names to which the word is nearest, if it is near.
pub fn nearest(word: &str, names: &[&'static str]) -> Option<&'static str> {
    let mut found: Option<&'static str> = None;
    let mut least = MOST_WRONG + 1;
    for name in names {
        let count = wrong_letters(word.as_bytes(), name.as_bytes());
        if count < least {
            least = count;
            found = Some(*name);
        }
    }
    found
}

/// How many letters are left of the longer one of both without a common beginning, and then without a common end.
fn wrong_letters(word: &[u8], name: &[u8]) -> usize {
    let begin = common_beginning(word, name);
    let (word, name) = (&word[begin..], &name[begin..]);
    let end = common_end(word, name);
    word.len().max(name.len()) - end
}

/// How many letters both begin with.
fn common_beginning(word: &[u8], name: &[u8]) -> usize
    ensures word { result ≤ length word.now }
    ensures name { result ≤ length name.now }
{
    let most = word.len().min(name.len());
    for index in 0..most {
        if word[index] != name[index] {
            return index;
        }
    }
    most
}

/// How many letters both end with.
fn common_end(word: &[u8], name: &[u8]) -> usize
    ensures word { result ≤ length word.now }
    ensures name { result ≤ length name.now }
{
    let most = word.len().min(name.len());
    for index in 0..most {
        if word[word.len() - 1 - index] != name[name.len() - 1 - index] {
            return index;
        }
    }
    most
}
