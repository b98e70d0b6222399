//! What the words of a command line ask for.

use varisat_words::amounts::{BYTES, COUNTS, parse_amount};
use varisat_words::mistakes::{Mistake, is_among, is_option, nearest};

/// What a command line asks for.
#[derive(Clone, Copy)]
pub enum Asked<'a> {
    /// To tell how the program is called.
    Help,
    /// To tell its version.
    Version,
    /// To solve the problem in a file.
    Solve(&'a str, Options),
}

/// The limits of the search.
#[derive(Clone, Copy)]
pub struct Options {
    /// How many steps all searches together may make, where they are limited.
    pub max_steps: Option<u64>,
    /// The size of the heap that is all the memory of the problem and the search, if it is given one.
    pub heap: Option<usize>,
}

// The options that have a value, and those that ask for a text.
const VALUES: [&str; 2] = ["--max-steps", "--heap"];

const TEXTS: [&str; 4] = ["--help", "-h", "--version", "-V"];

// The least heap that the program can be given, in bytes.
const LEAST_HEAP: u64 = 4096;

/// Reads the words: a file and options, in any order, each at most once.
pub fn asked_by(words: &[String]) -> Result<Asked<'_>, Mistake<'_>> {
    if let [word] = words {
        match word.as_str() {
            "--help" | "-h" => return Ok(Asked::Help),
            "--version" | "-V" => return Ok(Asked::Version),
            _ => {}
        }
    }
    let mut path: Option<&str> = None;
    let mut options = Options {
        max_steps: None,
        heap: None,
    };
    // The option whose value comes next.
    let mut option: Option<&str> = None;
    for word in words {
        let word = word.as_str();
        if let Some(name) = option {
            options.set(name, word)?;
            option = None;
        } else if is_among(word, &VALUES) {
            option = Some(word);
        } else if let Some((name, value)) = value_in(word) {
            options.set(name, value)?;
        } else if is_option(word) {
            return Err(refused(word));
        } else if path.is_none() {
            path = Some(word);
        } else {
            return Err(Mistake::WordTooMany(word));
        }
    }
    match (option, path) {
        (Some(name), _) => Err(Mistake::NoValue(name)),
        (None, None) => Err(Mistake::NoFile("FILE")),
        (None, Some(path)) => Ok(Asked::Solve(path, options)),
    }
}

/// The option and its value, where they are one word.
fn value_in(word: &str) -> Option<(&str, &str)> {
    match word.split_once('=') {
        Some((name, value)) if is_among(name, &VALUES) => Some((name, value)),
        _ => None,
    }
}

/// Why a word that looks like an option is not taken.
fn refused(word: &str) -> Mistake<'_> {
    if is_among(word, &TEXTS) {
        Mistake::Excluded(word)
    } else {
        Mistake::NoSuchOption(word, nearest(word, &VALUES).or(nearest(word, &TEXTS)))
    }
}

impl Options {
    /// Takes an option with its value.
    fn set<'a>(&mut self, option: &'a str, value: &'a str) -> Result<(), Mistake<'a>> {
        match option {
            "--max-steps" if self.max_steps.is_none() => match parse_amount(value, COUNTS) {
                Some(steps) => self.max_steps = Some(steps),
                None => return Err(Mistake::WrongValue(option, value)),
            },
            "--heap" if self.heap.is_none() => match heap_size(value) {
                Some(bytes) => self.heap = Some(bytes),
                None => return Err(Mistake::WrongValue(option, value)),
            },
            _ => return Err(Mistake::Excluded(option)),
        }
        Ok(())
    }
}

/// The size of a heap, unless it is too small.
fn heap_size(value: &str) -> Option<usize> {
    match parse_amount(value, BYTES) {
        Some(bytes) if bytes >= LEAST_HEAP => usize::try_from(bytes).ok(),
        _ => None,
    }
}
