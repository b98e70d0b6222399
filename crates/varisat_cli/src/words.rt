//! What the words of a command line ask for.

ghost use Rattle.std.specs.Prelude.{◌≡◌, MatchBool};

use crate::help::{CHECK_HELP, HELP, SESSION_HELP, SOLVE_HELP, VERSION};
use varisat::line::parse_number;
use varisat::program::SolveOptions;
use varisat::proof::ProofFormat;
use varisat_solve::program::{ModelLines, ProgramOptions, Simplification};
use varisat_words::amounts::{BYTES, COUNTS, parse_amount};
use varisat_words::mistakes::{Mistake, is_among, is_option, nearest};

// What FILE is called where the formula comes on standard input.
pub const STANDARD_INPUT: &str = "-";

// What a command line asks for.
#[derive(Clone, Copy)]
pub enum Asked<'a> {
    // A text of the program itself.
    Text(&'static str),
    // Calls of a solver, line by line.
    Session,
    // To decide the text in a file.
    Solve(&'a str, SolveWords<'a>),
    // To check the proof in a file against the text in another.
    Check(CheckWords<'a>),
}

// Reads the words. Where the first one is no command, but names a file, the formula in it is to be decided.
pub fn asked_by<'a>(words: &'a [String], is_file: bool) -> Result<Asked<'a>, Mistake<'a>> {
    let Some((command, operands)) = words.split_first() else {
        return Err(Mistake::NoCommand);
    };
    let command = command.as_str();
    if let Some(text) = help_of(command, operands) {
        return Ok(Asked::Text(text));
    }
    match command {
        "session" => session_words(operands),
        "solve" => solve_words(operands),
        "check" => check_words(operands),
        _ if is_file => file_words(command, operands),
        _ => Err(Mistake::NoSuchCommand(command)),
    }
}

// The text that the words ask for, if they ask for one: on the whole program, or on a command whose name they begin with.
fn help_of(command: &str, operands: &[String]) -> Option<&'static str> {
    let Some((operand, others)) = operands.split_first() else {
        return match command {
            "--help" | "-h" => Some(HELP),
            "--version" | "-V" => Some(VERSION),
            _ => None,
        };
    };
    if !others.is_empty() || !matches!(operand.as_str(), "--help" | "-h") {
        return None;
    }
    match command {
        "solve" => Some(SOLVE_HELP),
        "check" => Some(CHECK_HELP),
        "session" => Some(SESSION_HELP),
        _ => None,
    }
}

// Reads the words behind `session`, of which there are none.
fn session_words(operands: &[String]) -> Result<Asked<'_>, Mistake<'_>> {
    match operands.split_first() {
        None => Ok(Asked::Session),
        Some((word, _)) => Err(Mistake::WordTooMany(word.as_str())),
    }
}

// Reads the words behind `solve`. The first one is FILE, whatever it is called, if the others are options; else FILE is the
// word that is none.
fn solve_words(operands: &[String]) -> Result<Asked<'_>, Mistake<'_>> {
    let Some((first, others)) = operands.split_first() else {
        return Err(Mistake::NoFile("FILE"));
    };
    let mut found = SolveWords::new(Some(first.as_str()), false);
    match found.read(others) {
        Err(_) if is_option(first.as_str()) => {
            let mut found = SolveWords::new(None, false);
            found.read(operands)?;
            found.asked()
        }
        Err(mistake) => Err(mistake),
        Ok(()) => found.asked(),
    }
}

// Reads the words behind a file that stands in the place of a command. One that is no option is the file of a proof.
fn file_words<'a>(cnf: &'a str, others: &'a [String]) -> Result<Asked<'a>, Mistake<'a>> {
    let mut found = SolveWords::new(Some(cnf), true);
    found.read(others)?;
    found.asked()
}

// After how many steps each `--progress` reports how far the search is.
const PROGRESS_INTERVAL: u64 = 10_000;

// The least heap that a solver can be given, in bytes.
const LEAST_HEAP: u64 = 4096;

// The options of `solve` that stand alone, and those that have a value.
const SOLVE_FLAGS: [&str; 8] = [
    "--binary",
    "--marked",
    "--check",
    "--progress",
    "--statistics",
    "--simplify",
    "--no-simplify",
    "--wrap",
];

const SHORT_FLAGS: [&str; 3] = ["-q", "-n", "-v"];

const SOLVE_VALUES: [&str; 4] = ["--proof", "--output", "--max-steps", "--heap"];

const SHORT_VALUES: [&str; 1] = ["-t"];

// The files and options of `solve`: where the formula is, where a proof goes and where the verdict, whether the proof is
// binary or marked, whether the search is checked, whether it is reported how far it is, or nothing is, whether it is counted
// and timed, whether a model is not to be printed, or in short lines, whether the formula is simplified, limits of steps and of
// seconds of CPU time, and the size of the solver's heap.
#[derive(Clone, Copy)]
pub struct SolveWords<'a> {
    cnf: Option<&'a str>,
    pub proof: Option<&'a str>,
    pub output: Option<&'a str>,
    takes_proof: bool,
    is_binary: bool,
    is_marked: bool,
    is_checked: bool,
    is_shown: bool,
    is_quiet: bool,
    pub is_counted: bool,
    hides_model: bool,
    is_wrapped: bool,
    simplification: Option<Simplification>,
    max_steps: Option<u64>,
    max_seconds: Option<u64>,
    pub heap: Option<usize>,
}

impl<'a> SolveWords<'a> {
    // No option, and a file if one is known. A second one may be that of a proof.
    fn new(cnf: Option<&'a str>, takes_proof: bool) -> SolveWords<'a> {
        SolveWords {
            cnf,
            proof: None,
            output: None,
            takes_proof,
            is_binary: false,
            is_marked: false,
            is_checked: false,
            is_shown: false,
            is_quiet: false,
            is_counted: false,
            hides_model: false,
            is_wrapped: false,
            simplification: None,
            max_steps: None,
            max_seconds: None,
            heap: None,
        }
    }

    // Takes files and options, in any order, each at most once.
    fn read(&mut self, words: &'a [String]) -> Result<(), Mistake<'a>> {
        // The option whose value comes next.
        let mut option: Option<&str> = None;
        for word in words {
            let word = word.as_str();
            match option {
                Some(name) => {
                    self.set(name, word)?;
                    option = None;
                }
                None if has_value(word) => option = Some(word),
                None => self.take(word)?,
            }
        }
        match option {
            Some(name) => Err(Mistake::NoValue(name)),
            None => self.refuse_contradiction(),
        }
    }

    // Takes a word that is not the value of the one before it.
    fn take(&mut self, word: &'a str) -> Result<(), Mistake<'a>> {
        if let Some((name, value)) = word.split_once('=') {
            if has_value(name) {
                return self.set(name, value);
            }
        }
        if is_option(word) {
            self.set_flag(word)
        } else if self.cnf.is_none() {
            self.cnf = Some(word);
            Ok(())
        } else if self.takes_proof && self.proof.is_none() {
            self.proof = Some(word);
            Ok(())
        } else {
            Err(Mistake::WordTooMany(word))
        }
    }

    // Takes an option that stands alone.
    fn set_flag(&mut self, option: &'a str) -> Result<(), Mistake<'a>> {
        match option {
            "--binary" if !self.is_binary => self.is_binary = true,
            "--marked" if !self.is_marked => self.is_marked = true,
            "--check" if !self.is_checked => self.is_checked = true,
            "--progress" if !self.is_shown => self.is_shown = true,
            "-q" if !self.is_quiet => self.is_quiet = true,
            "-n" if !self.hides_model => self.hides_model = true,
            "-v" | "--statistics" if !self.is_counted => self.is_counted = true,
            "--wrap" if !self.is_wrapped => self.is_wrapped = true,
            "--simplify" if self.simplification.is_none() => {
                self.simplification = Some(Simplification::Always);
            }
            "--no-simplify" if self.simplification.is_none() => {
                self.simplification = Some(Simplification::Never);
            }
            _ if is_among(option, &SOLVE_FLAGS) || is_among(option, &SHORT_FLAGS) => {
                return Err(Mistake::Excluded(option));
            }
            _ => return Err(Mistake::NoSuchOption(option, near_solve_option(option))),
        }
        Ok(())
    }

    // Takes an option with its value.
    fn set(&mut self, option: &'a str, value: &'a str) -> Result<(), Mistake<'a>> {
        match option {
            "--proof" if self.proof.is_none() => self.proof = Some(value),
            "--output" if self.output.is_none() => self.output = Some(value),
            "--max-steps" if self.max_steps.is_none() => match parse_amount(value, COUNTS) {
                Some(steps) => self.max_steps = Some(steps),
                None => return Err(Mistake::WrongValue(option, value)),
            },
            "-t" if self.max_seconds.is_none() => match parse_number(value.as_bytes()) {
                Some(seconds) => self.max_seconds = Some(seconds),
                None => return Err(Mistake::WrongValue(option, value)),
            },
            "--heap" if self.heap.is_none() => match heap_size(value) {
                Some(bytes) => self.heap = Some(bytes),
                None => return Err(Mistake::WrongValue(option, value)),
            },
            _ => return Err(Mistake::Excluded(option)),
        }
        Ok(())
    }

    // Refuses options that exclude each other, and a format of a proof that is not asked for.
    fn refuse_contradiction(&self) -> Result<(), Mistake<'a>> {
        let is_simplified = matches!(self.simplification, Some(Simplification::Always));
        if self.is_marked && (self.is_binary || is_simplified) {
            return Err(Mistake::Excluded("--marked"));
        }
        if (self.is_binary || self.is_marked) && self.proof.is_none() {
            return Err(Mistake::NoValue("--proof"));
        }
        if self.is_quiet && (self.is_shown || self.is_counted) {
            return Err(Mistake::Excluded("-q"));
        }
        Ok(())
    }

    // What they ask for, if they name a file.
    fn asked(&self) -> Result<Asked<'a>, Mistake<'a>> {
        match self.cnf {
            Some(cnf) => Ok(Asked::Solve(cnf, *self)),
            None => Err(Mistake::NoFile("FILE")),
        }
    }

    // What they ask of the command.
    pub fn options(&self) -> ProgramOptions {
        ProgramOptions {
            search: SolveOptions {
                check: self.is_checked,
                max_steps: self.max_steps,
                progress: self.is_shown.then_some(PROGRESS_INTERVAL),
                format: proof_format(self.is_binary, self.is_marked),
            },
            simplification: self.simplification.unwrap_or(Simplification::IfLong),
            counts: self.is_counted,
            model_lines: model_lines(self.hides_model, self.is_wrapped),
            max_seconds: self.max_seconds,
        }
    }
}

// How a model is printed: no line tells it where it is hidden.
fn model_lines(is_hidden: bool, is_wrapped: bool) -> ModelLines
    ensures { MatchBool is_hidden (result ≡ ModelLines.Hidden)
        (MatchBool is_wrapped (result ≡ ModelLines.Wrapped) (result ≡ ModelLines.One)) }
{
    if is_hidden {
        ModelLines::Hidden
    } else if is_wrapped {
        ModelLines::Wrapped
    } else {
        ModelLines::One
    }
}

// Whether the option of `solve` is one that has a value.
fn has_value(option: &str) -> bool {
    is_among(option, &SOLVE_VALUES) || is_among(option, &SHORT_VALUES)
}

// The option of `solve` that a word may have meant.
fn near_solve_option(word: &str) -> Option<&'static str> {
    nearest(word, &SOLVE_FLAGS).or(nearest(word, &SOLVE_VALUES))
}

// The size of a heap, unless it is too small.
fn heap_size(value: &str) -> Option<usize> {
    match parse_amount(value, BYTES) {
        Some(bytes) if bytes >= LEAST_HEAP => usize::try_from(bytes).ok(),
        _ => None,
    }
}

// How a proof is written; not both are asked for.
fn proof_format(is_binary: bool, is_marked: bool) -> ProofFormat
    ensures { MatchBool is_binary (result ≡ ProofFormat.BinaryDrat)
        (MatchBool is_marked (result ≡ ProofFormat.Marked) (result ≡ ProofFormat.Drat)) }
{
    if is_binary {
        ProofFormat::BinaryDrat
    } else if is_marked {
        ProofFormat::Marked
    } else {
        ProofFormat::Drat
    }
}

// The option by which `check` takes lines of solvers that simplify.
const DRAT_OPTION: &str = "--drat";

// The option that gives `check` a heap of a size that follows.
const HEAP_OPTION: &str = "--heap";

// The options of `check`.
const CHECK_OPTIONS: [&str; 4] = ["--drat", "--binary", "--marked", "--heap"];

// What `check` is asked for: two files, how the proof is written, whether its lines may be those of solvers that simplify,
// and the size of the checker's heap.
#[derive(Clone, Copy)]
pub struct CheckWords<'a> {
    pub cnf: &'a str,
    pub proof: &'a str,
    // How many of both files are known.
    files: u8,
    pub format: ProofFormat,
    pub is_drat: bool,
    pub heap: Option<usize>,
}

// Reads the words behind `check`. The first two are the files, whatever they are called, if the others are options; else the
// files are the words that are none. `--drat` may come first in either case.
fn check_words(words: &[String]) -> Result<Asked<'_>, Mistake<'_>> {
    if let Some(found) = check_words_behind(words) {
        return Ok(Asked::Check(found));
    }
    let mut found = CheckWords::new(false);
    found.read(words)?;
    if found.files < 2 {
        return Err(Mistake::NoFile("CNF or PROOF"));
    }
    Ok(Asked::Check(found))
}

// Reads words of which the first two are the files.
fn check_words_behind(words: &[String]) -> Option<CheckWords<'_>> {
    let (first, behind) = words.split_first()?;
    let is_first = first.as_str() == DRAT_OPTION;
    let operands = if is_first { behind } else { words };
    let (cnf, others) = operands.split_first()?;
    let (proof, options) = others.split_first()?;
    let mut found = CheckWords::new(is_first);
    found.take_file(cnf.as_str()).ok()?;
    found.take_file(proof.as_str()).ok()?;
    found.read(options).ok()?;
    Some(found)
}

impl<'a> CheckWords<'a> {
    // No file, and no option but for one.
    fn new(is_drat: bool) -> CheckWords<'a> {
        CheckWords {
            cnf: "",
            proof: "",
            files: 0,
            format: ProofFormat::Drat,
            is_drat,
            heap: None,
        }
    }

    // Takes files and options, in any order, each option at most once.
    fn read(&mut self, words: &'a [String]) -> Result<(), Mistake<'a>> {
        let mut has_value = true;
        for word in words {
            let word = word.as_str();
            if !has_value {
                self.set_heap(word)?;
                has_value = true;
            } else if word == HEAP_OPTION {
                has_value = false;
            } else {
                self.take(word)?;
            }
        }
        if has_value {
            Ok(())
        } else {
            Err(Mistake::NoValue(HEAP_OPTION))
        }
    }

    // Takes a word that is not the value of the one before it.
    fn take(&mut self, word: &'a str) -> Result<(), Mistake<'a>> {
        if let Some((name, value)) = word.split_once('=') {
            if name == HEAP_OPTION {
                return self.set_heap(value);
            }
        }
        if is_option(word) {
            self.set(word)
        } else {
            self.take_file(word)
        }
    }

    // Takes a file, of which there are two.
    fn take_file(&mut self, word: &'a str) -> Result<(), Mistake<'a>> {
        match self.files {
            0 => self.cnf = word,
            1 => self.proof = word,
            _ => return Err(Mistake::WordTooMany(word)),
        }
        self.files = if self.files == 0 { 1 } else { 2 };
        Ok(())
    }

    // Takes the size of the heap.
    fn set_heap(&mut self, value: &'a str) -> Result<(), Mistake<'a>> {
        if self.heap.is_some() {
            return Err(Mistake::Excluded(HEAP_OPTION));
        }
        match heap_size(value) {
            Some(bytes) => self.heap = Some(bytes),
            None => return Err(Mistake::WrongValue(HEAP_OPTION, value)),
        }
        Ok(())
    }

    // Takes an option that stands alone.
    fn set(&mut self, option: &'a str) -> Result<(), Mistake<'a>> {
        match option {
            DRAT_OPTION if !self.is_drat && self.format != ProofFormat::Marked => {
                self.is_drat = true;
            }
            "--binary" if self.format == ProofFormat::Drat => {
                self.format = ProofFormat::BinaryDrat;
            }
            "--marked" if self.format == ProofFormat::Drat && !self.is_drat => {
                self.format = ProofFormat::Marked;
            }
            _ if is_among(option, &CHECK_OPTIONS) => return Err(Mistake::Excluded(option)),
            _ => return Err(Mistake::NoSuchOption(option, nearest(option, &CHECK_OPTIONS))),
        }
        Ok(())
    }
}
