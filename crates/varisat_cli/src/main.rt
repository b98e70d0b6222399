//! The program: opens what the command line names, and hands it to the command.
#![tactic(auto)]

ghost use Rattle.std.specs.Prelude.{◌≡◌, ◌≢◌, ◌↔◌, ◌⊎◌, ◌-◌, ◌^◌, ◌<◌, IsErr, IfOk, MatchBool, MatchOption};
ghost use Rattle.std.specs.Fs.{file_type, IsDir};
ghost use Rattle.varisat.specs.promises.Decided.{StatusIsTrue};
ghost use Rattle.varisat.specs.promises.Proven.{CanCountFault, taken_by_writer};
ghost use Rattle.varisat_solve.specs.promises.Timing.{SolvesInTime};
ghost use Rattle.varisat_proof.specs.promises.Verified.{GivesUnsatisfiable, EndsDrat, EndsCheck, sources_of, fault_status};

mod help;
mod reasons;
mod words;

use crate::help::print_text;
use crate::reasons::{Reason, reason_of, tell_fault};
use crate::words::{Asked, CheckWords, STANDARD_INPUT, SolveWords, asked_by};
use linked_list_allocator::LocalHeap;
use std::alloc::Allocator;
use std::fmt::Display;
use std::fs::{File, Metadata};
use std::io::{self, BufWriter, ErrorKind, IsTerminal, Read, Write};
use std::os::fd::{AsRawFd, RawFd};
use std::os::unix::fs::{FileTypeExt, MetadataExt};
use std::process::ExitCode;
use std::{env, fs};
use varisat::io::{IoTarget, ProofTarget, ReadSource};
use varisat::program::{
    STATUS_DONE, STATUS_FAULT, check_drat_lines, check_lines, print_fault, print_usage,
    session_lines,
};
use varisat::proof::ProofFormat;
use varisat::solver::SolverError;
use varisat_proof::program::STATUS_NOT_VERIFIED;
use varisat_solve::program::{ProgramOptions, solve_lines};
use varisat_words::mistakes::Mistake;

fn main(rt: HostRuntime) -> ExitCode {
    ExitCode::from(run(&rt))
}

// Runs the command that the arguments name, and gives its status.
fn run(rt: &HostRuntime) -> u8 {
    let mut err = rt.stderr();
    match read_words(rt) {
        Ok(words) => run_words(rt, words.as_slice()),
        Err(error) => print_bad_words(&mut err, &error),
    }
}

// Why the command line cannot be read, where a word has other bytes, as a file may be named by.
const NOT_UTF8: &str = "a word of the command line is not UTF-8";

// Tells why the command line cannot be read, and gives the status for it.
fn print_bad_words<E: Write>(err: &mut E, error: &io::Error) -> u8
    ensures { result ≡ fault_status }
{
    if error.kind() == ErrorKind::InvalidData {
        print_fault(err, &NOT_UTF8)
    } else {
        print_fault(err, error)
    }
}

// The arguments behind the program's name.
fn read_words(rt: &HostRuntime) -> io::Result<Vec<String>> {
    let mut words = Vec::new(rt.alloc());
    for word in env::args(rt)?.skip(1) {
        words.push(word)?;
    }
    Ok(words)
}

// Does what these words ask for.
fn run_words(rt: &HostRuntime, words: &[String]) -> u8 {
    match asked_by(words, is_first_a_file(rt, words)) {
        Ok(Asked::Text(text)) => print(rt, text),
        Ok(Asked::Session) => session(rt),
        Ok(Asked::Solve(cnf, found)) => solve(rt, cnf, &found),
        Ok(Asked::Check(found)) => check(rt, &found),
        Err(mistake) => print_mistake(rt, &mistake),
    }
}

// Whether the first word names standard input, or a file that is there and no folder.
fn is_first_a_file(rt: &HostRuntime, words: &[String]) -> bool {
    let Some(word) = words.first() else {
        return false;
    };
    if word.as_str() == STANDARD_INPUT {
        return true;
    }
    match fs::metadata(rt, word.as_str()) {
        Ok(found) => !found.is_dir(),
        Err(_) => false,
    }
}

// Tells how the program is called, and a person at a terminal first what was wrong. Other programs rely on the one line.
fn print_mistake(rt: &HostRuntime, mistake: &Mistake<'_>) -> u8 {
    let mut err = rt.stderr();
    if err.is_terminal() {
        // A writer that fails here leaves nothing to report.
        let _ = writeln!(err, "error: {mistake}");
    }
    print_usage(&mut err)
}

// Prints a text on standard output.
fn print(rt: &HostRuntime, text: &str) -> u8 {
    let mut err = rt.stderr();
    match print_text(&mut io::writer(rt), text) {
        Ok(()) => STATUS_DONE,
        Err(error) => print_fault(&mut err, &error),
    }
}

// Runs a session on the standard streams.
fn session(rt: &HostRuntime) -> u8 {
    let mut err = rt.stderr();
    match BufWriter::new(rt.alloc(), io::writer(rt)) {
        Ok(mut out) => session_lines(rt.alloc(), rt.reader(), &mut out, &mut err),
        Err(error) => print_fault(&mut err, &error),
    }
}

// A proof, or what is printed, that is written to a file.
type FileTarget = IoTarget<BufWriter<File>>;

// The file that the system has for standard input.
const INPUT_FILE: &str = "/dev/stdin";

// The file that the system has for standard output.
const OUTPUT_FILE: &str = "/dev/stdout";

// Why the file of a proof is neither made nor emptied.
const SAME_FILE: &str = "the formula is in this file, which a proof would overwrite";

const PRINTED_FILE: &str = "what is printed goes to this file, which a proof would overwrite";

// Why the file of the verdict is neither made nor emptied.
const FORMULA_FILE: &str = "the formula is in this file, which the verdict would overwrite";

const PROOF_FILE: &str = "the proof goes to this file, which the verdict would overwrite";

// Decides the formula in a file, or on standard input. It is opened before the file of a proof.
fn solve(rt: &HostRuntime, path: &str, words: &SolveWords<'_>) -> u8 {
    if path == STANDARD_INPUT {
        let found = fs::metadata(rt, INPUT_FILE).ok();
        return solve_from(rt, path, rt.reader(), found, words);
    }
    let mut err = rt.stderr();
    match open_text(rt, path) {
        Ok(cnf) => {
            let found = cnf.metadata().ok();
            solve_from(rt, path, cnf, found, words)
        }
        Err(error) => print_file_fault(&mut err, path, &error),
    }
}

// Decides the formula that a reader gives, which has this metadata, if they are known.
fn solve_from<R: Read + Drop>(
    rt: &HostRuntime,
    path: &str,
    cnf: R,
    found: Option<Metadata>,
    words: &SolveWords<'_>,
) -> u8 {
    let mut err = rt.stderr();
    let proof_path = words.proof.unwrap_or("");
    if is_written_over(rt, found.as_ref(), words.output) {
        return print_file_fault(&mut err, words.output.unwrap_or(""), &FORMULA_FILE);
    }
    if is_written_over(rt, found.as_ref(), words.proof) {
        return print_file_fault(&mut err, proof_path, &SAME_FILE);
    }
    if is_printed_over(rt, words.proof) {
        return print_file_fault(&mut err, proof_path, &PRINTED_FILE);
    }
    match create_target(rt, words.proof) {
        Ok(mut proof) => decide_from(rt, path, cnf, &mut proof, words),
        Err(error) => print_file_fault(&mut err, proof_path, &error),
    }
}

// Decides the formula that a reader gives, with a proof if there is a target for it, which is made. The verdict goes to a file
// or to standard output.
fn decide_from<R: Read + Drop>(
    rt: &HostRuntime,
    path: &str,
    cnf: R,
    proof: &mut Option<FileTarget>,
    words: &SolveWords<'_>,
) -> u8
    requires { CanCountFault taken_by_writer proof.old }
{
    let mut err = rt.stderr();
    let Some(output) = words.output else {
        return match BufWriter::new(rt.alloc(), io::writer(rt)) {
            Ok(out) => decide_to(rt, path, cnf, proof, words, &mut IoTarget::new(out)),
            Err(error) => print_fault(&mut err, &error),
        };
    };
    if is_proof_written_over(rt, words) {
        return print_file_fault(&mut err, output, &PROOF_FILE);
    }
    match create_file(rt, output) {
        Ok(mut out) => decide_to(rt, path, cnf, proof, words, &mut out),
        Err(error) => print_file_fault(&mut err, output, &error),
    }
}

// Decides the formula that a reader gives, with a proof if there is a target for it, and prints the verdict to the target.
fn decide_to<R: Read + Drop, T: ProofTarget>(
    rt: &HostRuntime,
    path: &str,
    cnf: R,
    proof: &mut Option<FileTarget>,
    words: &SolveWords<'_>,
    out: &mut T,
) -> u8
    requires room { CanCountFault taken_by_writer proof.old }
    requires out_faults { (T.taken out.old).faults < 2 ^ 64 - 1 }
{
    let mut err = rt.stderr();
    let status = decide_in_heap(
        rt,
        words.heap,
        path,
        &mut ReadSource::new(cnf),
        proof,
        words.options(),
        out,
        &mut err,
    );
    if words.is_counted {
        // Where the system or the writer fails there is nothing to report.
        let _ = tell_memory(rt, &mut err);
    }
    status
}

// The file in which the system tells of this process.
const PROCESS_FILE: &str = "/proc/self/status";

// Tells how much memory the process had at most, in units of 1024 bytes.
fn tell_memory<E: Write>(rt: &HostRuntime, err: &mut E) -> io::Result<()> {
    let text = fs::read_to_string(rt, PROCESS_FILE)?;
    for line in text.lines() {
        if let Some(size) = line.strip_prefix("VmHWM:") {
            let kilobytes = size.trim().trim_end_matches(" kB");
            writeln!(err, "c {:<22} {kilobytes:>14}", "memory_kilobytes")?;
        }
    }
    Ok(())
}

// Whether a file would be written over the one that has this metadata, under whatever name.
fn is_written_over(rt: &HostRuntime, other: Option<&Metadata>, path: Option<&str>) -> bool {
    let (Some(other), Some(path)) = (other, path) else {
        return false;
    };
    match fs::metadata(rt, path) {
        Ok(found) => is_same_file(other, &found),
        Err(_) => false,
    }
}

// Whether the verdict would be written over the proof, whose file is there.
fn is_proof_written_over(rt: &HostRuntime, words: &SolveWords<'_>) -> bool {
    let Some(path) = words.proof else {
        return false;
    };
    match fs::metadata(rt, path) {
        Ok(proof) => is_written_over(rt, Some(&proof), words.output),
        Err(_) => false,
    }
}

// Whether a proof would be written over the file to which standard output goes. A terminal or a pipe takes both.
fn is_printed_over(rt: &HostRuntime, proof: Option<&str>) -> bool {
    match fs::metadata(rt, OUTPUT_FILE) {
        Ok(printed) => printed.is_file() && is_written_over(rt, Some(&printed), proof),
        Err(_) => false,
    }
}

// Whether both are of one file. A device that takes characters keeps none, and does not count.
fn is_same_file(first: &Metadata, second: &Metadata) -> bool {
    !first.file_type().is_char_device()
        && first.dev() == second.dev()
        && first.ino() == second.ino()
}

// Makes the file of a proof, or empties the one that is there, if a proof is wanted.
fn create_target(rt: &HostRuntime, path: Option<&str>) -> io::Result<Option<FileTarget>>
    ensures room { IfOk result (λ proof. CanCountFault taken_by_writer proof) }
    ensures wanted { IfOk result (λ proof. MatchOption path.entry (proof ≡ None) (λ _. proof ≢ None)) }
{
    match path {
        Some(path) => Ok(Some(create_file(rt, path)?)),
        None => Ok(None),
    }
}

// Makes the file, or empties the one that is there.
fn create_file(rt: &HostRuntime, path: &str) -> io::Result<FileTarget>
    ensures { IfOk result (λ target. (taken_by_writer target).faults < 2 ^ 64 - 1) }
{
    let file = fs::create(rt, path)?;
    refuse_stream(file.as_raw_fd())?;
    let target = IoTarget::new(BufWriter::new(rt.alloc(), file)?);
    Ok(target)
}

// The number that the system has for standard error, the last of the standard streams.
const LAST_STREAM: RawFd = 2;

// Returns an error just for a file that stands where a standard stream was closed: what is printed would go to it.
fn refuse_stream(number: RawFd) -> io::Result<()> {
    if number <= LAST_STREAM {
        return Err(io::Error::other("a standard stream is closed"));
    }
    Ok(())
}

// Decides the text that a reader gives, with a proof if there is a target for it. All that the solver has is a heap of the
// size that is given, if one is. Nobody knows a file's bytes beforehand, but the status and the proof are right for those
// that were read.
fn decide_in_heap<R: Read + Drop, T: ProofTarget, E: Write>(
    rt: &HostRuntime,
    heap: Option<usize>,
    path: &str,
    cnf: &mut ReadSource<R>,
    proof: &mut Option<FileTarget>,
    options: ProgramOptions,
    out: &mut T,
    err: &mut E,
) -> u8
    requires faults { cnf.old.faults < 2 ^ 64 - 1 }
    requires room { CanCountFault taken_by_writer proof.old }
    requires out_faults { (T.taken out.old).faults < 2 ^ 64 - 1 }
    ensures truth { StatusIsTrue cnf.old cnf.new result }
    ensures outcome { SolvesInTime taken_by_writer options cnf.old cnf.new proof.old proof.new
        (T.taken out.old) (T.taken out.new) result
        ⊎ ((result ≡ fault_status) × (T.taken out.new ≡ T.taken out.old)) }
{
    match heap {
        None => solve_lines(rt.alloc(), path, cnf, proof, options, rt, out, err),
        Some(size) => match LocalHeap::new(rt.alloc(), size) {
            Ok(heap) => solve_lines(&heap, path, cnf, proof, options, rt, out, err),
            Err(_) => print_fault(err, &SolverError::OutOfMemory),
        },
    }
}

// Checks the proof in a file against the formula in another, or on standard input.
fn check(rt: &HostRuntime, words: &CheckWords<'_>) -> u8 {
    if words.cnf == STANDARD_INPUT {
        return check_from(rt, rt.reader(), words);
    }
    let mut err = rt.stderr();
    match open_text(rt, words.cnf) {
        Ok(cnf) => check_from(rt, cnf, words),
        Err(error) => print_file_fault(&mut err, words.cnf, &error),
    }
}

// Checks the proof in a file against the formula that a reader gives.
fn check_from<R: Read + Drop>(rt: &HostRuntime, cnf: R, words: &CheckWords<'_>) -> u8 {
    let mut err = rt.stderr();
    let proof = match open_text(rt, words.proof) {
        Ok(proof) => proof,
        Err(error) => return print_file_fault(&mut err, words.proof, &error),
    };
    let format = match found_format(rt, words) {
        Ok(format) => format,
        Err(error) => return print_file_fault(&mut err, words.proof, &error),
    };
    let (mut cnf, mut proof) = (ReadSource::new(cnf), ReadSource::new(proof));
    match BufWriter::new(rt.alloc(), io::writer(rt)) {
        Ok(out) => {
            let mut out = IoTarget::new(out);
            let heap = words.heap;
            let status = if words.is_drat {
                check_drat_texts(rt, heap, &mut cnf, &mut proof, format, &mut out, &mut err)
            } else {
                check_texts(rt, heap, &mut cnf, &mut proof, format, &mut out, &mut err)
            };
            let _ = explain_in_heap(rt, words, status);
            status
        }
        Err(error) => print_fault(&mut err, &error),
    }
}

// Tells more of a status, with no other memory than a heap of the size that is given, if one is.
fn explain_in_heap(rt: &HostRuntime, words: &CheckWords<'_>, status: u8) -> io::Result<()> {
    match words.heap {
        None => explain(rt, rt.alloc(), words, status),
        Some(size) => explain(rt, &LocalHeap::new(rt.alloc(), size)?, words, status),
    }
}

// Tells more of a status: the fault of a text in words, or why a proof is not verified, which `--drat` tells anyhow. Files are
// read once more for that, and nothing is told of what comes by a pipe.
fn explain<A: Allocator + Copy>(
    rt: &HostRuntime,
    alloc: A,
    words: &CheckWords<'_>,
    status: u8,
) -> io::Result<()> {
    let is_wrong = status == STATUS_NOT_VERIFIED && !words.is_drat;
    if !is_wrong && status != STATUS_FAULT || !is_kept(rt, words.cnf) {
        return Ok(());
    }
    let mut err = rt.stderr();
    let cnf = open_text(rt, words.cnf)?;
    if !is_wrong {
        tell_fault(alloc, &mut err, words.cnf, cnf);
    } else if is_kept(rt, words.proof) {
        let proof = open_text(rt, words.proof)?;
        if let Some(reason) = reason_of(alloc, cnf, proof, words.format) {
            writeln!(err, "{reason}")?;
            if let Reason::IsNoLine(_) = reason {
                tell_format(rt, words, &mut err)?;
            }
        }
    }
    Ok(())
}

// Whether a name is that of a file that can be read again.
fn is_kept(rt: &HostRuntime, path: &str) -> bool {
    match fs::metadata(rt, path) {
        Ok(found) => found.is_file() && path != STANDARD_INPUT,
        Err(_) => false,
    }
}

// Tells which format a proof seems to have, if that is not the one in which it was read.
fn tell_format<E: Write>(rt: &HostRuntime, words: &CheckWords<'_>, err: &mut E) -> io::Result<()> {
    match (words.format, head_format(rt, words.proof)?) {
        (ProofFormat::BinaryDrat, ProofFormat::Drat) => {
            writeln!(err, "it looks like text, which is read without --binary")
        }
        (ProofFormat::Drat | ProofFormat::Marked, ProofFormat::BinaryDrat) => {
            writeln!(err, "it looks like the binary format, which --binary reads")
        }
        (ProofFormat::Drat, ProofFormat::Marked) => {
            writeln!(err, "it looks like marked text, which --marked reads")
        }
        _ => Ok(()),
    }
}

// How many bytes at the head of a proof tell text from the binary format, as `drat-trim` tells them apart.
const HEAD: usize = 12;

// Whether a byte may stand in a DRAT proof that is text.
fn is_text_byte(byte: u8) -> bool {
    matches!(
        byte,
        b'\n' | b'\r' | b' ' | b'-' | b'0'..=b'9' | b'c' | b'd'
    )
}

// Whether a byte is a mark of a line in marked text.
fn is_mark(byte: u8) -> bool {
    matches!(byte, b'i' | b'q' | b'f')
}

// The format of the proof. With `--drat` and without `--binary` it goes by the first bytes, if the file can be read twice.
fn found_format(rt: &HostRuntime, words: &CheckWords<'_>) -> io::Result<ProofFormat> {
    if !words.is_drat || words.format != ProofFormat::Drat {
        return Ok(words.format);
    }
    match head_format(rt, words.proof)? {
        ProofFormat::Drat => Ok(ProofFormat::Drat),
        ProofFormat::BinaryDrat | ProofFormat::Marked => Ok(ProofFormat::BinaryDrat),
    }
}

// The format that the first bytes of a file seem to have; text, if it cannot be read twice.
fn head_format(rt: &HostRuntime, path: &str) -> io::Result<ProofFormat> {
    let mut file = open_text(rt, path)?;
    if !file.metadata()?.is_file() {
        return Ok(ProofFormat::Drat);
    }
    let mut head = [0; HEAD];
    let size = file.read(&mut head)?;
    let mut found = ProofFormat::Drat;
    for byte in &head[..size] {
        if is_mark(*byte) {
            found = ProofFormat::Marked;
        } else if !is_text_byte(*byte) {
            return Ok(ProofFormat::BinaryDrat);
        }
    }
    Ok(found)
}

// Checks the proof that a file gives, whose lines may be those of solvers that simplify. The status is 0 only where no
// assignment satisfies the clauses of the text that was read. All that the checker has is a heap of the size that is given, if
// one is.
fn check_drat_texts<R: Read + Drop, T: ProofTarget, E: Write>(
    rt: &HostRuntime,
    heap: Option<usize>,
    cnf: &mut ReadSource<R>,
    proof: &mut ReadSource<File>,
    format: ProofFormat,
    out: &mut T,
    err: &mut E,
) -> u8
    requires cnf_faults { cnf.old.faults < 2 ^ 64 - 1 }
    requires proof_faults { proof.old.faults < 2 ^ 64 - 1 }
    requires out_faults { (T.taken out.old).faults < 2 ^ 64 - 1 }
    ensures outcome { EndsDrat format (sources_of cnf.old proof.old) (sources_of cnf.new proof.new)
        result (T.taken out.old) (T.taken out.new)
        ⊎ ((result ≡ fault_status) × (T.taken out.new ≡ T.taken out.old)) }
    ensures truth { result ≡ 0 → GivesUnsatisfiable cnf.old cnf.new }
{
    match heap {
        None => check_drat_lines(rt.alloc(), cnf, proof, format, out, err),
        Some(size) => match LocalHeap::new(rt.alloc(), size) {
            Ok(heap) => check_drat_lines(&heap, cnf, proof, format, out, err),
            Err(_) => print_fault(err, &SolverError::OutOfMemory),
        },
    }
}

// Checks the proof that a file gives. The status is 0 only where no assignment satisfies the clauses of the text that
// was read. All that the checker has is a heap of the size that is given, if one is.
fn check_texts<R: Read + Drop, T: ProofTarget, E: Write>(
    rt: &HostRuntime,
    heap: Option<usize>,
    cnf: &mut ReadSource<R>,
    proof: &mut ReadSource<File>,
    format: ProofFormat,
    out: &mut T,
    err: &mut E,
) -> u8
    requires cnf_faults { cnf.old.faults < 2 ^ 64 - 1 }
    requires proof_faults { proof.old.faults < 2 ^ 64 - 1 }
    requires out_faults { (T.taken out.old).faults < 2 ^ 64 - 1 }
    ensures outcome { EndsCheck format (sources_of cnf.old proof.old) (sources_of cnf.new proof.new)
        result (T.taken out.old) (T.taken out.new)
        ⊎ ((result ≡ fault_status) × (T.taken out.new ≡ T.taken out.old)) }
    ensures truth { result ≡ 0 → GivesUnsatisfiable cnf.old cnf.new }
{
    match heap {
        None => check_lines(rt.alloc(), cnf, proof, format, out, err),
        Some(size) => match LocalHeap::new(rt.alloc(), size) {
            Ok(heap) => check_lines(&heap, cnf, proof, format, out, err),
            Err(_) => print_fault(err, &SolverError::OutOfMemory),
        },
    }
}

// Opens a file for reading, unless it is a folder: that would open, and only fail when it is read.
fn open_text(rt: &HostRuntime, path: &str) -> io::Result<File> {
    let file = fs::open(rt, path)?;
    refuse_folder(&file.metadata()?)?;
    Ok(file)
}

// Returns an error just for a folder.
fn refuse_folder(found: &Metadata) -> io::Result<()>
    ensures { IsErr result ↔ IsDir (file_type found.now) }
{
    if found.is_dir() {
        Err(io::Error::from(ErrorKind::IsADirectory))
    } else {
        Ok(())
    }
}

// Tells why a file cannot be used, and gives the status for it.
fn print_file_fault<E: Write, F: Display>(err: &mut E, path: &str, fault: &F) -> u8
    ensures { result ≡ fault_status }
{
    // A writer that fails here leaves nothing to report.
    let _ = writeln!(err, "error: '{path}': {fault}");
    STATUS_FAULT
}
