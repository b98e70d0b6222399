//! The store of clauses: one buffer of words, in which each clause is its header and then its literals.
ghost use Rattle.std.specs.Prelude.{◌≡◌, ℕ, ◌+◌, ◌<◌, ◌≤◌, ◌^◌, ◌++◌, ◌∷◌, [], length, slice_index, ◌↔◌, IsTrue, IfOk, IfErr, OnErr, if◌then◌else◌};
ghost use Rattle.std.specs.List.{swap};
ghost use Rattle.varisat_clause.specs.declared.alloc.StoreError.TheVariants.{Memory};
ghost use Rattle.varisat_clause.specs.Headers.{header_of_words, flags_of};
ghost use Rattle.varisat_clause.specs.Stored.{IsClauseRef, header_at, literals_at, new_clause, shortened};
ghost use Rattle.varisat_clause.specs.Reductions.{rank_in};
ghost use Rattle.varisat_clause.specs.Stores.{Store, no_store, header_in, stored_clauses, IsSound, HoldsClauses, RewritesClauses, RewritesHeaderAt, RewritesLiteralsAt, AddsStored, header_written, TakesLiteralsAt};

use crate::header::ClauseHeader;
use std::alloc::{AllocError, Allocator};
use std::marker::Model;
use thiserror::Error;
use varisat_literals::Lit;

/// How many words a header takes.
const HEADER_LEN: usize = 3;

/// The most words that a store has, so that each offset fits a word.
const MOST_WORDS: usize = 0xffff_ffff;

/// A stored clause, by the offset of its first word. A contract sees the offset.
#[derive(Clone, Copy, Debug, PartialEq, Eq, PartialOrd, Ord)]
pub struct ClauseRef {
    offset: u32,
}

impl Model for ClauseRef {
    ghost Value = { ℕ };

    ghost view = { λ r. r.offset };

    ghost inverse = { λ n. record { offset = n } };

    ghost invariant = { λ r. r.offset < 2 ^ 32 };
}

impl ClauseRef {
    /// The clause whose first word has the offset.
    pub fn from_offset(offset: u32) -> ClauseRef
        ensures { result ≡ offset }
    {
        ClauseRef { offset }
    }

    /// The offset of the clause's first word.
    pub fn offset(self) -> usize
        ensures { result ≡ self }
    {
        self.offset as usize
    }
}

/// Why a clause was not added.
#[derive(Clone, Copy, Debug, PartialEq, Eq, Error)]
pub enum StoreError {
    #[error("the clause store is full")]
    Full,
    #[error("out of memory")]
    Memory,
}

impl From<AllocError> for StoreError {
    ghost from_gives = { λ _ e. e ≡ Memory };

    fn from(_error: AllocError) -> StoreError {
        StoreError::Memory
    }
}

/// The clauses, in the order of adding, also those that are deleted. A contract sees the words and the places.
#[derive(Drop)]
pub struct ClauseAlloc<A: Allocator + Copy> {
    buffer: Vec<Lit, A>,
    places: Vec<ClauseRef, A>,
}

impl<A: Allocator + Copy> Model for ClauseAlloc<A> {
    ghost Value = { Store };

    ghost view = { λ s. record { words = s.buffer.items; places = s.places.items } };
}

/// The word at the index.
fn word(words: &[Lit], index: usize) -> u32
    requires { index < length words.now }
    ensures { result ≡ slice_index words.now index }
{
    words[index].code() as u32
}

/// The header that begins at the place.
fn read_header(words: &[Lit], place: usize) -> ClauseHeader
    requires words { place + 2 < length words.now }
    requires flags { slice_index words.now (place + 1) < 2 ^ 11 }
    ensures { result ≡ header_in words.now place }
{
    ClauseHeader::from_words(
        word(words, place),
        word(words, place + 1),
        word(words, place + 2),
    )
}

/// Writes the header to the words from the place on.
fn write_header(words: &mut [Lit], place: usize, header: ClauseHeader)
    requires { place + 2 < length words.old }
    ensures words { words.new ≡ header_written words.old place header }
    ensures flags { flags_of header < 2 ^ 11 }
    ensures back { header_of_words header.activity (flags_of header) header.len ≡ header }
{
    let [activity, flags, len] = header.words();
    words[place] = Lit::from_code(activity as usize);
    words[place + 1] = Lit::from_code(flags as usize);
    words[place + 2] = Lit::from_code(len as usize);
}

/// Appends the header and the literals. Says whether there was memory for it; where not, nothing is changed.
fn append<A: Allocator + Copy>(buffer: &mut Vec<Lit, A>, header: ClauseHeader, lits: &[Lit]) -> bool
    requires { length lits.now < 2 ^ 32 }
    ensures items { buffer.new.items ≡ (if result then buffer.old.items
        ++ (header.activity ∷ flags_of header ∷ length lits.now ∷ lits.now) else buffer.old.items) }
    ensures flags { flags_of header < 2 ^ 11 }
    ensures back { header_of_words header.activity (flags_of header) header.len ≡ header }
{
    let len = buffer.len();
    let [activity, flags, _] = header.words();
    let words = [
        Lit::from_code(activity as usize),
        Lit::from_code(flags as usize),
        Lit::from_code(lits.len()),
    ];
    let done = buffer.extend_from_slice(&words).is_ok() && buffer.extend_from_slice(lits).is_ok();
    if !done {
        buffer.truncate(len);
    }
    done
}

impl<A: Allocator + Copy> ClauseAlloc<A> {
    ghost use Rattle.std.specs.Borrow.{sem};
    ghost use Rattle.varisat_clause.specs.Lending.{lends_literals};

    /// No clauses. It takes no memory.
    pub fn new_in(alloc: A) -> ClauseAlloc<A>
        ensures empty { result ≡ no_store }
        ensures sound { HoldsClauses result 0 [] }
    {
        ClauseAlloc {
            buffer: Vec::new(alloc),
            places: Vec::new(alloc),
        }
    }

    /// No clauses, and memory for as many words.
    pub fn with_capacity(alloc: A, words: usize) -> Result<ClauseAlloc<A>, AllocError>
        ensures empty { IfOk result (λ store. store ≡ no_store) }
        ensures sound { IfOk result (λ store. HoldsClauses store 0 []) }
    {
        let buffer = Vec::with_capacity(alloc, words)?;
        Ok(ClauseAlloc {
            buffer,
            places: Vec::new(alloc),
        })
    }

    /// The allocator of the words.
    pub(crate) fn allocator(&self) -> A {
        *self.buffer.allocator()
    }

    /// How many words there are, those of deleted clauses and gaps among them.
    pub fn buffer_size(&self) -> usize
        ensures { result ≡ length self.now.words }
    {
        self.buffer.len()
    }

    /// How many clauses there are, also deleted ones.
    pub fn len(&self) -> usize
        ensures count { result ≡ length (stored_clauses self.now) }
        ensures places { result ≡ length self.now.places }
    {
        self.places.len()
    }

    /// The clause of the index, in the order of places.
    pub fn place(&self, index: usize) -> ClauseRef
        requires { index < length self.now.places }
        ensures place { result ≡ slice_index self.now.places index }
        ensures known { IsClauseRef (stored_clauses self.now) result }
    {
        self.places[index]
    }

    /// Whether a clause of so many literals fits, so that the words are at most 2^32 - 1.
    pub fn has_room(&self, count: usize) -> bool
        ensures { IsTrue result ↔ (length self.now.words + 3 + count < 2 ^ 32) }
    {
        let words = self.buffer.len();
        count <= MOST_WORDS - HEADER_LEN
            && words <= MOST_WORDS - HEADER_LEN
            && words <= MOST_WORDS - HEADER_LEN - count
    }

    /// Adds a clause of three or more literals behind the others. Its header's length is set. `Full` where the words
    /// would be more than 2^32 - 1, and `Memory` where it is out of memory; nothing is changed then.
    pub fn add_clause(
        &mut self,
        header: ClauseHeader,
        lits: &[Lit],
    ) -> Result<ClauseRef, StoreError>
        requires long { 3 ≤ length lits.now }
        requires sound { IsSound self.old }
        ensures added { IfOk result (λ cref. AddsStored self.old self.new (new_clause cref header lits.now)) }
        ensures room { IfOk result (λ cref. length self.old.words + 3 + length lits.now < 2 ^ 32) }
        ensures full { IfErr result
            (λ error. (error ≡ StoreError.Full) ↔ (2 ^ 32 ≤ length self.old.words + 3 + length lits.now)) }
        ensures refused { OnErr result (self.new ≡ self.old) }
    {
        if !self.has_room(lits.len()) {
            return Err(StoreError::Full);
        }
        let offset = self.buffer.len();
        let cref = ClauseRef {
            offset: offset as u32,
        };
        if self.places.push(cref).is_err() {
            return Err(StoreError::Memory);
        }
        if !append(&mut self.buffer, header, lits) {
            self.places.truncate(self.places.len() - 1);
            return Err(StoreError::Memory);
        }
        Ok(cref)
    }

    /// The header of the clause.
    pub fn header(&self, cref: ClauseRef) -> ClauseHeader
        requires sound { IsSound self.now }
        requires place { IsClauseRef (stored_clauses self.now) cref }
        ensures { result ≡ header_at (stored_clauses self.now) cref }
    {
        read_header(&self.buffer, cref.offset as usize)
    }

    /// A number that orders clauses by activity and then by place.
    pub(crate) fn rank(&self, cref: ClauseRef) -> u64
        ensures { result ≡ rank_in self.now.words cref }
    {
        let activity = match self.buffer.get(cref.offset as usize) {
            Some(word) => word.code(),
            None => 0,
        };
        activity as u64 * (1 << 32) + cref.offset as u64
    }

    /// The literals of the clause.
    pub fn lits(&self, cref: ClauseRef) -> &[Lit]
        requires sound { IsSound self.now }
        requires place { IsClauseRef (stored_clauses self.now) cref }
        ensures { result.now ≡ literals_at (stored_clauses self.now) cref }
    {
        let begin = cref.offset as usize + HEADER_LEN;
        let len = word(&self.buffer, cref.offset as usize + 2) as usize;
        &self.buffer[begin..begin + len]
    }

    /// The literals of the clause, to be changed.
    pub fn lits_mut(&mut self, cref: ClauseRef) -> &mut [Lit]
        requires sound { IsSound self.old }
        requires place { IsClauseRef (stored_clauses self.old) cref }
        ensures* lends { sem 𝓛 (lends_literals A.row A.Allocator self.entry cref result) }
        ensures value { result.now ≡ literals_at (stored_clauses self.old) cref }
        ensures alone { TakesLiteralsAt self.old cref (length result.now) }
    {
        let begin = cref.offset as usize + HEADER_LEN;
        let len = word(&self.buffer, cref.offset as usize + 2) as usize;
        self.buffer.slice_mut(begin..begin + len)
    }

    /// Replaces the header of the clause by one of the same length.
    pub fn set_header(&mut self, cref: ClauseRef, header: ClauseHeader)
        requires sound { IsSound self.old }
        requires place { IsClauseRef (stored_clauses self.old) cref }
        requires length { header.len ≡ (header_at (stored_clauses self.old) cref).len }
        ensures { RewritesHeaderAt self.old self.new cref (λ _. header) }
    {
        write_header(&mut self.buffer, cref.offset as usize, header);
    }

    /// Drops the last literals of the clause, so that as many are left. It leaves a gap.
    pub fn shorten(&mut self, cref: ClauseRef, count: usize)
        requires sound { IsSound self.old }
        requires place { IsClauseRef (stored_clauses self.old) cref }
        requires least { 3 ≤ count }
        requires most { count ≤ (header_at (stored_clauses self.old) cref).len }
        ensures { RewritesClauses self.old self.new (λ clauses. shortened clauses cref count) }
    {
        self.buffer[cref.offset as usize + 2] = Lit::from_code(count);
    }
}
