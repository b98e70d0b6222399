//! Codes of variables by number, in pages that take memory once something in them was set.
ghost use Rattle.std.specs.Prelude.{ℕ, ◌≡◌, ◌≤◌, ◌<◌, ◌/◌, ◌+◌, ◌++◌, ◌∷◌, [], length, map, slice_index_or, OnOk, OnErr};
ghost use Rattle.std.specs.Borrow.{sem};
ghost use Rattle.varisat_names.specs.promises.Maps.{updated};
ghost use Rattle.varisat_names.specs.inside.CodePages.{code_at, code_in};
ghost use Rattle.varisat_names.specs.inside.Lending.{lends_page};

use std::alloc::{AllocError, Allocator};
use std::marker::Model;

/// The code of no variable: it is above each variable's index.
pub const NO_VAR: u32 = 0x8000_0000;

/// How many codes a page has.
const PAGE: usize = 1024;

/// A code for each number, that of no variable where nothing was set. It takes four bytes a number in the pages where
/// something was ever set.
#[derive(Drop)]
pub struct CodePages<A: Allocator + Copy> {
    pages: Vec<Vec<u32, A>, A>,
}

impl<A: Allocator + Copy> Model for CodePages<A> {
    ghost use Rattle.std.specs.Prelude.{List, ℕ, map};

    ghost Value = { List (List ℕ) };

    ghost view = { λ c. map (λ v. v.items) c.pages.items };
}

impl<A: Allocator + Copy> CodePages<A> {
    /// Nothing is set. It takes no memory.
    pub fn new_in(alloc: A) -> CodePages<A>
        ensures { result ≡ [] }
    {
        CodePages {
            pages: Vec::new(alloc),
        }
    }

    /// The code of the number.
    pub fn get(&self, number: usize) -> u32
        ensures { result ≡ code_at self.now number }
    {
        let index = number / PAGE;
        if index < self.pages.len() {
            code_or_none(self.pages[index].as_slice(), number % PAGE)
        } else {
            NO_VAR
        }
    }

    /// Sets the code of the number. Where memory is refused all codes stay.
    // Out of line, since names seldom lead to a variable of another index.
    #[inline(never)]
    pub fn insert(&mut self, number: usize, code: u32) -> Result<(), AllocError>
        ensures set { OnOk result ((i : ℕ) → code_at self.new i ≡ updated (code_at self.old) number code i) }
        ensures refused { OnErr result ((i : ℕ) → code_at self.new i ≡ code_at self.old i) }
    {
        self.reach(number / PAGE)?;
        self.fill(number / PAGE)?;
        self.set(number, code);
        Ok(())
    }

    /// Nothing is set for the number any more.
    pub fn remove(&mut self, number: usize)
        ensures { (i : ℕ) → code_at self.new i ≡ updated (code_at self.old) number 0x8000_0000 i }
    {
        let index = number / PAGE;
        if index < self.pages.len() {
            clear(self.page_mut(index), number % PAGE);
        }
    }

    /// Makes the page, and those before it.
    fn reach(&mut self, index: usize) -> Result<(), AllocError>
        ensures same { (p : ℕ) → slice_index_or self.new p [] ≡ slice_index_or self.old p [] }
        ensures made { OnOk result (index < length self.new) }
    {
        if self.pages.len() <= index {
            push_pages(&mut self.pages, index)?;
        }
        Ok(())
    }

    /// Gives the page its memory, where it has none.
    fn fill(&mut self, index: usize) -> Result<(), AllocError>
        requires { index < length self.old }
        ensures same { (i : ℕ) → code_at self.new i ≡ code_at self.old i }
        ensures count { length self.new ≡ length self.old }
        ensures filled { OnOk result (1024 ≤ length (slice_index_or self.new index [])) }
    {
        fill_page(self.page_mut(index))?;
        Ok(())
    }

    /// Sets the code of the number, whose page has memory.
    fn set(&mut self, number: usize, code: u32)
        requires made { number / 1024 < length self.old }
        requires filled { 1024 ≤ length (slice_index_or self.old (number / 1024) []) }
        ensures { (i : ℕ) → code_at self.new i ≡ updated (code_at self.old) number code i }
    {
        let page = self.page_mut(number / PAGE);
        page[number % PAGE] = code;
    }

    /// The page, to be changed.
    fn page_mut(&mut self, index: usize) -> &mut Vec<u32, A>
        requires { index < length self.old }
        ensures* lends { sem 𝓛 (lends_page A.row A.Allocator self.entry index result) }
        ensures value { result.now.items ≡ slice_index_or self.old index [] }
    {
        &mut self.pages[index]
    }
}

/// The code at the place of a page.
fn code_or_none(page: &[u32], place: usize) -> u32
    ensures { result ≡ code_in page.now place }
{
    if place < page.len() {
        page[place]
    } else {
        NO_VAR
    }
}

/// Gives the page memory, where it has none.
fn fill_page<A: Allocator + Copy>(page: &mut Vec<u32, A>) -> Result<(), AllocError>
    ensures same { (q : ℕ) → code_in page.new.items q ≡ code_in page.old.items q }
    ensures filled { OnOk result (1024 ≤ length page.new.items) }
{
    if page.len() < PAGE {
        page.resize(PAGE, NO_VAR)?;
    }
    Ok(())
}

/// Nothing is set at the place of the page any more.
fn clear<A: Allocator + Copy>(page: &mut Vec<u32, A>, place: usize)
    ensures { (q : ℕ) → code_in page.new.items q ≡ updated (code_in page.old.items) place 0x8000_0000 q }
{
    if place < page.len() {
        page[place] = NO_VAR;
    }
}

/// Adds a page without memory behind the others.
fn push_page<A: Allocator + Copy>(pages: &mut Vec<Vec<u32, A>, A>) -> Result<(), AllocError>
    ensures pushed { OnOk result (map (λ v. v.items) pages.new.items ≡ map (λ v. v.items) pages.old.items ++ [] ∷ []) }
    ensures count { OnOk result (length pages.new.items ≡ length pages.old.items + 1) }
    ensures refused { OnErr result (pages.new.items ≡ pages.old.items) }
{
    let alloc = *pages.allocator();
    pages.push(Vec::new(alloc))?;
    Ok(())
}

/// Adds pages without memory until there is the one of this index.
fn push_pages<A: Allocator + Copy>(
    pages: &mut Vec<Vec<u32, A>, A>,
    index: usize,
) -> Result<(), AllocError>
    ensures same { (p : ℕ) →
        slice_index_or (map (λ v. v.items) pages.new.items) p []
        ≡ slice_index_or (map (λ v. v.items) pages.old.items) p [] }
    ensures made { OnOk result (index < length pages.new.items) }
{
    while pages.len() <= index {
        push_page(pages)?;
    }
    Ok(())
}
