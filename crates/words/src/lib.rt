// Words and bytes that a caller lends, read and written one by one. Each function is defined for all words
// and numbers: beyond the end a word reads as 0, and nothing is written there.
#![tactic(auto)]

ghost use Rattle.std.specs.Prelude.{◌≡◌, [], ◌∷◌, length, get_or, set};
ghost use Rattle.words.specs.Words.{smaller, zeros};
ghost use Rattle.words.specs.Written.{written, write};
ghost use Rattle.words.specs.Page.{blank, page_from, with_items};

// The smaller of two numbers.
pub fn smaller(a: usize, b: usize) -> usize
    ensures { result ≡ smaller a b }
{
    a.min(b)
}

// Word i of the lent words, or 0 beyond their end.
pub fn read(words: &[u64], i: usize) -> u64
    ensures { result ≡ get_or words.now i 0 }
{
    if i < words.len() { words[i] } else { 0 }
}

// Writes word i of the lent words; beyond their end nothing is written.
pub fn put(words: &mut [u64], i: usize, value: u64)
    ensures { words.new ≡ set words.old i value }
{
    if i < words.len() {
        words[i] = value;
    }
}

// Makes every lent word 0.
pub fn clear(words: &mut [u64])
    ensures { words.new ≡ zeros (length words.old) }
{
    words.fill(0);
}

// ---- items written one after the other, as far as there is room

// Lent bytes or words, and the place among them at which the next one is written.
#[derive(Drop)]
pub struct Page<'a, T> {
    out: &'a mut [T],
    at: usize,
}

impl<'a, T: Copy> Page<'a, T> {
    // A page of what is lent, from its front on.
    pub fn new(out: &'a mut [T]) -> Page<'a, T>
        ensures { result ≡ blank out.entry }
    {
        Page { out, at: 0 }
    }

    // A page of what is lent, from a place on, which may lie beyond the end: there nothing will be written.
    pub fn from_place(out: &'a mut [T], at: usize) -> Page<'a, T>
        ensures { result ≡ page_from at out.entry }
    {
        Page { out, at }
    }

    // The place: of a page from its front on, the number of items that were written.
    pub fn end(&self) -> usize
        ensures { result ≡ self.now.at }
    {
        let place = self.at;
        place
    }

    // Writes an item, and goes on to the place after it. At the end of what is lent nothing is written, and
    // the place stays.
    #[tactic(auto, using(crate::proofs::Paths::puts, crate::proofs::Paths::stays))]
    pub fn put(&mut self, item: T)
        ensures { self.new ≡ with_items (item ∷ []) self.old }
    {
        if self.at < self.out.len() {
            self.out[self.at] = item;
            self.at += 1;
        }
    }
}

// ---- one byte or word at a place

// Writes a byte at a place and gives the place after it. At the end of what is lent nothing is written, and
// the place stays.
pub fn byte(out: &mut [u8], at: usize, value: u8) -> usize
    ensures { written result out.new ≡ write (value ∷ []) (written at out.old) }
{
    let mut page = Page::from_place(out, at);
    page.put(value);
    page.end()
}

// Writes a word at a place and gives the place after it. At the end of what is lent nothing is written, and
// the place stays.
pub fn word(out: &mut [u64], at: usize, word: u64) -> usize
    ensures { written result out.new ≡ write (word ∷ []) (written at out.old) }
{
    let mut page = Page::from_place(out, at);
    page.put(word);
    page.end()
}
