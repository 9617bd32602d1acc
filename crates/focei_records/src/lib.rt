// Document 01's records: 48 bytes each, little-endian, of subject and reserved word (32 bits each) and the
// floats value, additive, proportional, base, slope. Here are their check (20), the numbers of records of the
// subjects, the observations in words, and the simulator over base and slope. Each public function is defined
// for all bytes and numbers.
#![tactic(auto)]

ghost use Rattle.std.specs.Prelude.{◌≡◌, ◌+◌, ◌*◌, ◌/◌, ◌≤◌, ◌<◌, length};
ghost use Rattle.words.specs.Written.{written, write};
ghost use Rattle.words.specs.Page.{with_items};
ghost use Rattle.focei_records.specs.Records.{half_at, word_at, subject_at, reserved_at, float_at, count_from, counts, observation_at};
ghost use Rattle.focei_records.specs.Records.{observations, answer, cohort_from, cohort, row_at, reply};

use words::Page;

// The bytes of a record.
pub const RECORD_BYTES: usize = 48;

// The most records that the program takes.
pub const MOST_RECORDS: usize = 256;

// ---- a record's fields

// 32 bits from a byte on.
fn half_at(input: &[u8], at: usize) -> u32
    requires { at + 4 ≤ length input.now }
    ensures { result ≡ half_at input.now at }
{
    u32::from_le_bytes([input[at], input[at + 1], input[at + 2], input[at + 3]])
}

// 64 bits from a byte on.
fn word_at(input: &[u8], at: usize) -> u64
    requires { at + 8 ≤ length input.now }
    ensures { result ≡ word_at input.now at }
{
    u64::from(half_at(input, at)) + 4294967296 * u64::from(half_at(input, at + 4))
}

// Of record i, which must be there: the bytes are lent as they were read, and what reads them has counted them.
#[tactic(auto, unfolding(crate::specs::Records::subject_at))]
fn subject_at(input: &[u8], i: usize) -> usize
    requires { i < length input.now / 48 }
    ensures { (result ≡ subject_at input.now i) × (result < 4294967296) }
{
    half_at(input, RECORD_BYTES * i) as usize
}

#[tactic(auto, unfolding(crate::specs::Records::reserved_at))]
fn reserved_at(input: &[u8], i: usize) -> u32
    requires { i < length input.now / 48 }
    ensures { result ≡ reserved_at input.now i }
{
    half_at(input, RECORD_BYTES * i + 4)
}

// The word of a record's float: 0 value, 1 additive, 2 proportional, 3 base, 4 slope.
#[tactic(auto, unfolding(crate::specs::Records::float_at))]
fn float_at(input: &[u8], i: usize, field: usize) -> u64
    requires { (i < length input.now / 48) × (field < 5) }
    ensures { result ≡ float_at input.now i field }
{
    word_at(input, RECORD_BYTES * i + 8 + 8 * field)
}

// ---- check 20

// Reserved words are 0, and the subjects count from 0, each the one before it or the next.
fn subjects(input: &[u8]) -> Option<usize>
    ensures { answer result ≡ cohort_from (length input.now / 48) input.now 0 0 }
{
    let records = input.len() / RECORD_BYTES;
    let mut subjects = 0;
    for i in 0..records {
        if reserved_at(input, i) != 0 {
            return None;
        }
        let subject = subject_at(input, i);
        if subject == subjects {
            subjects += 1;
        } else if subject + 1 != subjects {
            return None;
        }
    }
    Some(subjects)
}

// Document 01's check 20 of the records: whole records, at most 256, reserved words 0, and subjects that
// count from 0. Gives the number of subjects, or none where it refuses them.
#[tactic(auto, unfolding(crate::specs::Records::answer, crate::specs::Records::cohort, float64::specs::Pick::pick))]
pub fn cohort_of(input: &[u8]) -> Option<usize>
    ensures { answer result ≡ cohort input.now }
{
    if input.len() % RECORD_BYTES != 0 || MOST_RECORDS < input.len() / RECORD_BYTES {
        return None;
    }
    subjects(input)
}

// ---- what a session is lent

// How many of the first records are of a subject.
fn count(input: &[u8], records: usize, subject: usize) -> u64
    requires { records ≤ length input.now / 48 }
    ensures { result ≡ count_from records input.now 0 subject }
{
    let mut total = 0;
    for i in 0..records {
        if subject_at(input, i) == subject {
            total += 1;
        }
    }
    total
}

// Writes the number of records of each subject, for so many subjects, and gives the number of words written.
pub fn counts(input: &[u8], subjects: usize, out: &mut [u64]) -> usize
    ensures { written result out.new ≡ write (counts input.now subjects) (written 0 out.old) }
{
    let records = input.len() / RECORD_BYTES;
    let mut page = Page::new(out);
    for subject in 0..subjects {
        page.put(count(input, records, subject));
    }
    page.end()
}

// Writes an observation's five words. Its row is its own position within the subject: how many records of that
// subject stand before it.
#[tactic(auto, using(words::proofs::Pages::with_first), unfolding(crate::specs::Records::observation_at))]
fn observation(page: &mut Page<u64>, input: &[u8], i: usize)
    requires { i < length input.now / 48 }
    ensures { page.new ≡ with_items (observation_at input.now i) page.old }
{
    page.put(0);
    page.put(count(input, i, subject_at(input, i)));
    page.put(float_at(input, i, 0));
    page.put(float_at(input, i, 1));
    page.put(float_at(input, i, 2));
}

// Writes the observations of all records, five words each, and gives the number of words written.
pub fn observations(input: &[u8], out: &mut [u64]) -> usize
    ensures { written result out.new ≡ write (observations input.now) (written 0 out.old) }
{
    let records = input.len() / RECORD_BYTES;
    let mut page = Page::new(out);
    for i in 0..records {
        observation(&mut page, input, i);
    }
    page.end()
}

// ---- the simulator

// Writes a row of a reply: time 0, side pre, base + slope times the individual value, and its derivative.
#[tactic(auto, using(words::proofs::Pages::with_first), unfolding(crate::specs::Records::row_at))]
fn row(page: &mut Page<u64>, input: &[u8], i: usize, individual: f64)
    requires { i < length input.now / 48 }
    ensures { page.new ≡ with_items (row_at input.now individual i) page.old }
{
    let base = float64::from_word(float_at(input, i, 3));
    let slope = float64::from_word(float_at(input, i, 4));
    page.put(0);
    page.put(0);
    page.put(float64::to_word(base + slope * individual));
    page.put(float64::to_word(slope));
}

// The simulator: writes the rows of a reply for so many records from record `first` on, as far as there are
// records, and gives the number of words written. A row is time 0, side pre, base + slope · individual, and
// its derivative.
pub fn reply(input: &[u8], first: usize, rows: usize, individual: f64, out: &mut [u64]) -> usize
    ensures { written result out.new
        ≡ write (reply input.now first rows individual) (written 0 out.old) }
{
    let records = input.len() / RECORD_BYTES;
    let mut page = Page::new(out);
    for i in first..first.saturating_add(rows).min(records) {
        row(&mut page, input, i, individual);
    }
    page.end()
}
