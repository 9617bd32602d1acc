// The lines that document 01's program prints: `O`, `S`, `F` and `H` of a finished objective, or `R` of a
// refusal. A line is a letter and its fields, each after a space; floats are hexadecimal and numbers decimal.
// They are written on a page: at the end of what is lent nothing is written, so that what does not fit is cut
// off. Each public function is defined for all values and words.
#![tactic(auto)]

ghost use Rattle.std.specs.Prelude.{◌≡◌, [], ◌∷◌, ◌<◌, ◌*◌, ◌≤◌, map};
ghost use Rattle.work.specs.Work.{result_words};
ghost use Rattle.words.specs.Page.{with_items};
ghost use Rattle.focei_text.specs.Writing.{glyph, hexadecimal, digits, decimal};
ghost use Rattle.focei_text.specs.Report.{shown, line, subject_field, observation_field, objective_line, subject_line, fitted_line};
ghost use Rattle.focei_text.specs.Report.{shrinkage_line, refusal_line, subject_lines, fitted_lines, all_fitted, subjects_of, finished};

use search::Place;
use words::Page;
use work::{FITTED_WORDS, RESULT_WORDS};

// ---- numbers

// The byte of a digit below 16.
#[tactic(auto, unfolding(crate::specs::Writing::glyph, float64::specs::Pick::pick))]
fn glyph(digit: u64) -> u8
    requires { digit < 16 }
    ensures { result ≡ glyph digit }
{
    if digit < 10 {
        return b'0' + digit as u8;
    }
    b'a' + (digit - 10) as u8
}

// Writes a word as sixteen hexadecimal digits, the topmost first.
pub fn hexadecimal(page: &mut Page<u8>, value: u64)
    ensures { page.new ≡ with_items (hexadecimal value) page.old }
{
    let mut rest = value;
    for _turn in 0..16u32 {
        page.put(glyph(rest / 0x1000_0000_0000_0000));
        rest = rest % 0x1000_0000_0000_0000 * 16;
    }
}

// Writes a number in decimal, with at most so many digits.
fn digits(page: &mut Page<u8>, most: u32, value: u64)
    ensures { page.new ≡ with_items (digits most value) page.old }
{
    if most == 0 {
        return;
    }
    if value < 10 {
        return page.put(glyph(value));
    }
    digits(page, most - 1, value / 10);
    page.put(glyph(value % 10));
}

// Writes a number in decimal, with as many digits as it has: at most twenty.
#[tactic(auto, unfolding(crate::specs::Writing::decimal))]
pub fn decimal(page: &mut Page<u8>, value: u64)
    ensures { page.new ≡ with_items (decimal value) page.old }
{
    digits(page, 20, value);
}

// ---- lines

// A field of a line: a word in hexadecimal, a number in decimal, or a hyphen.
#[derive(Clone, Copy)]
enum Field {
    Word(u64),
    Number(usize),
    Missing,
}

// Writes a field after its space.
#[tactic(auto, using(words::proofs::Pages::with_first), unfolding(crate::specs::Report::shown))]
fn write_field(page: &mut Page<u8>, field: Field)
    ensures { page.new ≡ with_items (32 ∷ shown field) page.old }
{
    page.put(b' ');
    match field {
        Field::Word(word) => hexadecimal(page, word),
        Field::Number(number) => decimal(page, number as u64),
        Field::Missing => page.put(b'-'),
    }
}

// Writes a line: its letter, its fields, and a newline.
fn line(page: &mut Page<u8>, letter: u8, fields: &[Field])
    ensures { page.new ≡ with_items (line letter (map shown fields.now)) page.old }
{
    page.put(letter);
    for field in fields {
        write_field(page, *field);
    }
    page.put(b'\n');
}

// ---- a refusal

#[tactic(auto, unfolding(crate::specs::Report::shown, crate::specs::Report::subject_field))]
fn subject_field(place: Place) -> Field
    ensures { shown result ≡ subject_field place }
{
    match place {
        Place::Nowhere => Field::Missing,
        Place::Subject(subject) | Place::Observation(subject, _) => Field::Number(subject),
    }
}

#[tactic(auto, unfolding(crate::specs::Report::shown, crate::specs::Report::observation_field))]
fn observation_field(place: Place) -> Field
    ensures { shown result ≡ observation_field place }
{
    match place {
        Place::Nowhere | Place::Subject(_) => Field::Missing,
        Place::Observation(_, observation) => Field::Number(observation),
    }
}

// Writes the `R` line of a refusal: document 01's number, the subject and the observation, with a hyphen for
// what it has not.
#[tactic(auto, unfolding(crate::specs::Report::shown, crate::specs::Report::refusal_line))]
pub fn refused(page: &mut Page<u8>, number: u32, place: Place)
    ensures { page.new ≡ with_items (refusal_line number place) page.old }
{
    let fields = [
        Field::Number(number as usize),
        subject_field(place),
        observation_field(place),
    ];
    line(page, b'R', &fields);
}

// ---- a finished objective

#[tactic(auto, unfolding(crate::specs::Report::shown, crate::specs::Report::objective_line))]
fn objective_line(page: &mut Page<u8>, objective: f64, evaluations: u32)
    ensures { page.new ≡ with_items (objective_line objective evaluations) page.old }
{
    let fields = [
        Field::Word(float64::to_word(objective)),
        Field::Number(evaluations as usize),
    ];
    line(page, b'O', &fields);
}

#[tactic(auto, unfolding(crate::specs::Report::shown, crate::specs::Report::subject_line))]
fn subject_line(page: &mut Page<u8>, subject: usize, eta: u64)
    ensures { page.new ≡ with_items (subject_line subject eta) page.old }
{
    line(page, b'S', &[Field::Number(subject), Field::Word(eta)]);
}

#[tactic(auto, unfolding(crate::specs::Report::shown, crate::specs::Report::fitted_line))]
fn fitted_line(
    page: &mut Page<u8>,
    subject: usize,
    observation: usize,
    population: u64,
    individual: u64,
)
    ensures { page.new
        ≡ with_items (fitted_line subject observation population individual) page.old }
{
    let fields = [
        Field::Number(subject),
        Field::Number(observation),
        Field::Word(population),
        Field::Word(individual),
    ];
    line(page, b'F', &fields);
}

#[tactic(auto, unfolding(crate::specs::Report::shown, crate::specs::Report::shrinkage_line))]
fn shrinkage_line(page: &mut Page<u8>, shrinkage: f64)
    ensures { page.new ≡ with_items (shrinkage_line shrinkage) page.old }
{
    line(page, b'H', &[Field::Word(float64::to_word(shrinkage))]);
}

// Eta of every subject: the results have three words for each.
fn subject_lines(page: &mut Page<u8>, subjects: usize, results: &[u64])
    requires { subjects ≤ 4096 }
    ensures { page.new ≡ with_items (subject_lines subjects 0 results.now) page.old }
{
    for subject in 0..subjects {
        subject_line(page, subject, words::read(results, RESULT_WORDS * subject));
    }
}

// The predictions of so many observations of a subject, two words each, from word `first` of the results on.
fn fitted_lines(page: &mut Page<u8>, rows: usize, subject: usize, first: usize, results: &[u64])
    requires { (rows ≤ 100000) × (first ≤ 1000000000) }
    ensures { page.new ≡ with_items (fitted_lines rows subject 0 first results.now) page.old }
{
    for i in 0..rows {
        let word = first + FITTED_WORDS * i;
        let population = words::read(results, word);
        let individual = words::read(results, word + 1);
        fitted_line(page, subject, i, population, individual);
    }
}

// The predictions of all observations of all subjects.
fn all_fitted(page: &mut Page<u8>, subjects: usize, counts: &[u64], results: &[u64])
    requires { subjects ≤ 4096 }
    ensures { page.new
        ≡ with_items (all_fitted subjects 0 (result_words * subjects) counts.now results.now)
        page.old }
{
    let mut word = RESULT_WORDS * subjects;
    for subject in 0..subjects {
        let rows = population::rows_of(counts, subject);
        fitted_lines(page, rows, subject, word, results);
        word += FITTED_WORDS * rows;
    }
}

// The number of subjects, at most the domain's largest.
#[tactic(auto, unfolding(crate::specs::Report::subjects_of, float64::specs::Pick::pick))]
fn subjects_of(counts: &[u64]) -> usize
    ensures { result ≡ subjects_of counts.now }
{
    counts.len().min(work::MOST_SUBJECTS)
}

// Writes the lines of a finished objective: `O` with the objective and the evaluations, an `S` line with the
// eta of each subject, an `F` line with the predictions of each observation, and `H` with the shrinkage.
#[tactic(auto, using(crate::proofs::Paths::few_subjects, words::proofs::Pages::with_append), unfolding(crate::specs::Report::finished))]
pub fn finished(
    page: &mut Page<u8>,
    objective: f64,
    evaluations: u32,
    shrinkage: f64,
    counts: &[u64],
    results: &[u64],
)
    ensures { page.new
        ≡ with_items (finished objective evaluations shrinkage counts.now results.now) page.old }
{
    let subjects = subjects_of(counts);
    objective_line(page, objective, evaluations);
    subject_lines(page, subjects, results);
    all_fitted(page, subjects, counts, results);
    shrinkage_line(page, shrinkage);
}
