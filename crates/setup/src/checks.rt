// Document 01's checks 1 to 5 of what a session is given, in their order. Each public function is defined for
// all values.
ghost use Rattle.std.specs.Prelude.{◌≡◌, ◌≤◌};
ghost use Rattle.setup.specs.Admission.{count_observations, is_cohort, is_short, admitted, checks_of, checks, within};
ghost use Rattle.setup.specs.SubjectChecks.{subject_checks};

use super::{Admission, AdmissionError, Counts, Lent, Setup, is_no_omega, is_no_shape};
use subject::Check;

// ---- 1

// The sum and the largest of the subjects' numbers of observations, for checks 1 and 5; none outside document
// 01's domain, where a subject has none or all have more than 100,000.
pub fn count_observations(counts: &[u64]) -> Option<Counts>
    ensures { result ≡ count_observations counts.now }
{
    let mut total = 0;
    let mut largest = 0;
    for count in counts {
        let count = *count as usize;
        if count == 0 {
            return None;
        }
        if work::MOST_ROWS - total < count {
            return None;
        }
        total += count;
        largest = largest.max(count);
    }
    Some(Counts { total, largest })
}

// Whether check 1 passes: 1 or 2 effects, 1 to 4,096 subjects, and as many observations lent as the subjects
// have.
fn is_cohort(effects: u32, subjects: usize, total: usize, observations: usize) -> bool
    ensures { result ≡ is_cohort effects subjects total observations }
{
    if effects == 0 {
        return false;
    }
    if 2 < effects {
        return false;
    }
    if subjects == 0 {
        return false;
    }
    if work::MOST_SUBJECTS < subjects {
        return false;
    }
    total == observations
}

// ---- 5

// Whether too few words are lent: 12 for each row of the largest subject, 24 for each row that is kept, one
// warm start for each subject and effect, three results for each subject and two for each observation. (The counts'
// bounds are asked here and not of their type, since anyone may make one.)
fn is_short(setup: Setup, subjects: usize, counts: Counts, lent: Lent) -> bool
    requires { (setup.effects ≤ 2) × (setup.k ≤ 100000) × (subjects ≤ 4096) × (counts.total ≤ 100000) × (counts.largest ≤ 100000) }
    ensures { result ≡ is_short setup subjects counts.total counts.largest lent }
{
    if lent.work < work::WORK_WORDS * counts.largest {
        return true;
    }
    if lent.cache < cache::KEPT_WORDS * setup.k {
        return true;
    }
    if lent.warm < setup.effects as usize * subjects {
        return true;
    }
    lent.results < work::FITTED_WORDS * counts.total + work::RESULT_WORDS * subjects
}

// ---- all of them

// Checks 2 to 5, where 1 has passed.
fn admitted(setup: Setup, subjects: usize, counts: Counts, lent: Lent, check: Check) -> Admission
    requires { (setup.effects ≤ 2) × (subjects ≤ 4096) × (counts.total ≤ 100000) × (counts.largest ≤ 100000) }
    ensures { result ≡ admitted setup subjects counts.total counts.largest lent check }
{
    if is_no_omega(setup) {
        return Err(AdmissionError::Refused(2));
    }
    if is_no_shape(setup) {
        return Err(AdmissionError::Refused(3));
    }
    if let Err(place) = check {
        return Err(AdmissionError::Unsound(place));
    }
    if is_short(setup, subjects, counts, lent) {
        return Err(AdmissionError::Refused(5));
    }
    Ok(())
}

// Checks 1 to 5 in their order, where each count is within the domain.
fn counted_checks(
    setup: Setup,
    subjects: usize,
    counts: Counts,
    lent: Lent,
    check: Check,
) -> Admission
    requires { (counts.total ≤ 100000) × (counts.largest ≤ 100000) }
    ensures { result ≡ checks_of setup subjects lent check (within counts.total counts.largest) }
{
    if is_cohort(setup.effects, subjects, counts.total, lent.observations) {
        return admitted(setup, subjects, counts, lent, check);
    }
    Err(AdmissionError::Refused(1))
}

// Checks 1 to 5 in their order. `check` is what `observations::check_observations` found of all the lent
// observations (4).
pub fn checks(setup: Setup, counts: &[u64], lent: Lent, check: Check) -> Admission
    ensures { result ≡ checks setup counts.now lent check }
{
    let counted = count_observations(counts).ok_or(AdmissionError::Refused(1))?;
    counted_checks(setup, counts.len(), counted, lent, check)
}

// ---- where one subject's observations are lent

// Checks 1 to 5 in their order where the observations of one subject alone are lent: of this subject's count,
// and of its observations, of which `check` was found. The other subjects' counts and observations are not
// looked at.
pub fn subject_checks(
    setup: Setup,
    counts: &[u64],
    subject: usize,
    lent: Lent,
    check: Check,
) -> Admission
    ensures { result ≡ subject_checks setup counts.now subject lent check }
{
    let count = words::read(counts, subject) as usize;
    if count == 0 || work::MOST_ROWS < count {
        return Err(AdmissionError::Refused(1));
    }
    let counted = Counts {
        total: count,
        largest: count,
    };
    counted_checks(setup, counts.len(), counted, lent, check)
}
