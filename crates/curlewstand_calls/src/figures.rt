// What a host is told besides the answers of a session's calls: which interface this library has, how many
// evaluations are to be booked, and the shrinkage of a finished objective. Each function is defined for every
// input.
ghost use Rattle.std.specs.Prelude.{◌≡◌};
ghost use Rattle.float64.specs.Answer.{number_of, or_old};
ghost use Rattle.session.specs.Figures.{ceiling_of};
ghost use Rattle.host_calls.specs.Figures.{shrinkage_from};

// The number of the C interface. The header and the Rust crate refer to this function by its name, which ends
// with that number: so a host that was written for another interface does not link with this library, and the
// linker's message has the name that is missing.
#[unsafe(no_mangle)]
pub extern "C" fn curlewstand_interface_2() -> u32
    ensures { result ≡ 2 }
{
    2
}

// The most evaluations that a subject's search asks for within one objective, with one effect or two; 0 with
// any other number, with which no session opens.
#[unsafe(no_mangle)]
pub extern "C" fn curlewstand_ceiling(effects: u32) -> u32
    ensures { result ≡ ceiling_of effects }
{
    session::ceiling(effects)
}

// Writes the shrinkage of the objective with one effect that the latest call has finished, and gives 0. The
// counts, the state and the answer are those that this call left. Else it gives 19, and nothing is written.
#[unsafe(no_mangle)]
pub extern "C" fn curlewstand_shrinkage(
    counts: &[u64],
    state: &[u64],
    answer: &[u64],
    shrinkage: &mut f64,
) -> u32
    ensures value { result ≡ number_of (shrinkage_from counts.now state.now answer.now) }
    ensures shrinkage_after { shrinkage.new
        ≡ or_old shrinkage.old (shrinkage_from counts.now state.now answer.now) }
{
    match host_calls::figures::shrinkage_from(counts, state, answer) {
        Some(value) => {
            *shrinkage = value;
            0
        }
        None => 19,
    }
}
