// The legality check alone under a name for C: the benchmark measures it, and compares its verdicts on damaged memories.
#![tactic(auto)]

ghost use Rattle.std.specs.Prelude.{◌≡◌};
ghost use Rattle.model.specs.Legal.{legal as is_legal};

// Whether a memory is legal.
// Stays: the C interface needs a function of its own beside `legality::legal`.
#[unsafe(no_mangle)]
pub extern "C" fn pt_legal(m: &[u32]) -> bool
    ensures { result ≡ is_legal m.now }
{
    legality::legal(m)
}
