// The legality check's part that looks at no slot: the contents, the global words, the masks and the
// lanes. It follows no link, for these sentences speak of words at known places.
// Stays: memory and sizes are two parameters, and `Lent` ties them; `words` `Sizes` says why.
#![tactic(auto)]

pub mod contents;
mod generations;
mod globals;
mod lanes;

ghost use Rattle.std.specs.Prelude.{◌≡◌};
ghost use Rattle.model.specs.Memory.{sizes};
ghost use Rattle.words.specs.Lent.{Lent};
ghost use Rattle.engine_legality.specs.WordSentences.{engine_legal};

// The sentences about the global words, the masks and the lanes.
pub fn engine_fits(m: &[u32]) -> bool
    requires { Lent m.now (sizes m.now) }
    ensures { result ≡ engine_legal m.now }
{
    let z = words::NamedSizes::read(m).of_table();
    globals::global_words_fit(m, z) && globals::masks_fit(m, z) && lanes::lanes_fit(m, z)
}
