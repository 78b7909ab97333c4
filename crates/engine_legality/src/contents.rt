// The table of contents: a memory's own words against those of its sizes, and the total that they say.
ghost use Rattle.std.specs.Prelude.{◌≡◌};
ghost use Rattle.model.specs.Legal.{contents_agree};

// "contents agree with the sizes, and the total is not above its length"
pub fn contents_agree(m: &[u32]) -> bool
    ensures { result ≡ contents_agree m.now }
{
    if m.len() < words::CONTENTS_LENGTH {
        return false;
    }
    let Ok(z) = words::Sizes::try_from(words::NamedSizes::read(m)) else {
        return false;
    };
    let mut own = [0u32; words::CONTENTS_LENGTH];
    z.write_contents(&mut own);
    m.starts_with(&own) && z.bodies().total as usize <= m.len()
}
