// Advance of an owner, a lane or all lanes together (document 01, "Generations and passes").
ghost use Rattle.std.specs.Prelude.{◌≡◌, ◌<◌, length};
ghost use Rattle.model.specs.Layout.{yard_mask_at};
ghost use Rattle.words.specs.Lent.{sizes_of};
ghost use Rattle.engine.specs.Advance.{OwnerLent, target_word, finished_words, settled_words, batched_words, begun_words, advanced_words};

use crate::OwnerWords;

// The generation whose end a batch that begins to wait now has to see: the current, or one more if a period runs.
#[tactic(auto, unfolding(crate::specs::Advance::target_word))]
fn target(m: &[u32]) -> u32
    requires { yard_mask_at < length m.now }
    ensures { result ≡ target_word m.now }
{
    let current = m[words::CURRENT_GENERATION_AT];
    if m[words::YARD_MASK_AT] == 0 {
        return current;
    }
    masks::up(current)
}

impl OwnerWords {
    // The current queue is appended to done, and its generation is at rest.
    fn finish(self, m: &mut [u32], z: words::Sizes)
        requires { OwnerLent m.old (sizes_of z) self }
        ensures { m.new ≡ finished_words m.old (sizes_of z) self }
    {
        self.done().append_queue(m, z, self.current());
        m[self.generation] = 0;
    }

    // If the current queue's generation is earlier than the current one, appends that queue to done.
    #[tactic(auto, unfolding(crate::specs::Advance::settled_words))]
    fn settle(self, m: &mut [u32], z: words::Sizes)
        requires { OwnerLent m.old (sizes_of z) self }
        ensures { m.new ≡ settled_words m.old (sizes_of z) self }
    {
        if !self.current().is_empty(m, z)
            && masks::later(m[words::CURRENT_GENERATION_AT], m[self.generation])
        {
            self.finish(m, z);
        }
    }

    // The next queue becomes current, with generation g.
    #[tactic(auto, unfolding(crate::specs::Advance::batched_words))]
    fn batch(self, m: &mut [u32], z: words::Sizes, g: u32)
        requires { OwnerLent m.old (sizes_of z) self }
        ensures { m.new ≡ batched_words m.old (sizes_of z) self g }
    {
        self.current().append_queue(m, z, self.next());
        m[self.generation] = g;
    }

    // If current is empty and next is not, next becomes current with the target generation, which is requested.
    #[tactic(auto, unfolding(crate::specs::Advance::begun_words))]
    fn begin_batch(self, m: &mut [u32], z: words::Sizes)
        requires { OwnerLent m.old (sizes_of z) self }
        ensures { m.new ≡ begun_words m.old (sizes_of z) self }
    {
        if self.current().is_empty(m, z) && !self.next().is_empty(m, z) {
            let g = target(m);
            self.batch(m, z, g);
            crate::period::request(m, z, g);
        }
    }

    // Advances the owner: settles its current queue, then begins a batch.
    #[tactic(auto, unfolding(crate::specs::Advance::advanced_words))]
    pub fn advance(self, m: &mut [u32], z: words::Sizes)
        requires { OwnerLent m.old (sizes_of z) self }
        ensures { m.new ≡ advanced_words m.old (sizes_of z) self }
    {
        self.settle(m, z);
        self.begin_batch(m, z);
    }
}
