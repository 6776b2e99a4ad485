//! A guard over the working memory of a call: whichever way the call ends, the memory is left zeroed.
#![tactic(auto)]

ghost use Rattle.std.specs.Prelude.{◌≡◌};
ghost use Rattle.protocol.specs.Effects.{wiped};

/// All of the working memory that was handed over, until it is zeroed.
pub struct Guard<'a> {
    pub words: &'a mut [u16],
}

/// Zeroes all words.
pub fn wipe(words: &mut [u16])
    ensures { words.new ≡ wiped words.old }
{
    words.fill(0);
}

impl Drop for Guard<'_> {
    fn drop(self)
        ensures { self.exit.0.now ≡ wiped self.entry.words.now }
    {
        wipe(self.words);
        let Guard { words: _ } = self;
    }
}
