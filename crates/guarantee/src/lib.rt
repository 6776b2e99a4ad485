//! The promise of the whole product, proved over its definitions: for any list of calls on a book, and any ceremony.
//! Each function only carries a theorem on its contract; the proofs are in proofs/.
#![tactic(auto)]

ghost use Rattle.protocol.specs.Streams.{Digest, GivesBytes};
ghost use Rattle.protocol.specs.Examples.{ExamplesHold};
ghost use Rattle.protocol.specs.Guarantee.{Custody, Completeness, Extraction, Guarantee};
ghost use Rattle.protocol.specs.Laws.{SelectionKeepsSigma, HiddenPartiesExist, PackingIsFaithful, SamplesWithinBound};

/// After every run, the book holds the records that were accepted, with what the answers chose, and their digests are met.
pub fn custody()
    ensures { (F X : Digest) → Custody F X }
{}

/// After every run, a record that a ceremony gave is accepted.
pub fn completeness()
    ensures { (F X : Digest) → GivesBytes F → Completeness F X }
{}

/// After every run, two answers to one commitment give the secret of the key, or a collision.
pub fn extraction()
    ensures { (F X : Digest) → Extraction F X }
{}

/// All three, whatever the digest function is.
pub fn guarantee()
    ensures { Guarantee }
{}

/// What a challenger's answers choose.
pub fn choices()
    ensures selection { SelectionKeepsSigma }
    ensures hidden { HiddenPartiesExist }
    ensures packing { PackingIsFaithful }
{}

/// Every value is within the bound of its set.
pub fn samples_within_bound()
    ensures { SamplesWithinBound }
{}

/// The worked examples hold of the definitions.
pub fn examples_hold()
    ensures { ExamplesHold }
{}
