//! The argument of the protocol, over any lawful key rule: what two answers to one commitment give, and what an honest opening gives.
//! Each function only carries a law on its contract; the proofs are in proofs/.
#![tactic(auto)]

ghost use Rattle.protocol.specs.Tree.{Regrows};
ghost use Rattle.protocol.specs.Laws.{MatrixRuleIsLawful, SoundUnderLawfulRules, HonestUnderLawfulRules, HiddenProductByLinearity, KeptValuesListed};

/// The seeds beside a path give every leaf but its own.
pub fn tree_regrows()
    ensures { Regrows }
{}

/// The kept values are listed in index order, each once.
pub fn kept_values_are_listed()
    ensures { KeptValuesListed }
{}

/// A·S + E is a lawful key rule: the image of a sum is the sum of the images.
pub fn matrix_rule_is_lawful()
    ensures { MatrixRuleIsLawful }
{}

/// One product of the summed shares finds the hidden party's product share.
pub fn hidden_product_by_linearity()
    ensures { HiddenProductByLinearity }
{}

/// Two transcripts with equal texts that hide different parties give seeds that open every commitment, and the values.
pub fn special_soundness()
    ensures { SoundUnderLawfulRules }
{}

/// The texts rebuilt from an honest opening are those of its maker.
pub fn honest_texts()
    ensures { HonestUnderLawfulRules }
{}
