//! A law of the definitions that the other contracts cite. It stands in the contract of a function that does nothing.

ghost use Rattle.sample_texts.specs.Laws.{FirstOfSeedOne};

/// The five numbers that come first from the seed 1.
#[tactic(auto, unfolding(crate::specs::Draws::next, crate::specs::Draws::value))]
pub fn the_first_numbers_of_seed_one()
    ensures { FirstOfSeedOne }
{}
