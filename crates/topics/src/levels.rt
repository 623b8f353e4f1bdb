// The levels of topic names and topic filters.
ghost use Rattle.topics.specs.Levels.{LevelsLaw};

/// Levels are what stands between the slashes: a text and its list of levels say the same.
#[tactic(auto, using(crate::proofs::Cuts::levels_law))]
pub fn levels_law()
    ensures law { LevelsLaw }
{}
