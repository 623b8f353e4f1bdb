// What holds of every call.
ghost use Rattle.broker.specs.Laws.{FitsLaw, OthersStay, RefusedLeaves, RestartsAgain, SameOrNumbered, Total};
