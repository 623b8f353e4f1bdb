// Writing and reading together.
ghost use Rattle.writer.specs.Laws.{Again, ReadsLawful, RoundTrip};

/// Every lawful packet, written and then read, has the same content, its parts at the places of the shortest form.
#[tactic(auto, using(crate::proofs::Trips::round_trip))]
pub fn round_trip_law()
    ensures law { RoundTrip }
{}

/// Whatever is read of bytes is lawful.
#[tactic(auto, using(crate::proofs::Accepted::reads_lawful))]
pub fn accepted_law()
    ensures law { ReadsLawful }
{}

/// Whatever is read, written again, reads back with equal content.
#[tactic(auto, using(crate::proofs::Again::again))]
pub fn again_law()
    ensures law { Again }
{}
