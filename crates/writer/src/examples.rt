// The rules of topics and frames by example.
ghost use Rattle.writer.specs.Examples.{Examples};

// What the definitions say of filters, remaining lengths and first bytes that are easily got wrong.
#[tactic(auto, unfolding(frame::specs::FirstByte::type_in, topics::specs::Matching::takes))]
pub fn examples()
    ensures examples { Examples }
{}
