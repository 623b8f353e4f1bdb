// Laws of clearing dead changes.
ghost use Rattle.journal.specs.Changes.{ClearingLaw, RoomLaw};

// Clearing dead changes keeps every row, and leaves one change for each row that stands.
pub fn clearing_law()
    ensures { ClearingLaw }
{}

// Places for twice the rows and one more always suffice, and a clearing leaves room for as many writes as there are rows.
pub fn room_law()
    ensures { RoomLaw }
{}
