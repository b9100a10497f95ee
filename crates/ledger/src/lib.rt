// Trees under names, and what each booking answers and changes. The crate is definitions and their laws; each function stands for one law.
#![tactic(auto)]

ghost use Rattle.ledger.specs.Laws.{LargerGrantsAlike, RoomIsExact, RowWrittenIsRead, WrittenIsRead};

/// Past every earlier door, a booking is refused for room exactly when there is none.
pub fn room_is_exact()
    ensures { RoomIsExact }
{}

/// What a ledger grants, one of a larger count grants alike.
pub fn larger_grants_alike()
    ensures { LargerGrantsAlike }
{}

/// What one kind wrote at a place, one word or a row, the same kind reads there.
pub fn written_is_read()
    ensures word { WrittenIsRead }
    ensures row { RowWrittenIsRead }
{}
