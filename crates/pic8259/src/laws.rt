//! Laws of the controller, proved over its definition. Each is an empty function whose contract states it.
ghost use Rattle.pic8259.specs.PicLaws.{OrderIsWhole, RotationTurns, BeginsAnew, SequenceEnds, WaitsForSequence, AcknowledgeTakesFirst, ServiceBlocks, SpecialMaskExcepts, EndsFirstInService, ServesTaken, MaskHolds, PollTakes};
ghost use Rattle.pic8259.specs.EdgeLaws.{AsksOnceARise};
ghost use Rattle.pic8259.specs.Inhibited.{InhibitedRequestNothing};

/// At any time the order of priority holds each of the eight levels once, and is a turn of their circle: so a
/// program's rotations lose no level.
pub fn order_is_whole()
    ensures { OrderIsWhole }
{}

/// A level that a program makes the lowest is the last of the circle, so the level after it is the first.
#[tactic(auto, using(crate::proofs::OrderWhole::rotation_turns))]
pub fn rotation_turns()
    ensures { RotationTurns }
{}

/// ICW1 begins anew, as from power-on, but for the lines, the vector's bits and the third word: what a program may
/// rely on that sets the controller up again.
#[tactic(auto, using(crate::proofs::Taking::begins_anew))]
pub fn begins_anew()
    ensures { BeginsAnew }
{}

/// After ICW1 the words that it asks for end the sequence: they set the vector, 8086 mode and automatic end of
/// interrupt, and leave nothing masked, whatever a program did before.
pub fn sequence_ends()
    ensures { SequenceEnds }
{}

/// Nothing is taken in mid-sequence or before 8086 mode is chosen, and in mid-sequence no operation word is heard at
/// A0 = 0: so no interrupt comes while a program sets the controller up.
pub fn waits_for_sequence()
    ensures { WaitsForSequence }
{}

/// An acknowledge takes the first level in the order that asks, is unmasked and isn't blocked, and no level before it
/// may be taken: the processor gets the interrupt with the highest priority.
#[tactic(auto, using(crate::proofs::Taking::acknowledge_takes_first))]
pub fn acknowledge_takes_first()
    ensures { AcknowledgeTakesFirst }
{}

/// A level in service blocks itself and all after it in the order, unless special mask mode excepts it: so only a
/// higher level interrupts a handler.
#[tactic(auto, using(crate::proofs::Taking::service_blocks))]
pub fn service_blocks()
    ensures { ServiceBlocks }
{}

/// A level in service that is masked in special mask mode blocks none, and a plain end of interrupt leaves it in
/// service: so its handler can let lower levels in.
#[tactic(auto, using(crate::proofs::Taking::special_mask_excepts))]
pub fn special_mask_excepts()
    ensures { SpecialMaskExcepts }
{}

/// A plain end of interrupt, the word 20h with which most handlers end, ends the first level in the order that is in
/// service and not excepted, and changes nothing if there is none.
#[tactic(auto, using(crate::proofs::Taking::ends_first_in_service))]
pub fn ends_first_in_service()
    ensures { EndsFirstInService }
{}

/// In edge mode a level that was taken doesn't ask again until its line has fallen and risen, so a rise gives one
/// interrupt; then it asks. In level mode a level asks as long as its line is high.
#[tactic(auto, using(crate::proofs::Edges::asks_once_a_rise))]
pub fn asks_once_a_rise()
    ensures { AsksOnceARise }
{}

/// A level that is taken comes into service, where it blocks until its handler ends it; under automatic end of
/// interrupt it doesn't, and becomes the lowest if rotation goes with that.
#[tactic(auto, using(crate::proofs::Words::serves_taken))]
pub fn serves_taken()
    ensures { ServesTaken }
{}

/// Outside a sequence a byte written at A0 = 1 reads back there, and no level whose bit is 1 in it may be taken: so a
/// program can save the mask, and hold interrupts off.
#[tactic(auto, using(crate::proofs::Words::mask_holds))]
pub fn mask_holds()
    ensures { MaskHolds }
{}

/// After the poll word the next read, at either port, takes a level as an acknowledge does and answers 80h plus its
/// number, or 0 if there is none: so a program can serve devices without interrupts.
#[tactic(auto, using(crate::proofs::Words::poll_takes))]
pub fn poll_takes()
    ensures { PollTakes }
{}

/// A level requests nothing, whatever its line does, exactly as `is_inhibited` says: if the controller isn't ready, or
/// the level is masked, or one that blocks stands at or before it in the order. Any other may be taken once its line
/// has fallen and risen.
#[tactic(auto, using(crate::proofs::Inhibited::inhibited_request_nothing))]
pub fn inhibited_request_nothing()
    ensures { InhibitedRequestNothing }
{}
