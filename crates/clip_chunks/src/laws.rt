//! Laws on which other crates rest. The calls do nothing: their contracts are the laws.

ghost use Rattle.clip_chunks.specs.Laws.{FoundIsWhole, WholeIsFound, WholesGrow, OtherPartsPass};
ghost use Rattle.clip_chunks.specs.Laws.{AllIsCut, AllKnownWasBrought};

/// What is found by the run that was open is the whole that a part ends, and wherever a part ends a
/// whole it is found.
pub fn whole_where_found()
    ensures found { FoundIsWhole }
    ensures all { WholeIsFound }
{}

/// One more message brings the whole that its part ends, after those that were there.
pub fn wholes_grow()
    ensures { WholesGrow }
{}

/// A part of the other clipboard changes nothing that an assembly stands for.
pub fn other_parts_pass()
    ensures { OtherPartsPass }
{}

/// The chunks of a clipboard are its bytes, cut once; all but the last are full, and that one is
/// not empty.
pub fn chunks_are_full()
    ensures { AllIsCut }
{}

/// Wherever the bytes of a clipboard are known, they are those of a copy at the kept sequence, or
/// of a whole that the owner of that moment sent with it.
pub fn known_were_brought()
    ensures { AllKnownWasBrought }
{}
