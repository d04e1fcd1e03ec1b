//! What holds of what `chips` prints, by the definitions alone.
ghost use Rattle.probe_texts.specs.ChipLaws.{LoadsAsTold};

/// The next tick of a counter loads its newest count if the line of `chips` says `load 1`, and else it doesn't.
pub fn loads_as_told()
    ensures { LoadsAsTold }
{}
