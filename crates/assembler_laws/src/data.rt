//! What the data lines of an accepted source place.
ghost use Rattle.assembler_laws.specs.DataBytes.{DataGoesLowByteFirst};

/// Each data line of an accepted source stands in a segment, and from its place on the image has:
///
/// - for each number as many bytes as the line's width says, low byte first, a negative number as the one that is 256
///   to the power of the width higher;
/// - for each quoted text its characters, one byte each, in order;
/// - all in the order of the line, and what DUP repeats as many times as its count says, one copy after another.
pub fn data_goes_low_byte_first()
    ensures { DataGoesLowByteFirst }
{}
