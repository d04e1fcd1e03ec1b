//! The laws of decoding.
ghost use Rattle.decode.specs.DecodeLaws.{DecodingIsExact, NoneIsLonger};

/// States that what the decoder finds at the front of some bytes is the one instruction whose bytes, by the encoding
/// table, stand there, and that it finds none only if there is none; for readers of the decoder's laws.
pub fn decoding_is_exact()
    ensures { DecodingIsExact }
{}

/// States that no instruction has more than the 15 bytes that the decoder looks at, so that it misses none.
pub fn none_is_longer()
    ensures { NoneIsLonger }
{}
