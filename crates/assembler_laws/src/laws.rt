//! The laws of the assembler and the decoder.
ghost use Rattle.assembler_laws.specs.DecodingBack.{BytesDecodeBack};

/// The processor decodes what was assembled: in any memory that holds an accepted source's image, decoding at the place
/// of each of its instructions finds the form chosen for it, its prefixes and numbers, and as many bytes as its line
/// has.
pub fn bytes_decode_back()
    ensures { BytesDecodeBack }
{}
