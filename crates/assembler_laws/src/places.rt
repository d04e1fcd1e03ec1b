//! Where the lines of an accepted source stand.
ghost use Rattle.assembler_laws.specs.Places.{LinesStandWhereCounted};

/// For each line of an accepted source:
///
/// - The line stands in a segment if and only if a SEGMENT comes before it, with no ENDS in between. Its paragraph is
///   the constant of the last SEGMENT, and its offset what the last ORG or SEGMENT says (0 for SEGMENT), plus the sizes
///   of all lines since then.
/// - A label on it stands for this place in the names of the source, and a line with a label has a place. A name that
///   SEGMENT or EQU defines stands for its constant.
/// - The line places as many bytes as its size says.
pub fn lines_stand_where_counted()
    ensures { LinesStandWhereCounted }
{}
