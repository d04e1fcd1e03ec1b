//! The order of faults.
ghost use Rattle.assembler_laws.specs.FirstFaults.{EachSourceHasAnOutcome, FaultsComeInPasses, LaterLinesDoNotCount, LeastNumbersComeFirst, LinesBeforeAreClean, NoFaultBesideImage, OneFaultIsFirst};

/// A refused source has just one answer: at most one first fault, on one line, not counting want of memory.
pub fn one_fault_is_first()
    ensures { OneFaultIsFirst }
{}

/// No source is left without an answer: each has a first fault other than want of memory, or gives an image.
pub fn each_source_has_an_outcome()
    ensures { EachSourceHasAnOutcome }
{}

/// No source that gives an image may be refused but for want of memory: it has no other first fault.
pub fn no_fault_beside_image()
    ensures { NoFaultBesideImage }
{}

/// Each of a line's faults belongs to one of the assembler's two passes, and if some line has one of the first pass, no
/// line has one of the second: so early faults are mended first.
pub fn faults_come_in_passes()
    ensures { FaultsComeInPasses }
{}

/// Whoever mends a source may trust the lines before the first fault: its line is one of the source, and each before it
/// is clean as far as the first pass judges; so are all lines, if the fault is one of the second pass.
pub fn lines_before_are_clean()
    ensures { LinesBeforeAreClean }
{}

/// A fault of the first pass stays the first fault, whatever is written after its line: nothing later can mend it.
pub fn later_lines_do_not_count()
    ensures { LaterLinesDoNotCount }
{}

/// If a line that is read has several faults of one pass, the assembler answers the one with the least number, and only
/// faults that the line has.
pub fn least_numbers_come_first()
    ensures { LeastNumbersComeFirst }
{}
