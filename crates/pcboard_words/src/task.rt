//! What the program is asked to do.

/// What the words of a command line ask `pcboard` or `pcprobe` to do.
#[derive(Clone, Copy, Debug, PartialEq, Eq)]
pub enum Task<'a> {
    /// Runs the source that follows its run file on standard input, and prints the report.
    Stored,
    /// Prints the Intel HEX text of the image that the source `file` gives, or its listing if `list`.
    Asm {
        file: &'a str,
        list: bool,
    },
    /// Runs the program of `file`, a HEX text if `hex`, else a source, as the run file `run` says, and prints the
    /// report.
    Run {
        file: &'a str,
        run: &'a str,
        hex: bool,
    },
    /// Answers the commands on standard input about the board of `file`, a HEX text if `hex`, else a source,
    /// that the run file `run` describes.
    Debug {
        file: &'a str,
        run: &'a str,
        hex: bool,
    },
}

/// Why the words of a command line name no task.
#[derive(Debug, Drop)]
pub enum LineFault {
    /// The words aren't the program's, or they ask for help; this is the text for standard error.
    Usage(String),
    /// There is no memory (fault 41).
    Memory,
}
