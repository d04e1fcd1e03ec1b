//! The words of a step.

/// What a step does.
#[derive(Clone, Copy)]
pub enum Verb {
    Write,
    Read,
    Gate,
    Tick,
    Out,
    Wave,
    Each,
    Line,
    Request,
    Acknowledge,
    Switches,
    Latch,
    Out2,
    Lines,
    Arrive,
    Settle,
    Lost,
    Take,
    Copy,
    Swap,
    Put,
    Get,
    Ram,
    At,
    Push,
    Count,
    Key,
    Loadable,
    Text,
    Scan,
    Segment,
    Physical,
    Set,
    Flags,
    Clock,
}

/// Each verb with its name, the radix of its place and that of its values (0 if it has none).
static VERBS: [(&str, Verb, u32, u32); 35] = [
    ("write", Verb::Write, 16, 16),
    ("read", Verb::Read, 16, 16),
    ("gate", Verb::Gate, 16, 16),
    ("tick", Verb::Tick, 0, 10),
    ("out", Verb::Out, 16, 16),
    ("wave", Verb::Wave, 16, 16),
    ("each", Verb::Each, 16, 16),
    ("line", Verb::Line, 16, 16),
    ("request", Verb::Request, 0, 16),
    ("acknowledge", Verb::Acknowledge, 0, 16),
    ("switches", Verb::Switches, 16, 16),
    ("latch", Verb::Latch, 0, 16),
    ("out2", Verb::Out2, 0, 16),
    ("lines", Verb::Lines, 0, 16),
    ("arrive", Verb::Arrive, 0, 16),
    ("settle", Verb::Settle, 0, 16),
    ("lost", Verb::Lost, 0, 10),
    ("take", Verb::Take, 0, 16),
    ("copy", Verb::Copy, 0, 0),
    ("swap", Verb::Swap, 0, 0),
    ("put", Verb::Put, 16, 16),
    ("get", Verb::Get, 16, 16),
    ("ram", Verb::Ram, 10, 10),
    ("at", Verb::At, 0, 10),
    ("push", Verb::Push, 16, 10),
    ("count", Verb::Count, 0, 10),
    ("key", Verb::Key, 16, 16),
    ("loadable", Verb::Loadable, 16, 16),
    ("text", Verb::Text, 16, 16),
    ("scan", Verb::Scan, 16, 16),
    ("segment", Verb::Segment, 0, 16),
    ("physical", Verb::Physical, 16, 16),
    ("set", Verb::Set, 0, 16),
    ("flags", Verb::Flags, 0, 16),
    ("clock", Verb::Clock, 10, 10),
];

/// The number that stands for no byte and no clock.
pub const NONE: u64 = 1 << 63;

/// Values that are no numbers, each with the one that stands for it.
static NAMES: [(&str, u64); 15] = [
    ("L", 0),
    ("H", 1),
    ("false", 0),
    ("true", 1),
    ("taken", 0),
    ("none", NONE),
    ("carry", 0),
    ("parity", 1),
    ("auxiliary", 2),
    ("zero", 3),
    ("sign", 4),
    ("trap", 5),
    ("interrupt", 6),
    ("direction", 7),
    ("overflow", 8),
];

/// The verb of this name in a step, the radix of its place and that of its values (0 if it has none); `None` if no verb
/// has the name.
pub fn verb_of(name: &str) -> Option<(Verb, u32, u32)> {
    let (_, verb, place, value) = VERBS.iter().find(|form| form.0 == name)?;
    Some((*verb, *place, *value))
}

/// The number that a word of a step stands for: a name's, such as `H` or `none`, or digits of this radix (10 or 16),
/// followed by `L`, which adds nothing, or by `H`, which adds 100h, as a byte's value and a level together.
pub fn number(word: &str, radix: u32) -> Option<u64> {
    if let Some((_, value)) = NAMES.iter().find(|name| name.0 == word) {
        return Some(*value);
    }
    let (digits, level) = match word.strip_suffix('H') {
        Some(digits) => (digits, 0x100),
        None => (word.strip_suffix('L').unwrap_or(word), 0),
    };
    let number = if radix == 10 {
        digits.parse::<u64>()
    } else {
        u64::from_str_radix(digits, 16)
    };
    number.ok()?.checked_add(level)
}
