//! A case and its parts.

/// The line of a case.
#[derive(Clone, Copy)]
pub struct Case<'a> {
    pub text: &'a str,
}

impl<'a> Case<'a> {
    /// What follows this name in the first part of the case that begins with it, such as the program's `words`; `None`
    /// if there is no such part.
    pub fn part(self, name: &str) -> Option<&'a str> {
        for part in self.text.split(" ;; ") {
            let (first, rest) = part.split_once(' ').unwrap_or((part, ""));
            if first == name {
                return Some(rest);
            }
        }
        None
    }

    /// The number in the case's part of this name, such as the wanted `status`; `None` if there is no such part or
    /// number.
    pub fn count(self, name: &str) -> Option<u64> {
        self.part(name)?.parse::<u64>().ok()
    }

    /// The text of the file of this name that the case gives the program to open; `None` if it gives none.
    pub fn file(self, path: &str) -> Option<&'a str> {
        for part in self.text.split(" ;; ") {
            if let Some(("file", file)) = part.split_once(' ') {
                let (name, text) = file.split_once(' ').unwrap_or((file, ""));
                if name == path {
                    return Some(text);
                }
            }
        }
        None
    }
}
