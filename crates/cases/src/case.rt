//! A case, as its lines come.
use std::alloc::{AllocError, Global};

/// A case as far as it is read.
#[derive(Drop)]
pub struct Case {
    /// Empty before its first line.
    pub text: String,
    /// Which line its first one is, from 1.
    pub number: usize,
}

impl Case {
    /// A case of which no line has been read, with which `judge_from` begins; it is filled line by line.
    pub fn new(alloc: Global) -> Case {
        Case {
            text: String::new(alloc),
            number: 0,
        }
    }

    /// Adds a line of input, joined to the one before if that ended with `\`. Returns whether the case is whole and can
    /// be judged: not after a line that ends with `\`, nor after a blank line or a remark (`#`) between cases, which
    /// adds nothing.
    pub fn add_line(&mut self, number: usize, line: &str) -> Result<bool, AllocError> {
        let mut line = line;
        if self.text.is_empty() {
            if line.trim().is_empty() || line.starts_with('#') {
                return Ok(false);
            }
            self.number = number;
        } else {
            line = line.trim_start();
        }
        match line.strip_suffix('\\') {
            Some(front) => {
                self.text.push_str(front)?;
                Ok(false)
            }
            None => {
                self.text.push_str(line)?;
                Ok(true)
            }
        }
    }
}
