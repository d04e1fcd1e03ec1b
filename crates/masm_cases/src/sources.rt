//! The texts of a case.
use anyhow::Result;
use masm_text::place::Text;
use std::alloc::Global;

/// The texts of a case: the source, and after each `##` a name, a line feed and a text that may be included. `text` has
/// line feeds as they are.
pub fn texts_of<'a>(alloc: Global, text: &'a str) -> Result<Vec<Text<'a>>> {
    let mut texts = Vec::new(alloc);
    for part in text.split("##") {
        let (name, bytes) = match part.split_once('\n') {
            Some((name, bytes)) if !texts.is_empty() => (name, bytes),
            _ => ("", part),
        };
        texts.push(Text {
            name: name.as_bytes(),
            bytes: bytes.as_bytes(),
        })?;
    }
    Ok(texts)
}
