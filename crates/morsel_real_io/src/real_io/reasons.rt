//! What standard error tells of a failure.

use std::alloc::{AllocError, Global};
use std::io;

/// The name and what the system said; `None` where there is no memory for it.
pub fn reason_of(alloc: Global, name: &str, error: &io::Error) -> Option<String> {
    let name = shown(alloc, name).ok()?;
    format!(in alloc; "{name}: {error}").ok()
}

/// The name with its control characters escaped, since a name may hold any of them: a reason is one line, and does nothing
/// to a terminal.
fn shown(alloc: Global, name: &str) -> Result<String, AllocError> {
    let mut text = String::new(alloc);
    for c in name.chars() {
        if c.is_control() {
            write!(text, "{}", c.escape_default())?;
        } else {
            text.push(c)?;
        }
    }
    Ok(text)
}

#[cfg(test)]
mod tests {
    use super::*;
    use std::test::Fail;

    #[test]
    fn control_characters_are_escaped_and_no_others(rt: HostRuntime) -> Result<(), Fail> {
        let cases = [
            ("plain.csv", "plain.csv"),
            ("", ""),
            ("two\nlines\r\t", "two\\nlines\\r\\t"),
            (
                "\u{0}\u{1b}[2J\u{7f}\u{9b}",
                "\\u{0}\\u{1b}[2J\\u{7f}\\u{9b}",
            ),
            ("Müller \\ 'a' \"b\" 日本", "Müller \\ 'a' \"b\" 日本"),
        ];
        for (name, wanted) in cases {
            assert_eq!(rt; shown(rt.alloc(), name)?.as_str(), wanted);
        }
        Ok(())
    }
}
