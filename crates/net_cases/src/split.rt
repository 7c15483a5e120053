// Texts in two parts.

// What stands before the first of a separator, and what follows it.
pub fn head_and_rest(text: &str, separator: char) -> (&str, &str) {
    text.split_once(separator).unwrap_or((text, ""))
}
