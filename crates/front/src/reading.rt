/// The commands that change no directory.
static READERS: [&'static str; 17] = [
    "heads", "dump", "query", "notes", "export", "audit", "log", "show", "who", "diff", "draw",
    "page", "status", "schema", "records", "csv", "key",
];

/// Whether the first word is that of a command that changes no directory.
pub fn only_reads(words: &[String]) -> bool {
    match words.first() {
        Some(first) => READERS.iter().any(|reader| *reader == first.as_str()),
        None => false,
    }
}
