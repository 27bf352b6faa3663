/// Why bytes are no text.
#[derive(Debug, Drop)]
pub enum NotUtf8 {
    Byte { at: usize },
    Memory,
}

/// Why bytes are no name.
#[derive(Debug, Drop)]
pub enum BadName {
    NotAName,
    Memory,
}
