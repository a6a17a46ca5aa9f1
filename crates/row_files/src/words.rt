//! The words of a row, one after the other.

/// The words that are still to be read, with one blank between two of them. Two blanks have an empty word between them.
#[derive(Drop)]
pub struct Words<'a> {
    rest: Option<&'a str>,
}

impl<'a> Words<'a> {
    /// The words of a row, from its first on.
    pub fn new(row: &'a str) -> Self {
        Words { rest: Some(row) }
    }

    /// The next word; `None` after the last.
    pub fn word(&mut self) -> Option<&'a str> {
        let rest = self.rest?;
        match rest.split_once(" ") {
            Some((word, later)) => {
                self.rest = Some(later);
                Some(word)
            }
            None => {
                self.rest = None;
                Some(rest)
            }
        }
    }

    /// The next word as a number of 32 bits with sign; `None` where it is none or there is no word.
    pub fn int(&mut self) -> Option<i32> {
        self.word()?.parse::<i32>().ok()
    }

    /// The next word as a number of 64 bits with sign; `None` where it is none or there is no word.
    pub fn long(&mut self) -> Option<i64> {
        self.word()?.parse::<i64>().ok()
    }

    /// The next word as a number of 32 bits without sign; `None` where it is none or there is no word.
    pub fn number(&mut self) -> Option<u32> {
        self.word()?.parse::<u32>().ok()
    }

    /// The next word as a number of 64 bits without sign; `None` where it is none or there is no word.
    pub fn place(&mut self) -> Option<u64> {
        self.word()?.parse::<u64>().ok()
    }
}

/// Bytes as a word: `-` for none, and `?` where they are no UTF-8.
pub fn word_of(bytes: &[u8]) -> &str {
    if bytes.is_empty() {
        return "-";
    }
    match str::from_utf8(bytes) {
        Ok(word) => word,
        Err(_) => "?",
    }
}
