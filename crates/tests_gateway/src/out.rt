//! `Out`: a text that is written part by part, for tests.
use std::alloc::Global;

/// A text that parts are added to. If a growth of memory was refused it is none.
#[derive(Drop)]
pub struct Out {
    /// The allocator of the text.
    alloc: Global,
    /// The parts so far.
    text: String,
    /// Whether a growth of memory was refused.
    is_refused: bool,
}

impl Out {
    pub fn new(alloc: Global) -> Out {
        Out {
            alloc,
            text: String::new(alloc),
            is_refused: false,
        }
    }

    pub fn alloc(&self) -> Global {
        self.alloc
    }

    /// There is no text, since memory was refused.
    pub fn refuse(&mut self) {
        self.is_refused = true;
    }

    pub fn put(&mut self, text: &str) {
        if self.text.push_str(text).is_err() {
            self.is_refused = true;
        }
    }

    /// Adds a number with a text after it.
    pub fn put_number(&mut self, number: usize, text: &str) {
        match format!(in self.alloc; "{number}{text}") {
            Ok(text) => self.put(&text),
            Err(_) => self.is_refused = true,
        }
    }

    /// Adds a text with a number after it, as a line.
    pub fn put_place(&mut self, text: &str, number: usize) {
        self.put(text);
        self.put_number(number, "\n");
    }

    /// Adds each line of a text after its mark.
    pub fn put_lines(&mut self, mark: &str, text: &str) {
        for line in text.split_inclusive('\n') {
            self.put(mark);
            self.put(line);
        }
        if !text.is_empty() && !text.ends_with('\n') {
            self.put(" (torn)\n");
        }
    }

    pub fn text(&self) -> &str {
        if self.is_refused {
            "memory was refused"
        } else {
            self.text.as_str()
        }
    }
}
