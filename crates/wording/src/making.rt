//! The page as it is made.

use crate::shown::is_hidden;
use std::alloc::{AllocError, Global};
use std::fmt::Display;

/// A text that is put together piece by piece. Once memory has run out it takes nothing more, and there is no text in the end.
#[derive(Drop)]
pub struct Page {
    text: String,
    is_short: bool,
}

impl Page {
    /// An empty page.
    pub fn new(alloc: Global) -> Page {
        Page {
            text: String::new(alloc),
            is_short: false,
        }
    }

    /// The text, unless memory ran out.
    pub fn finish(self) -> Result<String, AllocError> {
        if self.is_short {
            return Err(AllocError);
        }
        Ok(self.text)
    }

    /// Puts these words on the page.
    pub fn put(&mut self, words: &str) {
        self.is_short = self.is_short || self.text.push_str(words).is_err();
    }

    // Puts a letter on the page, or Rust's escape of it if it is hidden.
    fn letter(&mut self, letter: char) {
        if is_hidden(letter) {
            for escaped in letter.escape_default() {
                self.is_short = self.is_short || self.text.push(escaped).is_err();
            }
        } else {
            self.is_short = self.is_short || self.text.push(letter).is_err();
        }
    }

    /// Puts what this shows on the page.
    pub fn show<T: Display + Drop>(&mut self, shown: T) {
        self.is_short = self.is_short || write!(self.text, "{shown}").is_err();
    }

    /// Puts each of these words on the page.
    pub fn words(&mut self, words: &[&str]) {
        for word in words {
            self.put(word);
        }
    }

    /// Puts each of these words with its number on the page, and then the last word.
    pub fn parts(&mut self, parts: &[(&str, u64)], end: &str) {
        for (word, number) in parts {
            self.put(word);
            self.show(*number);
        }
        self.put(end);
    }

    /// Puts words that may hold anything on the page: hidden characters as Rust escapes them.
    pub fn shown(&mut self, words: &str) {
        for letter in words.chars() {
            self.letter(letter);
        }
    }

    /// The same for a page of XML: what that keeps for itself is escaped, and characters that it doesn't allow are left out.
    pub fn escaped(&mut self, words: &str) {
        for letter in words.chars() {
            match letter {
                '&' => self.put("&amp;"),
                '<' => self.put("&lt;"),
                '>' => self.put("&gt;"),
                '"' => self.put("&quot;"),
                '\u{fffe}' | '\u{ffff}' => {}
                letter if letter.is_control() => {}
                letter => self.letter(letter),
            }
        }
    }
}
