//! The words of a line.
use std::alloc::{AllocError, Global};

/// The open quote, and the characters that are literal in it:
#[derive(Clone, Copy)]
enum Quote {
    /// `'`: all but a `'`.
    Single,
    /// `"`: all but a `"` and a backslash.
    Double,
}

/// The words of a line, up to the last character that was read.
#[derive(Drop)]
struct Words {
    alloc: Global,
    words: Vec<String>,
    /// The word that isn't complete.
    word: Option<String>,
    quote: Option<Quote>,
    /// Whether the next character is literal.
    is_escaped: bool,
}

impl Words {
    /// Puts a character into the word, which is begun if it isn't yet.
    fn put(&mut self, letter: char) -> Result<(), AllocError> {
        self.begin();
        match &mut self.word {
            Some(word) => word.push(letter),
            None => Ok(()),
        }
    }

    /// Begins a word if none is begun.
    fn begin(&mut self) {
        if self.word.is_none() {
            self.word = Some(String::new(self.alloc));
        }
    }

    /// Ends the word, if any.
    fn end(&mut self) -> Result<(), AllocError> {
        if let Some(word) = self.word.take() {
            self.words.push(word)?;
        }
        Ok(())
    }

    /// Opens a quote.
    fn open(&mut self, quote: Quote) {
        self.begin();
        self.quote = Some(quote);
    }

    /// Makes the next character literal, even a space or a quote.
    fn escape(&mut self) {
        self.begin();
        self.is_escaped = true;
    }

    /// Takes the next character outside quotes.
    fn take_plain(&mut self, letter: char) -> Result<(), AllocError> {
        if letter == ' ' || letter == '\t' {
            return self.end();
        }
        if letter == '\'' {
            self.open(Quote::Single);
            return Ok(());
        }
        if letter == '"' {
            self.open(Quote::Double);
            return Ok(());
        }
        if letter == '\\' {
            self.escape();
            return Ok(());
        }
        self.put(letter)
    }

    /// Takes the next character within `'`.
    fn take_single(&mut self, letter: char) -> Result<(), AllocError> {
        if letter == '\'' {
            self.quote = None;
            return Ok(());
        }
        self.put(letter)
    }

    /// Takes the next character within `"`.
    fn take_double(&mut self, letter: char) -> Result<(), AllocError> {
        if letter == '"' {
            self.quote = None;
            return Ok(());
        }
        if letter == '\\' {
            self.escape();
            return Ok(());
        }
        self.put(letter)
    }

    /// Takes the next character.
    fn take(&mut self, letter: char) -> Result<(), AllocError> {
        if self.is_escaped {
            self.is_escaped = false;
            return self.put(letter);
        }
        match self.quote {
            None => self.take_plain(letter),
            Some(Quote::Single) => self.take_single(letter),
            Some(Quote::Double) => self.take_double(letter),
        }
    }
}

/// The words of a line, with spaces and tabs between them. Within `'` every character is literal,
/// and within `"` every one but a backslash. After a backslash the next character is literal.
/// `None`: a quote isn't closed, or nothing comes after a backslash.
pub(crate) fn words_in(alloc: Global, line: &str) -> Result<Option<Vec<String>>, AllocError> {
    let mut read = Words {
        alloc,
        words: Vec::new(alloc),
        word: None,
        quote: None,
        is_escaped: false,
    };
    for letter in line.chars() {
        read.take(letter)?;
    }
    read.end()?;
    let is_whole = read.quote.is_none() && !read.is_escaped;
    Ok(is_whole.then_some(read.words))
}
