//! The options of a call: those of its words, and those that the environment or a book gives.
use crate::person::{NoPerson, Person};
use std::alloc::{AllocError, Global};
use std::env;
use std::env::VarError;
use std::rt::Env;

/// The options that the environment gives if a call doesn't, with the variable of each.
const GIVEN: [(&str, &str); 6] = [
    ("--host", "NFSC_HOST"),
    ("--port", "NFSC_PORT"),
    ("--uid", "NFSC_UID"),
    ("--gid", "NFSC_GID"),
    ("--book", "NFSC_BOOK"),
    ("--as", "NFSC_AS"),
];

/// The rest of a word after an option: nothing, or its value after `=`. `None`: the word isn't this
/// option.
fn value_after<'a>(word: &'a str, option: &str) -> Option<&'a str> {
    let rest = word.strip_prefix(option)?;
    (rest.is_empty() || rest.starts_with('=')).then_some(rest)
}

/// The value of this option among the words before the command, after the program's name. Each
/// option has a value, as its next word or after `=`. `None`: the option is missing, or has no
/// value.
fn value_of<'a>(words: &'a [String], option: &str) -> Option<&'a str> {
    let mut is_value = true;
    let mut is_asked = false;
    for word in words {
        if is_value {
            if is_asked {
                return Some(word.as_str());
            }
            is_value = false;
        } else if let Some(rest) = value_after(word.as_str(), option) {
            if let Some(value) = rest.strip_prefix("=") {
                return Some(value);
            }
            is_value = true;
            is_asked = true;
        } else if !word.starts_with("--") || word.len() == 2 {
            return None;
        } else {
            is_value = !word.contains('=');
        }
    }
    None
}

/// A variable of the environment that gives an option.
#[derive(Drop)]
struct Variable {
    option: &'static str,
    name: &'static str,
    value: String,
}

/// The options of a call. One that the words don't have is that of its variable, if the environment
/// has it.
#[derive(Drop)]
pub(crate) struct Given<'a> {
    /// The words. The first is the program's name.
    words: &'a [String],
    /// The variables of options that the words don't have.
    variables: Vec<Variable>,
}

/// Whether the words determine an option without having it: `--uid` is the user, in place of any
/// name.
fn is_settled(words: &[String], option: &str) -> bool {
    value_of(words, option).is_some() || (option == "--as" && value_of(words, "--uid").is_some())
}

impl<'a> Given<'a> {
    /// The options of these words and of the environment.
    pub(crate) fn read<R: Env + Alloc>(
        rt: &R,
        alloc: Global,
        words: &'a [String],
    ) -> Result<Self, NoPerson> {
        let mut variables = Vec::new(alloc);
        for (option, name) in GIVEN {
            if !is_settled(words, option) {
                match env::var(rt, name) {
                    Ok(value) => {
                        let value = format!(in alloc; "{value}")?;
                        variables.push(Variable {
                            option,
                            name,
                            value,
                        })?;
                    }
                    Err(VarError::NotPresent) => {}
                    Err(VarError::NotUnicode) => return Err(NoPerson::Variable(name)),
                    Err(VarError::OutOfMemory) => return Err(NoPerson::Memory),
                }
            }
        }
        Ok(Given { words, variables })
    }

    /// The variable that gives an option.
    fn variable(&self, option: &str) -> Option<&Variable> {
        self.variables
            .iter()
            .find(|variable| variable.option == option)
    }

    /// The value of an option. `None`: neither the words nor the environment have it.
    pub(crate) fn value(&self, option: &str) -> Option<&str> {
        match self.variable(option) {
            Some(variable) => Some(variable.value.as_str()),
            None => value_of(self.words, option),
        }
    }

    /// Whether the words have an option.
    pub(crate) fn is_word(&self, option: &str) -> bool {
        value_of(self.words, option).is_some()
    }

    /// The variable that an option is from. `None`: it is from the words, or is missing.
    pub(crate) fn source(&self, option: &str) -> Option<&'static str> {
        let variable = self.variable(option)?;
        Some(variable.name)
    }

    /// Puts the options that the words don't have: those of a user by the book, and else those of
    /// the variables.
    fn put_others(
        &self,
        alloc: Global,
        person: Option<&Person>,
        all: &mut Vec<String>,
    ) -> Result<(), AllocError> {
        for (option, _) in GIVEN {
            if value_of(self.words, option).is_none() {
                if let Some(value) = self.other(alloc, option, person)? {
                    put(alloc, all, option, value.as_str())?;
                }
            }
        }
        if let Some(person) = person {
            if let Some(groups) = person.groups(alloc)? {
                put(alloc, all, "--groups", groups.as_str())?;
            }
        }
        Ok(())
    }

    /// The value of an option that the words don't have.
    fn other(
        &self,
        alloc: Global,
        option: &str,
        person: Option<&Person>,
    ) -> Result<Option<String>, AllocError> {
        if let Some(person) = person {
            if let Some(number) = person.number(option) {
                return Ok(Some(format!(in alloc; "{number}")?));
            }
        }
        match self.variable(option) {
            Some(variable) => Ok(Some(variable.value.clone()?)),
            None => Ok(None),
        }
    }

    /// The words of the call. After the program's name come the options that the words don't have.
    pub(crate) fn words(
        &self,
        alloc: Global,
        person: Option<&Person>,
    ) -> Result<Vec<String>, AllocError> {
        let mut all = Vec::new(alloc);
        for (index, word) in self.words.iter().enumerate() {
            all.push(word.clone()?)?;
            if index == 0 {
                self.put_others(alloc, person, &mut all)?;
            }
        }
        Ok(all)
    }

    /// The options that are from variables, with the variable of each.
    pub(crate) fn sources(
        &self,
        alloc: Global,
    ) -> Result<Vec<(&'static str, &'static str)>, AllocError> {
        self.variables
            .iter()
            .map(|variable| (variable.option, variable.name))
            .collect(alloc)
    }
}

/// Puts an option and its value, as one word.
fn put(alloc: Global, all: &mut Vec<String>, option: &str, value: &str) -> Result<(), AllocError> {
    all.push(format!(in alloc; "{option}={value}")?)?;
    Ok(())
}
