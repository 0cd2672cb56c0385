//! A table of names, found by name and by number.
ghost use Rattle.std.specs.Prelude.{◌≡◌, ◌⊎◌, ◌==◌, [], ◌∷◌, ◌++◌, if◌then◌else◌, ℕ, Option, None, Some, true, IsSome};
ghost use Rattle.std.specs.Prelude.{OnOk, IfOk, IfErr, option_map};
ghost use Rattle.std.specs.BTreeMap.{get};
ghost use Rattle.std.specs.List.{AllByRecursion};
ghost use Rattle.std.specs.Map.{keys_of};
ghost use Rattle.std.specs.Ordering.{nat_cmp};
ghost use Rattle.std.specs.Cmp.Lexicographic.{slice_cmp};
ghost use Rattle.std.specs.declared.cmp.Ordering.TheVariants.{Less};
ghost use Rattle.who_book.specs.Document.{is_table, naturals};
ghost use Rattle.who_book.specs.Indexes.{rows_in, name_in, Builds};
ghost use Rattle.who_book.specs.Names.{name_at, number_at, IsTable};
ghost use Rattle.who_book.specs.Outlines.{rows_of, IsAscending};
ghost use Rattle.who_book.specs.declared.fault.BookFault.TheVariants.{Twice, Memory};

use crate::fault::BookFault;
use crate::outline::Row;
use std::alloc::Global;
use std::collections::BTreeMap;
use std::marker::Model;

/// A table of names: no two rows have the same name, and no two have the same number.
#[derive(Drop)]
pub struct Names {
    /// The number of each name, by the bytes of the name.
    numbers: BTreeMap<Vec<u8>, u32>,
    /// The name of each number.
    names: BTreeMap<u32, String>,
}

impl Model for Names {
    ghost use Rattle.who_book.specs.Names.{Rows};
    ghost use Rattle.who_book.specs.Indexes.{rows_in, AreIndexes};

    ghost Value = { Rows };

    ghost view = { λ n. rows_in n.numbers.entries };

    ghost invariant = { λ n. AreIndexes n.numbers n.names };
}

impl Names {
    /// A table without names. The function allocates nothing.
    pub fn new(alloc: Global) -> Self
        ensures { result ≡ [] }
    {
        Names {
            numbers: BTreeMap::new(alloc),
            names: BTreeMap::new(alloc),
        }
    }

    /// The table of these rows. `Twice`: two of them have the same number.
    pub fn build(alloc: Global, rows: &[Row<'_>]) -> Result<Self, BookFault>
        requires in_range { is_table (rows_of rows.now) ≡ true }
        requires ascending { IsAscending (rows_of rows.now) }
        ensures built { Builds (naturals (rows_of rows.now)) result }
        ensures table { IfOk result IsTable }
    {
        let mut numbers = BTreeMap::new(alloc);
        let mut names = BTreeMap::new(alloc);
        for row in rows {
            let number = row.number();
            add_name(alloc, &mut names, number, row.name)?;
            add_number(alloc, &mut numbers, row.name, number)?;
        }
        Ok(Names { numbers, names })
    }

    /// The name of a number.
    pub fn name_of(&self, number: u32) -> Option<&str>
        ensures value { option_map (λ name. name.now) result ≡ name_at number self.now }
        ensures table { IsTable self.now }
    {
        match self.names.get(&number) {
            Some(name) => Some(name.as_str()),
            None => None,
        }
    }

    /// The number of a name, by its exact bytes.
    pub fn number_of(&self, name: &[u8]) -> Option<u32>
        ensures value { result ≡ number_at name.now self.now }
        ensures table { IsTable self.now }
    {
        self.numbers.get(name).copied()
    }
}

/// Adds the name of a number. `Twice`: the number has a name already.
fn add_name(
    alloc: Global,
    names: &mut BTreeMap<u32, String>,
    number: u32,
    name: &str,
) -> Result<(), BookFault>
    ensures absent { OnOk result (name_in names.old number ≡ None) }
    ensures added { OnOk result
        ((n : ℕ) → name_in names.new n ≡ (if number == n then Some name.now else name_in names.old n)) }
    ensures err { IfErr result (λ fault.
        (fault ≡ Memory) ⊎ ((fault ≡ Twice) × IsSome (name_in names.old number))) }
{
    let name = String::from_str(alloc, name)?;
    match names.insert(number, name)? {
        Some(_) => Err(BookFault::Twice),
        None => Ok(()),
    }
}

/// Adds the number of a name, which sorts after all names in the index.
fn add_number(
    alloc: Global,
    numbers: &mut BTreeMap<Vec<u8>, u32>,
    name: &str,
    number: u32,
) -> Result<(), BookFault>
    requires { AllByRecursion (λ key. slice_cmp nat_cmp key name.now ≡ Less) (keys_of (rows_in numbers.old.entries)) }
    ensures added { OnOk result (rows_in numbers.new.entries ≡ rows_in numbers.old.entries ++ (name.now, number) ∷ []) }
    ensures err { IfErr result (λ fault. fault ≡ Memory) }
{
    let key = Vec::from_slice(alloc, name.as_bytes())?;
    numbers.insert(key, number)?;
    Ok(())
}
