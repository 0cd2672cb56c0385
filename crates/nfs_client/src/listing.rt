//! Lines of a listing.
ghost use Rattle.std.specs.Prelude.{◌≡◌, ◌++◌, ◌∷◌, [], ℕ, List, Some, All, OnOk, option_map};
ghost use Rattle.std.specs.List.{flat_map};
ghost use Rattle.nfs_client.specs.Lines.{kind_text, text_column, mode_column, size_column, columns, line, column_end};
ghost use Rattle.nfs_client.specs.Lines.{line_end, has_zero, is_torn, line_with, lines_of, columns_of, parts, IsSize};
ghost use Rattle.nfs_client.specs.Lines as lines;
ghost use Rattle.nfs_client.specs.declared.listing.Ends.TheVariants as ends;

use crate::modes::mode_text;
use itoa::Buffer;
use std::alloc::{AllocError, Allocator};

/// The column of an unknown attribute.
const UNKNOWN: &[u8] = b"?";

/// The known attributes of an entry of a directory.
#[derive(Clone, Copy)]
pub struct Listed<'a> {
    /// The type, `nfs_ftype4`.
    pub kind: Option<u32>,
    pub mode: Option<u32>,
    pub owner: Option<&'a [u8]>,
    pub group: Option<&'a [u8]>,
    /// The size in bytes.
    pub size: Option<u64>,
    pub name: &'a [u8],
}

/// Which bytes end the columns and the lines of a listing.
#[derive(Clone, Copy, Debug)]
pub(crate) enum Ends {
    /// A space between two columns, and a newline after a line. A name may have both.
    Blanks,
    /// A zero byte after each column. No column has one.
    Zeros,
}

impl Ends {
    /// The byte between two columns.
    fn column(self) -> u8
        ensures { result ≡ column_end self }
    {
        match self {
            Ends::Blanks => b' ',
            Ends::Zeros => 0,
        }
    }

    /// The byte after a line.
    pub(crate) fn line(self) -> u8
        ensures { result ≡ line_end self }
    {
        match self {
            Ends::Blanks => b'\n',
            Ends::Zeros => 0,
        }
    }
}

/// Appends a column and this byte after it.
fn put_column<A: Allocator>(out: &mut Vec<u8, A>, text: &[u8], end: u8) -> Result<(), AllocError>
    ensures { OnOk result (out.new.items ≡ out.old.items ++ (text.now ++ end ∷ [])) }
{
    out.extend_from_slice(text)?;
    out.extend_from_slice(&[end])
}

/// The letter of a type.
fn kind_text(kind: Option<u32>) -> &'static [u8]
    ensures { result.now ≡ kind_text kind }
{
    match kind {
        Some(1) => b"-",
        Some(2) => b"d",
        Some(5) => b"l",
        _ => UNKNOWN,
    }
}

fn put_mode<A: Allocator>(
    out: &mut Vec<u8, A>,
    mode: Option<u32>,
    end: u8,
) -> Result<(), AllocError>
    ensures { OnOk result (out.new.items ≡ out.old.items ++ (mode_column mode ++ end ∷ [])) }
{
    match mode {
        Some(mode) => put_column(out, &mode_text(mode), end),
        None => put_column(out, UNKNOWN, end),
    }
}

fn put_text<A: Allocator>(
    out: &mut Vec<u8, A>,
    text: Option<&[u8]>,
    end: u8,
) -> Result<(), AllocError>
    ensures { OnOk result (out.new.items ≡ out.old.items ++
        (text_column (option_map (λ t. t.now) text.entry) ++ end ∷ [])) }
{
    match text {
        Some(text) => put_column(out, text, end),
        None => put_column(out, UNKNOWN, end),
    }
}

fn put_size<A: Allocator>(
    out: &mut Vec<u8, A>,
    size: Option<u64>,
    end: u8,
) -> Result<(), AllocError>
    ensures { OnOk result (out.new.items ≡ out.old.items ++ (size_column size ++ end ∷ [])) }
{
    match size {
        Some(size) => put_column(out, Buffer::new().format(size).as_bytes(), end),
        None => put_column(out, UNKNOWN, end),
    }
}

/// Whether a known text has a zero byte in it.
fn has_zero(text: Option<&[u8]>) -> bool
    ensures { result ≡ has_zero (text_column (option_map (λ t. t.now) text.entry)) }
{
    match text {
        Some(text) => text.contains(&0),
        None => false,
    }
}

impl Listed<'_> {
    ghost use Rattle.nfs_client.specs.LineViews.{listed};

    /// Whether a column has the byte that ends columns, if no column may have it.
    pub(crate) fn is_torn(&self, ends: Ends) -> bool
        ensures { result ≡ is_torn ends (listed self.now) }
    {
        match ends {
            Ends::Blanks => false,
            Ends::Zeros => {
                has_zero(self.owner) || has_zero(self.group) || has_zero(Some(self.name))
            }
        }
    }

    /// Appends the columns, with their end between two.
    pub(crate) fn put_with<A: Allocator>(
        &self,
        out: &mut Vec<u8, A>,
        ends: Ends,
    ) -> Result<(), AllocError>
        ensures { OnOk result (out.new.items ≡ out.old.items ++ columns (column_end ends) (listed self.now)) }
    {
        let end = ends.column();
        put_column(out, kind_text(self.kind), end)?;
        put_mode(out, self.mode, end)?;
        put_text(out, self.owner, end)?;
        put_text(out, self.group, end)?;
        put_size(out, self.size, end)?;
        out.extend_from_slice(self.name)
    }

    /// Appends the line: type, mode, owner, group, size and name, with a space between two. `?` is an unknown
    /// attribute.
    pub fn put<A: Allocator>(&self, out: &mut Vec<u8, A>) -> Result<(), AllocError>
        ensures { OnOk result (out.new.items ≡ out.old.items ++ line (listed self.now)) }
    {
        self.put_with(out, Ends::Blanks)
    }
}

/// The columns of entries are unambiguous by the zero byte after each, whatever bytes names and owners have.
pub fn columns_are_unambiguous()
    ensures { (ls : List lines.Listed) (text : List ℕ) → All (λ l. IsSize l.size) ls →
        lines_of 0 (line_with ends.Zeros) ls ≡ Some text → parts text ≡ flat_map columns_of ls }
{}
