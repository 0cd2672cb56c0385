//! The field of an access control entry (ACE) that can't be read, and the texts that are valid in
//! it.
ghost use Rattle.std.specs.Prelude.{◌≡◌};
ghost use Rattle.acl_words.specs.Help as specs;

/// The first field of an ACE that can't be read, in this order.
#[derive(Clone, Copy, Debug, PartialEq, Eq)]
pub enum Field {
    /// The text has fewer than three colons.
    Form,
    /// The type isn't one of the four letters.
    EntryType,
    /// The flags aren't letters of flags.
    Flags,
    /// The permissions aren't letters or aliases of permissions, or numbers after a `+`.
    Permissions,
    /// The book doesn't have the user or the group.
    Principal,
}

impl Field {
    /// A text that states what is valid in the field.
    pub fn help(self) -> &'static str
        ensures { result.now ≡ specs.help_text self }
    {
        match self {
            Field::Form => {
                "an entry is TYPE:FLAGS:PRINCIPAL:PERMISSIONS, as in A:fd:alice@lab.example:rxtncy"
            }
            Field::EntryType => "TYPE is A (allow), D (deny), U (audit) or L (alarm)",
            Field::Flags => "FLAGS are some of f d n i S F g h, or none",
            Field::Permissions => {
                "PERMISSIONS are some of r w a D d x t T n N c C o y, R W X, +200 and +400, or none"
            }
            Field::Principal => {
                "PRINCIPAL is OWNER@, GROUP@, EVERYONE@, a name of the book, NAME@DOMAIN or a number; with g a group's"
            }
        }
    }
}
