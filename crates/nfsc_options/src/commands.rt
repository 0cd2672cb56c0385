//! The commands of the client, as help lists them.

/// The commands, each with its words, its effect and an example, as the help of `nfsc` and of
/// `nfslab` lists them. The line of a command, and no other, begins with four spaces.
pub const COMMANDS: &str = "\
Commands, where P, OLD and NEW are paths: '/', or names each with '/' in front:

    ls P               lists a directory: kind, mode, owner, group, size, name    ls /
    cat P              prints the bytes of a file                                 cat /notes
    put P TEXT         makes TEXT the bytes of a file, which is made if need be   put /notes hi
    mkdir P            makes a directory                                          mkdir /docs
    ln OLD NEW         gives a file one more name                                 ln /notes /docs/memo
    mv OLD NEW         moves a name                                               mv /notes /docs/notes
    rm P               removes a name                                             rm /docs/memo
    chmod OCTAL P      sets the mode, of one to four octal digits                 chmod 0640 /notes
    getacl P           prints the access control list, an entry a line            getacl /notes
    setacl P ENTRY..   sets the access control list, of one entry or more         setacl /notes A:00:00000001:1001
    getdacl P          prints the entries that allow and deny                     getdacl /notes
    setdacl P ENTRY..  sets these alone, one or more                              setdacl /notes A:00:00000001:1001
    getsacl P          prints the entries that watch, by audit or alarm           getsacl /notes
    setsacl P ENTRY..  sets these alone, one or more                              setsacl /notes U:30:00000001:1001
    access P           prints which rights have a meaning, and which you have     access /notes

An entry is TYPE:FLAGS:MASK:WHO. TYPE is A (allow), D (deny), U (audit) or L (alarm); FLAGS are two
and MASK is eight hexadecimal digits; WHO is OWNER@, GROUP@, EVERYONE@, a number, or a name and the
domain of the book, as alice@example.org. A command whose answer has no text prints 'ok'.
What the server refuses prints 'refused OP STATUS', and any other fault 'failed N':
1 a path, 3 a reply, 4 reading, 5 writing, 6 memory, 7 a mode or an entry, 8 an earlier failure.";

/// The line of a command's name. `None`: the table doesn't have the name.
fn line_of(name: &str) -> Option<&'static str> {
    COMMANDS
        .lines()
        .filter_map(|line| line.strip_prefix("    "))
        .find(|line| line.split(' ').next() == Some(name))
}

/// The words of a command, its name first, as `mv OLD NEW`. `None`: no command has this name.
pub(crate) fn usage_of(name: &str) -> Option<&'static str> {
    let line = line_of(name)?;
    let (usage, _) = line.split_once("  ")?;
    Some(usage)
}
