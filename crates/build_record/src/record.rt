//! The record of a build. `./install` and `./try` write the revision into the copy of the tree that they build.
ghost use Rattle.std.specs.Prelude.{◌≡◌, length, take};
ghost use Rattle.build_record.specs.Release.{release};

/// The version, the revision of the sources, and whether the build is proved.
const RECORD: &str = "(Zoclesavory) 0.9, commit not recorded";

/// The version of the programs, the revision of their sources, and whether they are proved. It is the text that `clap`
/// prints after a program's name for `--version`. A build in a work tree has no record of its revision.
pub fn version() -> &'static str
    ensures { take (length release) result.now ≡ release }
{
    RECORD
}
