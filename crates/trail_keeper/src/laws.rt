//! Laws of the lines that are appended.
ghost use Rattle.trail_keeper.specs.Keeping.{KeptOnce};
ghost use Rattle.trail_keeper.specs.AppendedLines.{SettlingAdds, AppendsEach};

use std::io::Write;

/// If the first lines of a trail were seen, each later one is appended by its text, in order. If they are more than
/// 4,096, only the number of those before the last 4,096 is appended.
pub fn each_line_is_appended()
    ensures { AppendsEach }
{}

/// A log of some lines becomes the log of these and the next operation's.
pub fn settling_adds_lines()
    ensures { SettlingAdds }
{}

/// A keeper has appended the first lines of a trail, and is called when the trail has more. It appends each later line
/// once, in order. Then it has appended all lines. If the new lines are more than 4,096, it appends only the number of
/// those before the last 4,096. The calls of one keeper therefore account for each line of a trail, as long as they
/// succeed.
pub fn each_line_is_kept_once<W: Write>()
    ensures { KeptOnce W.contents }
{}
