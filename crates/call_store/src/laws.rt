//! The laws of a store: each is the contract of a function with an empty body.
ghost use Rattle.store_journal.specs.Journaled.{SettledLaw};
ghost use Rattle.call_store.specs.Crash.{CrashLaw, EmptyLaw, FinishedLaw, MoreLaw, WipedLaw};
ghost use Rattle.call_store.specs.Lasting.{CheckpointLaw, LastsLaw, NothingLaw, RecordLaw, StartLaw, TwiceLaw};
ghost use Rattle.call_store.specs.Moments.{BeginMomentsLaw, CloseMomentsLaw, KeepMomentsLaw, MarkMomentsLaw};
ghost use Rattle.call_store.specs.Moments.{OpenMomentsLaw};
ghost use Rattle.call_store.specs.Serving.{BeginLaw, CloseLaw, KeepLaw, MarkLaw, ServingLaw};
ghost use Rattle.call_store.specs.Starting.{OpenLaw};

/// Two starts from the same content replay to states that are alike: each covers the other.
pub fn two_starts_replay_to_states_alike()
    ensures { TwiceLaw }
{}

/// A record of what a server logged extends the content. It then represents the server after it. If nothing was logged,
/// the content as it is represents the server after it.
pub fn a_record_extends_the_store()
    ensures more { RecordLaw }
    ensures none { NothingLaw }
{}

/// A checkpoint of a server represents it.
pub fn a_checkpoint_represents_its_server()
    ensures { CheckpointLaw }
{}

/// A started server covers the one whose calls were kept, and the content represents it.
pub fn a_start_is_represented()
    ensures { StartLaw }
{}

/// A checkpoint of a started server covers it. Its sessions are persistent: they outlive a restart. Its book has an
/// epoch.
pub fn a_start_lasts()
    ensures { LastsLaw }
{}

/// Whatever a crash leaves, a start finds content that represents one of the states, and nothing is refused as corrupt.
/// The exception is a checksum collision. When everything is synced, this has no exception.
pub fn a_crash_leaves_a_represented_state()
    ensures crash { CrashLaw }
    ensures no_chance { SettledLaw }
{}

/// If some states are kept, each CURRENT that a crash may leave records that a checkpoint was finished. No start
/// therefore takes the store for a new one. After CURRENT was replaced by one without a finished checkpoint nothing is
/// kept.
pub fn what_is_kept_is_never_new()
    ensures finished { FinishedLaw }
    ensures wiped { WipedLaw }
{}

/// In a folder in which nothing was ever done no checkpoint was finished yet.
pub fn a_new_folder_has_no_checkpoint()
    ensures { EmptyLaw }
{}

/// Logs that represent some states also represent each list that has these states.
pub fn what_represents_some_represents_more()
    ensures { MoreLaw }
{}

/// The disk represents the state that a store keeps.
pub fn what_is_served_is_represented()
    ensures { ServingLaw }
{}

/// After `keep` the store keeps the state of the server. After a fault the disk represents that state, or the one
/// before.
pub fn what_was_logged_is_kept()
    ensures { KeepLaw }
{}

/// A mark changes nothing of what is kept.
pub fn a_mark_leaves_what_is_kept()
    ensures { MarkLaw }
{}

/// After `close` the store has no entries, and its checkpoint is of this machine.
pub fn a_closed_store_has_no_entries()
    ensures { CloseLaw }
{}

/// After `begin` the store keeps the state of its server.
pub fn a_new_store_keeps_its_server()
    ensures { BeginLaw }
{}

/// Over a disk that returns what its acts may have left, a start continues from one of the states that the disk
/// represents. It is refused only if the disk or an allocation fails. The exception is a checksum collision.
pub fn a_start_continues_a_represented_state()
    ensures { OpenLaw }
{}

/// A moment of a call is after each of its acts. At each moment the disk represents the state before the call or the
/// one after it. A crash therefore leaves one of the two. At no moment is a kept store replaced by a new one.
pub fn at_each_moment_the_disk_represents_one_of_the_two()
    ensures keep { KeepMomentsLaw }
    ensures mark { MarkMomentsLaw }
    ensures close { CloseMomentsLaw }
    ensures begin { BeginMomentsLaw }
{}

/// At each moment of a start the disk represents the same states as before. The exception is a checksum collision.
pub fn at_each_moment_of_a_start_the_disk_represents_the_same()
    ensures { OpenMomentsLaw }
{}
