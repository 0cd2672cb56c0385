//! The laws of a journal: what a crash leaves of it at each moment, and what each act does to it.
ghost use Rattle.store_journal.specs.Begun.{AgainLaw, FreshLaw, NewGenerationLaw};
ghost use Rattle.store_journal.specs.Journaled.{CrashLaw, SettledLaw};
ghost use Rattle.store_journal.specs.Serving.{AppendLaw, BeginLaw, EitherLaw, FinishLaw, FurtherLaw, RestartLaw};
ghost use Rattle.store_journal.specs.Starting.{FindLaw, RefuseLaw};
ghost use Rattle.store_journal.specs.Steps.{AdmitLaw, FirstLaw, FrameLaw, NewLaw, OtherLaw, PartLaw, ReadLaw};
ghost use Rattle.store_journal.specs.Steps.{ResumeLaw, SyncLaw, TurnLaw, WholeLaw};

/// A crash leaves one of the logs that may be active: its checkpoint, all its durable records, and at most the one
/// unsynced record. Nothing is refused as corrupt. The exception is a checksum collision on torn data.
pub fn a_crash_leaves_one_log()
    ensures { CrashLaw }
{}

/// When everything is synced, no checksum collision is possible.
pub fn nothing_is_owed_to_chance_where_all_is_synced()
    ensures { SettledLaw }
{}

/// A written frame is the one that may be lost until its sync, also if its write failed.
pub fn a_frame_is_loose_until_its_sync()
    ensures { FrameLaw }
{}

/// A sync makes all frames durable.
pub fn a_sync_keeps_all()
    ensures { SyncLaw }
{}

/// After CURRENT is replaced by one that names a log, only that log may be active. If replacing it failed, the same
/// logs as before may be active.
pub fn a_turn_decides_which_log_counts()
    ensures { TurnLaw }
{}

/// A complete log may be added to those that may be active.
pub fn a_whole_log_may_count()
    ensures { AdmitLaw }
{}

/// Acts on the inactive file leave the journal unchanged.
pub fn the_other_file_is_not_looked_at()
    ensures { OtherLaw }
{}

/// The first part of a checkpoint is written over any bytes.
pub fn the_first_part_is_alone()
    ensures { FirstLaw }
{}

/// Each further part is written after the others.
pub fn a_part_follows_the_others()
    ensures { PartLaw }
{}

/// A complete checkpoint that is synced is a log.
pub fn a_checkpoint_that_is_synced_is_a_log()
    ensures { WholeLaw }
{}

/// A folder in which nothing was ever done is a journal.
pub fn a_new_folder_is_a_journal()
    ensures { NewLaw }
{}

/// Reading leaves a journal.
pub fn reading_leaves_a_journal()
    ensures { ReadLaw }
{}

/// After its last frame is written again, what a start found is a journal again.
pub fn what_is_written_again_goes_on()
    ensures { ResumeLaw }
{}

/// After `append` and `mark` the frame is durable. If the disk fails it may be lost.
pub fn what_is_appended_is_kept()
    ensures { AppendLaw }
{}

/// `begin` leaves the active log unchanged.
pub fn a_checkpoint_that_is_begun_leaves_the_log()
    ensures { BeginLaw }
{}

/// `part` leaves the active log unchanged.
pub fn a_further_part_leaves_the_log()
    ensures { FurtherLaw }
{}

/// After `finish` the new log is active. If the disk fails the old log is active, or either may be.
pub fn a_finished_checkpoint_counts()
    ensures { FinishLaw }
{}

/// If each read returns what the acts may have left, `load` gives one of the logs that may be active.
pub fn a_start_finds_one_of_the_logs()
    ensures { FindLaw }
{}

/// `load` fails only if the disk can't be read or an allocation fails.
pub fn a_start_is_never_refused()
    ensures { RefuseLaw }
{}

/// After `load`, `choose` and `resume` what was chosen is durable, and new records go after it. The exception is a
/// checksum collision on torn data.
pub fn a_start_goes_on_with_all()
    ensures { RestartLaw }
{}

/// No frame of a generation, nor of a later one, was ever written before that generation is begun.
pub fn a_generation_that_is_begun_is_new()
    ensures { NewGenerationLaw }
{}

/// Each call keeps the next generation unused, also if the disk fails.
pub fn each_call_leaves_the_next_generation_new()
    ensures { FreshLaw }
{}

/// A start keeps the next generation unused.
pub fn a_start_leaves_the_next_generation_new()
    ensures { AgainLaw }
{}

/// The order of two logs that may be active is irrelevant.
pub fn either_may_be_named_first()
    ensures { EitherLaw }
{}
