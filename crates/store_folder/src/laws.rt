//! The law of preallocation.
ghost use Rattle.store_folder.specs.Rooms.{RoomLaw};

/// Room is preallocated in a file only by a sync after something was written to it.
pub fn room_is_made_where_bytes_were_written()
    ensures { RoomLaw }
{}
