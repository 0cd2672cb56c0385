//! Remote procedure calls over a stream (RFC 5531): the records of a stream, the calls of NFS version 4 with their
//! callers, and the replies. A server reads calls and writes replies, and a client writes calls and reads replies.
#![tactic(auto)]

mod answered;
mod call;
mod caller;
mod calling;
mod credential;
mod framer;
mod group_set;
mod reading;
mod reply;

pub use answered::{
    ReplyFault, read_reply, results_follow_an_accepted_reply, what_is_replied_is_read,
};
pub use call::{Call, CallFault, Procedure};
pub use caller::{Caller, MOST_FURTHER, equal_callers_are_the_same, groups_are_a_set};
pub use calling::{CALL_HEADER_LIMIT, write_call};
pub use framer::{
    Framer, RECORD_LIMIT, Step, a_framer_has_read_the_rest, a_stream_has_one_cut, record_mark,
    records_of_a_growing_stream,
};
pub use group_set::{GroupSet, MOST_GROUPS};
pub use reading::read_call;
pub use reply::{AuthStat, REPLY_HEADER_LIMIT, Reply, write_reply};
