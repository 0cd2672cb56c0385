//! Tests of `rpc_record`: streams, calls, callers and replies, with values of the standard's words or counted by hand.

mod answers;
mod callers;
mod calling;
mod calls;
mod cases;
mod connection;
mod replies;
mod rooms;
mod streams;
mod words;
