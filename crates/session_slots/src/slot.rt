//! A slot of a session (RFC 8881, section 2.10.6.1).
ghost use Rattle.std.specs.Prelude.{◌≡◌, ◌+◌, ◌%◌, ◌^◌, ◌≤◌, ◌<◌, ℕ, ◌==◌, if◌then◌else◌, length, Some, None, IfOk};
ghost use Rattle.std.specs.Prelude.{IfSome};
ghost use Rattle.std.specs.Option.{option_map};
ghost use Rattle.session_slots.specs.Counting as specs;
ghost use Rattle.session_slots.specs.Covering.{lagging};
ghost use Rattle.session_slots.specs.Slots.{Call, Cached, Place, number_of, turn_of, begun, finished, restored};
ghost use Rattle.session_slots.specs.Slots.{results_of, BeginsBy, KeepsByHistory};
ghost use Rattle.session_slots.specs.Views.{bytes_of, kept_of};

use crate::call_bytes::CallBytes;
use crate::limits::MOST_AHEAD;
use nfs_types::Status;
use rpc_record::Caller;
use std::alloc::{AllocError, Allocator, Global};
use std::marker::Model;

/// Whether a call on a slot is new.
#[derive(Clone, Copy, PartialEq, Eq)]
pub enum Turn {
    /// The call has the next sequence ID.
    New,
    /// The call is a retry of the last one.
    Repeat,
    /// The call is refused.
    Refused(Status),
}

/// The sequence ID of the next call.
pub fn due(last: u32) -> u32
    ensures { result ≡ specs.due last }
{
    last.wrapping_add(1)
}

/// Whether a new call may have this sequence ID after `last`, by whether the slot lags.
fn is_next(lags: bool, last: u32, number: u32) -> bool
    ensures { result ≡ specs.is_next lags last number }
{
    if !lags {
        return number == due(last);
    }
    let ahead = number.wrapping_sub(last);
    ahead >= 1 && ahead <= MOST_AHEAD
}

/// The last call of a slot, with its results, as it is stored.
#[derive(Clone, Copy)]
pub struct CachedCall<'a> {
    /// The sequence ID.
    pub number: u32,
    /// The caller.
    pub caller: &'a Caller,
    /// The bytes after the call's header.
    pub arguments: &'a [u8],
    /// The results.
    pub results: &'a [u8],
}

/// A slot: the last call that it accepted, with its results. The room for them is reserved when the slot is created.
#[derive(Drop)]
pub struct Slot<A: Allocator = Global> {
    // the sequence ID and the caller; `None`: no call was accepted
    last: Option<(u32, Caller)>,
    arguments: Vec<u8, A>,
    results: Vec<u8, A>,
    most_arguments: usize,
    most_results: usize,
    // the slot is of before a restart, and has accepted no call since
    lags: bool,
}

impl<A: Allocator> Model for Slot<A> {
    ghost use Rattle.std.specs.Prelude.{◌≤◌, vec_len, vec_capacity};
    ghost use Rattle.std.specs.Option.{option_map};
    ghost use Rattle.session_slots.specs.Slots.{Place};

    ghost Value = { Place };

    ghost view = { λ s. record {
      kept =
          option_map (λ last. record {
            call = record { number = last.0; caller = last.1; arguments = s.arguments.items };
            results = s.results.items;
          }) s.last;
      most_arguments = s.most_arguments;
      most_results = s.most_results;
      lags = s.lags;
    } };

    ghost invariant = { λ s. (s.most_arguments ≤ vec_capacity s.arguments) × (s.most_results ≤ vec_capacity s.results)
        × (vec_len s.arguments ≤ s.most_arguments) × (vec_len s.results ≤ s.most_results) };
}

impl<A: Allocator + Copy> Slot<A> {
    /// A slot that caches no call, and lags or has accepted none. `Err`: the allocation of room for its calls and
    /// their results failed.
    pub fn new(
        alloc: A,
        lags: bool,
        most_arguments: usize,
        most_results: usize,
    ) -> Result<Self, AllocError>
        ensures { IfOk result (λ slot. slot ≡ record {
          kept = None;
          most_arguments = most_arguments;
          most_results = most_results;
          lags = lags;
        }) }
    {
        Ok(Slot {
            last: None,
            arguments: Vec::with_capacity(alloc, most_arguments)?,
            results: Vec::with_capacity(alloc, most_results)?,
            most_arguments,
            most_results,
            lags,
        })
    }

    /// The results that the slot caches. None if it has accepted no call.
    pub fn results(&self) -> &[u8]
        ensures kept { result.now ≡ results_of self.now.kept }
        ensures few { length result.now ≤ self.now.most_results }
    {
        match &self.last {
            Some(_) => &self.results,
            None => &[],
        }
    }

    /// The sequence ID of the last call. 0 if none is cached.
    pub fn last_number(&self) -> u32
        ensures { result ≡ specs.last_number number_of self.now.kept }
    {
        match &self.last {
            Some((last, _)) => *last,
            None => 0,
        }
    }

    /// Makes the slot lag: it may have accepted calls after the cached one, as after a restart.
    pub fn lag(&mut self)
        ensures { self.new ≡ lagging self.old }
    {
        self.lags = true;
    }

    /// Whether a call is new, a retry of the last one, or refused.
    fn turn(&self, number: u32, arguments: CallBytes<'_>, caller: &Caller) -> Turn
        ensures { result ≡ turn_of self.now.lags self.now.kept (record {
          number = number;
          caller = caller.now;
          arguments = bytes_of arguments.entry;
        }) }
    {
        if is_next(self.lags, self.last_number(), number) {
            return Turn::New;
        }
        let Some((last, sender)) = &self.last else {
            return Turn::Refused(Status::SeqMisordered);
        };
        if number != *last {
            return Turn::Refused(Status::SeqMisordered);
        }
        if arguments.are(self.arguments.as_slice()) && *caller == *sender {
            return Turn::Repeat;
        }
        Turn::Refused(Status::SeqFalseRetry)
    }

    /// Begins a call, as [`Slot::begin`] does.
    fn take(&mut self, number: u32, arguments: CallBytes<'_>, caller: &Caller) -> Turn
        requires { length (bytes_of arguments) ≤ self.old.most_arguments }
        ensures turn { result ≡ turn_of self.old.lags self.old.kept (record {
          number = number;
          caller = caller.now;
          arguments = bytes_of arguments.entry;
        }) }
        ensures begun { self.new ≡ begun self.old (record {
          number = number;
          caller = caller.now;
          arguments = bytes_of arguments.entry;
        }) }
    {
        let turn = self.turn(number, arguments, caller);
        if let Turn::New = turn {
            self.last = Some((number, *caller));
            self.arguments.clear();
            self.arguments.extend_from_slice(arguments.prefix).unwrap();
            self.arguments.extend_from_slice(arguments.back).unwrap();
            self.results.clear();
            self.lags = false;
        }
        turn
    }

    /// Begins a call: a new call is cached, with no results yet. It allocates no memory.
    ///
    /// For every history of calls that the slot represented, the call gets that history's result. The slot then
    /// represents the history with the call. If the slot lags, it represents only those of these histories in which
    /// the call is next.
    #[tactic(auto, using(crate::proofs::Lagging::begins_by))]
    pub fn begin(&mut self, number: u32, arguments: CallBytes<'_>, caller: &Caller) -> Turn
        requires { length (bytes_of arguments) ≤ self.old.most_arguments }
        ensures turn { result ≡ turn_of self.old.lags self.old.kept (record {
          number = number;
          caller = caller.now;
          arguments = bytes_of arguments.entry;
        }) }
        ensures begun { self.new ≡ begun self.old (record {
          number = number;
          caller = caller.now;
          arguments = bytes_of arguments.entry;
        }) }
        ensures by_history { BeginsBy self.old.lags self.old.kept self.new
            (record { number = number; caller = caller.now; arguments = bytes_of arguments.entry }) result }
    {
        self.take(number, arguments, caller)
    }

    /// Caches the results of the newest call, as [`Slot::keep`] does.
    fn put(&mut self, results: &[u8])
        requires { length results.now ≤ self.old.most_results }
        ensures { self.new ≡ finished self.old results.now }
    {
        self.results.clear();
        self.results.extend_from_slice(results).unwrap();
    }

    /// Caches the results of the newest call. It allocates no memory.
    #[tactic(auto, using(crate::proofs::Histories::keeps_by_history))]
    pub fn keep(&mut self, results: &[u8])
        requires { length results.now ≤ self.old.most_results }
        ensures finished { self.new ≡ finished self.old results.now }
        ensures by_history { KeepsByHistory self.old.kept self.new.kept results.now }
    {
        self.put(results);
    }

    /// The last call, with its results. `None`: no call is cached.
    pub fn kept(&self) -> Option<CachedCall<'_>>
        ensures kept { option_map kept_of result ≡ self.now.kept }
        ensures few { IfSome result (λ k. (length k.arguments.now ≤ self.now.most_arguments) ×
            (length k.results.now ≤ self.now.most_results)) }
    {
        match &self.last {
            Some((number, caller)) => Some(CachedCall {
                number: *number,
                caller,
                arguments: &self.arguments,
                results: &self.results,
            }),
            None => None,
        }
    }

    /// Caches a call of before a restart as the last one. The slot lags. It allocates no memory.
    pub fn restore(&mut self, kept: CachedCall<'_>)
        requires arguments { length kept.arguments.now ≤ self.old.most_arguments }
        requires results { length kept.results.now ≤ self.old.most_results }
        ensures { self.new ≡ restored (kept_of kept.entry) self.old }
    {
        self.last = Some((kept.number, *kept.caller));
        self.arguments.clear();
        self.arguments.extend_from_slice(kept.arguments).unwrap();
        self.results.clear();
        self.results.extend_from_slice(kept.results).unwrap();
        self.lags = true;
    }
}
