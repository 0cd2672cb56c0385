//! Turns of a server that are stored whole or not at all, and restarts between them.
ghost use Rattle.std.specs.Prelude.{◌≡◌, ℕ, List};
ghost use Rattle.session_slots.specs.Acting.{ActsOnce};
ghost use Rattle.session_laws.specs.Turns.{Server, Event, Steps, begun, stores_turns};
ghost use Rattle.session_laws.specs.WrongRules.{IsMadeOf, counts, does_nothing};
ghost use Rattle.session_laws.specs.WrongRules.{forgets_calls, forgets_slots};

use session_slots::World;

/// Calls arrive in turns on many slots that change one world, and the server restarts at any time between turns. The
/// calls in effect, of all slots, made the world from the first one. Each of them ran once and in turn, and of each
/// slot no sequence ID occurs twice. The next sequence ID of a slot is new (`once`). Between two turns the world is as
/// it is stored (`stored`).
///
/// Two things are assumed. A turn is stored with all slots before its replies are sent, except in one case: each of its
/// calls left the world unchanged, each slot is near, and the turn has fewer than 2^20 calls. A client sends the next
/// sequence ID of a slot, or that of the slot's last call again.
#[tactic(auto, using(crate::proofs::Turning::acts_once, crate::proofs::Turning::is_stored))]
pub fn what_turns_change_acts_once<W: World>()
    ensures once { (events : List Event) (first : W) (last : Server W) →
        Steps (stores_turns W) W.run events (begun first) last → ActsOnce W.run first last.now }
    ensures stored { (events : List Event) (first : W) (last : Server W) →
        Steps (stores_turns W) W.run events (begun first) last → last.stored ≡ last.now.world }
{}

/// The law is false for a server that stores the world without the slots (`forgets_slots`): a call that is in effect
/// once was run twice.
#[tactic(auto, using(crate::proofs::Forgetting::slots_are_lost))]
pub fn a_rule_that_forgets_slots_acts_twice()
    ensures { ((events : List Event) (last : Server ℕ) →
        Steps (forgets_slots ℕ) counts events (begun 0) last →
        IsMadeOf counts 0 last.now.calls last.now.world) → ⊥ }
{}

/// The law is false for a server that lets a slot lag by 2^20 calls (`forgets_calls`): the next sequence ID of the slot
/// isn't new.
#[tactic(auto, using(crate::proofs::Forgetting::calls_are_refused))]
pub fn a_rule_that_forgets_calls_refuses_them()
    ensures { ((events : List Event) (last : Server (Unit {0})) →
        Steps (forgets_calls (Unit {0})) does_nothing events (begun tt) last →
        ActsOnce does_nothing tt last.now) → ⊥ }
{}
