//! Laws that follow from the definitions alone.
ghost use Rattle.std.specs.Prelude.{◌≡◌, ◌+◌, ◌-◌, ◌^◌, ◌<◌, ℕ, min, List, ◌++◌, length, None, IsSome};
ghost use Rattle.std.specs.Map.{lookup};
ghost use Rattle.who_book.specs.Content.{Content};
ghost use Rattle.acl_list.specs.declared.answer.Summary.{Summary};
ghost use Rattle.node_tree.specs.World.{World};
ghost use Rattle.node_tree.specs.Judged.{Judged, KeepsJudged};
ghost use Rattle.access_rows.specs.declared.demand.Demand.{Demand};
ghost use Rattle.access_rows.specs.declared.demand.Demand.TheVariants.{Bits, Removal, ServerTime};
ghost use Rattle.access_guard.specs.declared.memory.Key.{Key};
ghost use Rattle.access_guard.specs.Asker.{Asker, member_of};
ghost use Rattle.access_guard.specs.Keys.{is_key};
ghost use Rattle.access_guard.specs.Lists.{Lists};
ghost use Rattle.access_guard.specs.Memory.{Memory, Agrees, LooksUp, LooksUpAt, Decides, key_of};
ghost use Rattle.access_guard.specs.History.{AreLookUps, looks_at, looks_for};
ghost use Rattle.access_guard.specs.SilentGrants.{IsAllowed, IsQuiet, AreHits};

/// A change of the tree that keeps the access attributes of old stamps keeps the agreement with the remembered
/// summaries. Every change of a tree does that.
pub fn changes_keep_agreement()
    ensures { (remembered : List (Key × Summary)) (book : Content) (epoch : ℕ) (old new : World) → KeepsJudged old new →
        Agrees remembered book epoch old → Agrees remembered book epoch new }
{}

/// Another book with the next epoch keeps the agreement, whatever its content: no look-up under it finds an old
/// summary.
pub fn reloads_keep_agreement()
    ensures agrees { (remembered : List (Key × Summary)) (old new : Content) (epoch : ℕ) (w : World) →
        Agrees remembered old epoch w → Agrees remembered new (epoch + 1) w }
    ensures anew { (remembered : List (Key × Summary)) (old : Content) (epoch : ℕ) (w : World)
        → Agrees remembered old epoch w →
        (j : Judged) (asker : Asker) → asker.epoch ≡ epoch + 1 → lookup (is_key (key_of j asker)) remembered ≡ None }
{}

/// The summaries that are remembered after any list of calls are those after their look-ups, one after another.
pub fn calls_are_their_look_ups()
    ensures decision { (lists : Lists) (asker : Asker) (demand : Demand) (old new : Memory)
        → Decides lists asker demand old new →
        AreLookUps old.capacity (looks_for lists asker demand) old.remembered new.remembered
        × (new.capacity ≡ old.capacity) }
    ensures grants { (lists : Lists) (asker : Asker) (object : ℕ) (old new : Memory)
        → LooksUpAt lists asker object old new →
        AreLookUps old.capacity (looks_at lists asker object) old.remembered new.remembered
        × (new.capacity ≡ old.capacity) }
    ensures in_turn { (capacity : ℕ) (first second : List (Key × Summary)) (old between new : List (Key × Summary)) →
        AreLookUps capacity first old between → AreLookUps capacity second between new
        → AreLookUps capacity (first ++ second) old new }
{}

/// A look-up that finds no summary counts at least the whole access control list, and a look-up that finds one counts
/// nothing.
pub fn misses_are_counted()
    ensures miss { (j : Judged) (asker : Asker) (old new : Memory) → LooksUp j asker old new
        → lookup (is_key (key_of j asker)) old.remembered ≡ None →
        new.examined ≡ min (old.examined + length j.list) (2 ^ 64 - 1) }
    ensures hit { (j : Judged) (asker : Asker) (old new : Memory) → LooksUp j asker old new
        → IsSome (lookup (is_key (key_of j asker)) old.remembered) →
        new.examined ≡ old.examined }
{}

/// A granted decision whose look-ups are all hits, with none of its bits watched for success, examines no access
/// control entry. A removal that is granted by ADD_FILE alone is excepted.
pub fn quiet_hits_count_nothing()
    ensures bits { (lists : Lists) (asker : Asker) (object mask : ℕ) (old new : Memory) → mask < 2 ^ 32 →
        IsAllowed lists (member_of asker) (Bits object mask) → IsQuiet lists (member_of asker) (Bits object mask)
        → AreHits (looks_for lists asker (Bits object mask)) old.remembered →
        Decides lists asker (Bits object mask) old new → new.examined ≡ old.examined }
    ensures removal { (lists : Lists) (asker : Asker) (parent target : ℕ) (old new : Memory) →
        IsAllowed lists (member_of asker) (Removal parent target)
        → IsQuiet lists (member_of asker) (Removal parent target)
        → AreHits (looks_for lists asker (Removal parent target)) old.remembered →
        Decides lists asker (Removal parent target) old new → new.examined ≡ old.examined }
    ensures server_time { (lists : Lists) (asker : Asker) (object : ℕ) (old new : Memory) →
        IsAllowed lists (member_of asker) (ServerTime object) → IsQuiet lists (member_of asker) (ServerTime object)
        → AreHits (looks_for lists asker (ServerTime object)) old.remembered →
        Decides lists asker (ServerTime object) old new → new.examined ≡ old.examined }
{}
