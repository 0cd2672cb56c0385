//! Laws that tie reasons to the guard's decisions and lines.
ghost use Rattle.std.specs.Prelude.{◌≡◌, ℕ, Some};
ghost use Rattle.rpc_record.specs.Identity.{Identity};
ghost use Rattle.node_tree.specs.Judged.{Judged};
ghost use Rattle.access_rows.specs.declared.demand.Demand.TheVariants.{Bits, Removal};
ghost use Rattle.access_guard.specs.Lists.{Lists, names};
ghost use Rattle.access_guard.specs.Decisions.{decision};
ghost use Rattle.access_guard.specs.Lines.{lines};
ghost use Rattle.acl_reasons.specs.Reasons.{reason};
ghost use Rattle.acl_reasons.specs.Removals.{removal_reason};
ghost use Rattle.reason_laws.specs.Traced.{side_of, decided, decided_removal, traced};

/// The guard's decision on bits of an object follows from the reason of its access control list (ACL). Its DENY line
/// names the access control entry (ACE) or the bit of the reason.
pub fn reasons_are_decisions()
    ensures decision { (lists : Lists) (caller : Identity) (object mask : ℕ) (j : Judged) → lists object ≡ Some j →
        decision lists caller (Bits object mask) ≡ decided object mask (reason (names j caller) j.list mask) }
    ensures lines { (lists : Lists) (caller : Identity) (op object mask : ℕ) (j : Judged) → lists object ≡ Some j →
        lines lists caller op (Bits object mask) ≡ traced lists caller op (Bits object mask)
        (decided object mask (reason (names j caller) j.list mask)) }
{}

/// The guard's decision on a removal follows from its reason. Its DENY line names the object, the bit and the ACE of
/// the reason.
pub fn removal_reasons_are_decisions()
    ensures decision { (lists : Lists) (caller : Identity) (parent target : ℕ) (p t : Judged) →
        lists parent ≡ Some p → lists target ≡ Some t →
        decision lists caller (Removal parent target)
        ≡ decided_removal parent target (removal_reason (side_of p) (side_of t) caller) }
    ensures lines { (lists : Lists) (caller : Identity) (op parent target : ℕ) (p t : Judged) →
        lists parent ≡ Some p → lists target ≡ Some t →
        lines lists caller op (Removal parent target) ≡ traced lists caller op (Removal parent target)
        (decided_removal parent target (removal_reason (side_of p) (side_of t) caller)) }
{}
