//! Laws that tie the bits that access control entries (ACEs) decide to the verdict.
ghost use Rattle.std.specs.Prelude.{◌≡◌, ◌↔◌, ℕ, ◌^◌, ◌<◌, ◌&&◌, ◌||◌, Bool, true, List, IsSomeAnd, slice_get};
ghost use Rattle.acl_list.specs.Mask.{has_bit};
ghost use Rattle.acl_list.specs.Verdicts.{verdict};
ghost use Rattle.acl_list.specs.declared.answer.Verdict.TheVariants as verdicts;
ghost use Rattle.acl_list.specs.declared.entry.Entry.{Entry};
ghost use Rattle.acl_list.specs.declared.entry.EntryKind.TheVariants.{Allow, Deny};
ghost use Rattle.acl_list.specs.declared.entry.Who.{Who};
ghost use Rattle.acl_reasons.specs.Reasons.{reason};
ghost use Rattle.acl_reasons.specs.Shares.{counts_at, is_decided, is_decided_before};
ghost use Rattle.acl_reasons.specs.declared.reason.Reason.TheVariants as reasons;

/// Each demanded bit is decided by at most one ACE. If an ACE applies, the demanded bits that it has are those that it
/// decides and those that an earlier ACE decides. A mask is granted if and only if an ALLOW decides each of its bits.
/// The ACE that a reason names is a DENY that decides the bit of the reason.
pub fn shares_are_the_verdict()
    ensures one { (names : Who → Bool) (entries : List Entry) (mask i j place : ℕ) →
        is_decided names entries mask i place ≡ true → is_decided names entries mask j place ≡ true → i ≡ j }
    ensures whole { (names : Who → Bool) (entries : List Entry) (mask index place : ℕ) →
        is_decided names entries mask index place || is_decided_before names entries mask index place
        ≡ (has_bit mask place && counts_at names (slice_get entries index) place) }
    ensures granted { (names : Who → Bool) (entries : List Entry) (mask : ℕ) → mask < 2 ^ 32 →
        (verdict names entries mask ≡ verdicts.Granted) ↔ ((place : ℕ) → has_bit mask place ≡ true →
        (index : ℕ) × (is_decided names entries mask index place ≡ true)
        × IsSomeAnd (slice_get entries index) (λ e. e.kind ≡ Allow)) }
    ensures denied { (names : Who → Bool) (entries : List Entry) (mask index bit : ℕ) → mask < 2 ^ 32 →
        reason names entries mask ≡ reasons.Denied index bit →
        (place : ℕ) × (bit ≡ 2 ^ place) × (is_decided names entries mask index place ≡ true)
        × IsSomeAnd (slice_get entries index) (λ e. e.kind ≡ Deny) }
{}
