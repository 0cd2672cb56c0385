//! Laws that follow from the definitions alone.
ghost use Rattle.std.specs.Prelude.{◌≡◌, ◌↔◌, ℕ, ◌^◌, ◌<◌, Bool, List, All, bit_and};
ghost use Rattle.acl_list.specs.Deciding.{first_match, match_of};
ghost use Rattle.acl_list.specs.Verdicts.{IsVerdict, verdict, verdict_on_bit};
ghost use Rattle.acl_list.specs.Summaries.{granted_mask, watched_mask, watched_bits};
ghost use Rattle.acl_list.specs.Places.{MaskBits, FlagBits};
ghost use Rattle.acl_list.specs.declared.answer.Verdict.{Verdict};
ghost use Rattle.acl_list.specs.declared.answer.Verdict.TheVariants.{Granted};
ghost use Rattle.acl_list.specs.declared.entry.Entry.{Entry};
ghost use Rattle.acl_list.specs.declared.entry.Who.{Who};

/// Exactly one verdict satisfies the facts about each bit: the one that the function `verdict` gives.
pub fn verdict_is_by_bits()
    ensures { (names : Who → Bool) (entries : List Entry) (mask : ℕ) (answer : Verdict) → mask < 2 ^ 32 →
        (IsVerdict names entries mask answer) ↔ (answer ≡ verdict names entries mask) }
{}

/// A mask is granted if and only if the granted bits of the summary cover it.
pub fn covered_is_granted()
    ensures { (names : Who → Bool) (entries : List Entry) (mask : ℕ) → mask < 2 ^ 32 →
        (verdict names entries mask ≡ Granted) ↔ (bit_and mask (granted_mask names entries) ≡ mask) }
{}

/// The verdict on one bit follows from its first matching access control entry (ACE).
pub fn bit_is_its_first_match()
    ensures { (names : Who → Bool) (entries : List Entry) (place : ℕ) → place < 32 →
        verdict names entries (2 ^ place) ≡ verdict_on_bit place (match_of (first_match names entries place)) }
{}

/// No ACE watches a bit of a mask if and only if the mask has none of the summary's watched bits.
pub fn unwatched_writes_nothing()
    ensures { (names : Who → Bool) (flag : ℕ) (entries : List Entry) (mask : ℕ) → mask < 2 ^ 32 →
        (bit_and mask (watched_mask names flag entries) ≡ 0) ↔ All (λ e. watched_bits names flag mask e ≡ 0) entries }
{}

/// The constants of masks and flags are the bits at the places that the definitions name.
pub fn constants_are_places()
    ensures masks { MaskBits }
    ensures flags { FlagBits }
{}
