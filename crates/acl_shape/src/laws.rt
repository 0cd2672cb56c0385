//! Laws that follow from the definitions alone.
ghost use Rattle.std.specs.Prelude.{◌≡◌, ◌≤◌, ℕ, true, false, Option, None, List, All, length, is_some, unwrap_or};
ghost use Rattle.std.specs.Prelude.{IfSome, bit_and};
ghost use Rattle.acl_list.specs.Deciding.{allows, is_true_for};
ghost use Rattle.rpc_record.specs.Identity.{Identity};
ghost use Rattle.acl_list.specs.Mask.{has_bit};
ghost use Rattle.acl_list.specs.declared.entry.Entry.{Entry};
ghost use Rattle.acl_list.specs.declared.entry.Kind.{Kind};
ghost use Rattle.acl_shape.specs.Admitted.{admitted};
ghost use Rattle.acl_shape.specs.Bounds.{IsBounded, keeps};
ghost use Rattle.acl_shape.specs.Inherited.{inherit};
ghost use Rattle.acl_shape.specs.Mode.{mode_of, set_mode, kept, class_mask, class_digit, is_named};
ghost use Rattle.acl_shape.specs.Parts.{combined, part_of, parts_fit, with_parts};
ghost use Rattle.acl_shape.specs.Permissions.{created_acl, changed_acl};
ghost use Rattle.acl_shape.specs.declared.part.Part.TheVariants.{Dacl, Sacl};
ghost use Rattle.acl_shape.specs.declared.request.Raw.{Raw};

/// The mode of an access control list (ACL) that is made for a mode is the lowest nine bits of that mode.
pub fn mode_is_read_back()
    ensures { (entries : List Entry) (kind : Kind) (mode : ℕ) →
        mode_of (set_mode entries kind mode) ≡ bit_and mode 0x1ff }
{}

/// Setting a mode twice is setting it once.
pub fn mode_again_is_same()
    ensures { (entries : List Entry) (kind : Kind) (mode : ℕ) →
        set_mode (set_mode entries kind mode) kind mode ≡ set_mode entries kind mode }
{}

/// A law of ACLs in which no named user or group has an ALLOW or DENY access control entry (ACE) for the object itself.
/// A mode allows exactly the class bits of the caller's three mode bits. These are the owner's, else the group's for a
/// member of the group, else those of the others.
pub fn mode_gives_class_bits()
    ensures { (entries : List Entry) (kind : Kind) (mode owner group : ℕ) (caller : Identity) (bit : ℕ) →
        All (λ e. is_named e ≡ false) entries → has_bit (class_mask kind 7) bit ≡ true →
        allows (is_true_for owner group caller) (set_mode entries kind mode) bit
        ≡ has_bit (class_mask kind (class_digit owner group caller mode)) bit }
{}

/// An ACL within the bounds stays within them when it is changed, and an ACL that is admitted is within them. The
/// bounds count the ACEs that a new mode keeps.
pub fn bounds_are_kept()
    ensures mode { (entries : List Entry) (kind : Kind) (mode : ℕ) → IsBounded entries →
        IsBounded (set_mode entries kind mode) }
    ensures inherited { (entries : List Entry) (kind : Kind) → IsBounded entries → IsBounded (inherit entries kind) }
    ensures admitted { (kind : Kind) (raws : List Raw) → length raws ≤ 59 → IsBounded (admitted kind raws) }
    ensures created { (parent : List Entry) (kind : Kind) (mode : Option ℕ) (list : Option (List Entry)) →
        IsBounded parent → IfSome list IsBounded → IsBounded (created_acl parent kind mode list) }
    ensures changed { (old : List Entry) (kind : Kind) (mode : Option ℕ) (list : Option (List Entry)) →
        IsBounded old → IfSome list IsBounded → IsBounded (changed_acl old kind mode list) }
    ensures sorted { (entries : List Entry) → IsBounded entries → IsBounded (combined entries None None) }
    ensures parts { (entries : List Entry) (dacl sacl : Option (List Entry)) → IsBounded entries →
        parts_fit entries dacl sacl ≡ true → IsBounded (with_parts entries dacl sacl) }
    ensures counted { (lacking : ℕ) (e : Entry) → is_some (kept lacking e) ≡ keeps e }
{}

/// The ACL of two parts has the ACEs of each part that is given, and the ACL's own ACEs for the other part.
pub fn parts_are_read_back()
    ensures dacl { (entries : List Entry) (dacl sacl : Option (List Entry)) →
        part_of Dacl (combined entries dacl sacl) ≡ part_of Dacl (unwrap_or dacl entries) }
    ensures sacl { (entries : List Entry) (dacl sacl : Option (List Entry)) →
        part_of Sacl (combined entries dacl sacl) ≡ part_of Sacl (unwrap_or sacl entries) }
{}
