//! Laws that follow from the definitions alone.
ghost use Rattle.std.specs.Prelude.{◌≡◌, ◌==◌, ◌&&◌, ℕ, true, false, not, List, Ok, map};
ghost use Rattle.std.specs.List.{list_any};
ghost use Rattle.acl_list.specs.declared.mask.TheConstants as mask;
ghost use Rattle.nfs_types.specs.Attributes.{all, number_of, numbers_read_by, numbers_set_by, row, settable_words};
ghost use Rattle.nfs_types.specs.Attributes.{all_words, is_of_times, supported_words};
ghost use Rattle.nfs_types.specs.declared.attribute.TheConstants as numbers;
ghost use Rattle.nfs_types.specs.Given.{given_set};
ghost use Rattle.nfs_types.specs.Rising.{rises};
ghost use Rattle.nfs_types.specs.Seen.{Seen, seen_of, client_set, client_values};
ghost use Rattle.nfs_types.specs.Sendable.{IsSendable};
ghost use Rattle.nfs_types.specs.Sets.{has_number};

/// The words of all attributes are the numbers of the table. Without times, those of times and of space aren't
/// supported. The words of the settable attributes are the numbers of the rows that can be set. The table is in the
/// order of rising numbers. The numbers that a permission lets a caller read or set are those of the rows that name the
/// permission.
pub fn sets_are_the_table()
    ensures all { (n : ℕ) → has_number all_words n ≡ list_any (λ a. number_of a == n) all }
    ensures standard { (n : ℕ) → has_number (supported_words false) n ≡
        list_any (λ a. not (is_of_times a) && (number_of a == n)) all }
    ensures rising { rises (map number_of all) ≡ true }
    ensures settable { (n : ℕ) → has_number settable_words n ≡
        list_any (λ a. not ((row a).set_by == 0) && (number_of a == n)) all }
    ensures read_by_attributes { numbers.READ_BY_ATTRIBUTES ≡ numbers_read_by mask.READ_ATTRIBUTES }
    ensures read_by_acl { numbers.READ_BY_ACL ≡ numbers_read_by mask.READ_ACL }
    ensures set_by_acl { numbers.SET_BY_ACL ≡ numbers_set_by mask.WRITE_ACL }
    ensures set_by_owner { numbers.SET_BY_OWNER ≡ numbers_set_by mask.WRITE_OWNER }
{}

/// The attributes that are returned for an object are those requested and supported.
pub fn given_is_asked_and_supported()
    ensures { (asked : List ℕ) (n : ℕ) → has_number (given_set asked) n ≡ has_number asked n &&
        has_number all_words n }
{}

/// The values that a client writes are read back as these values.
pub fn written_is_seen()
    ensures { (s : Seen) → IsSendable s → seen_of (client_set s) (client_values s) ≡ Ok s }
{}
