//! A law of statuses: each refusal that is written is read back.
ghost use Rattle.std.specs.Prelude.{◌≡◌, ◌≢◌, ◌<◌, ◌^◌, ◌++◌, ℕ, List, Some, Ok};
ghost use Rattle.nfs_types.specs.declared.status.Status.{Status};
ghost use Rattle.nfs_types.specs.Status.{number_of};
ghost use Rattle.nfs_ops.specs.Items.{item_spelling};
ghost use Rattle.nfs_ops.specs.Results.{outcome_item, refused, refusal};
ghost use Rattle.nfs_ops.specs.ResultReading.{refusal_at, result_at};

/// A client knows each status but OK (`known`). A refusal that a server writes, of any operation with any status, is
/// therefore read back as that refusal, whatever follows it (`read`). A server writes SERVERFAULT in place of OK.
#[tactic(auto, using(crate::proofs::Statuses::status_is_read, crate::proofs::Statuses::refusal_is_read))]
pub fn every_refusal_is_read()
    ensures known { (s : Status) → number_of s ≢ 0 → refusal_at (number_of s) ≡ Some (number_of s) }
    ensures read { (n : ℕ) (s : Status) (rest : List ℕ) → n < 2 ^ 32 →
        result_at (item_spelling (outcome_item (refused n (refusal s))) ++ rest) ≡ Ok (refused n (refusal s), rest) }
{}
