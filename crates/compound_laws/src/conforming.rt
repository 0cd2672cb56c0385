//! The answers of a server have the values that its clients expect (RFC 8881, section 18).
ghost use Rattle.std.specs.Prelude.{◌≡◌, ℕ, true};
ghost use Rattle.xdr_wire.specs.Xdr.{Value};
ghost use Rattle.nfs_ops.specs.Forms.{close_args, sequence_args};
ghost use Rattle.nfs_ops.specs.Results.{Done};
ghost use Rattle.nfs_ops.specs.ResultReading.{outcome_conforms};
ghost use Rattle.nfs_ops.specs.declared.OpKind.TheVariants as kinds;
ghost use Rattle.session_slots.specs.declared.exchanging.Exchanged.{Exchanged};
ghost use Rattle.compound_run.specs.Operations.Close.{close};
ghost use Rattle.compound_run.specs.Context.{Context, Handles};
ghost use Rattle.compound_run.specs.ExchangeId.{exchanged};
ghost use Rattle.compound_run.specs.Sequence.{sequence_given};
ghost use Rattle.compound_run.specs.Sight.{Sight};

/// The stateid that a CLOSE returns is the one that `read_result` of `nfs_ops` accepts (`close`). It also accepts the
/// server owner and the scope of an EXCHANGE_ID (`exchange_id`), and the target of a SEQUENCE (`sequence`).
pub fn what_is_answered_conforms()
    ensures close { (v : Value close_args) (c : Context) (h : Handles) (s : Sight) →
        outcome_conforms ((close v c h).answer s) ≡ true }
    ensures exchange_id { (e : Exchanged) → outcome_conforms (exchanged e) ≡ true }
    ensures sequence { (v : Value sequence_args) (highest : ℕ) →
        outcome_conforms (Done kinds.Sequence (sequence_given v highest)) ≡ true }
{}
