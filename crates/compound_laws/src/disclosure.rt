//! Two realms that look alike to a caller give that caller equal answers and equal lines in the audit trail. An
//! operation therefore reveals nothing that access control lists hide from the caller.
ghost use Rattle.std.specs.Prelude.{◌≡◌, ℕ, List, None};
ghost use Rattle.rpc_record.specs.Identity.{Identity};
ghost use Rattle.xdr_wire.specs.Xdr.{Value};
ghost use Rattle.nfs_types.specs.Name.{name_fault};
ghost use Rattle.nfs_ops.specs.Forms.{sequence_args};
ghost use Rattle.nfs_ops.specs.Operations.{Operation};
ghost use Rattle.compound_run.specs.Context.{Context, Handles};
ghost use Rattle.compound_run.specs.Operations.{meaning};
ghost use Rattle.compound_run.specs.State.{Call};
ghost use Rattle.compound_laws.specs.Disclosure.{BeginsAlike, DisclosesNothing, DisclosesNothingAlone};
ghost use Rattle.compound_laws.specs.WrongLookup.{disclosing_lookup};

/// No operation discloses anything, at any place of a COMPOUND (RFC 8881, section 18): neither one
/// that runs nor one that its place refuses.
pub fn operations_disclose_nothing()
    ensures { (c : Context) (h : Handles) (op : Operation) → DisclosesNothing (meaning c h op) }
{}

/// EXCHANGE_ID, CREATE_SESSION, DESTROY_SESSION and DESTROY_CLIENTID disclose nothing as the only operation of a
/// COMPOUND (`alone`; RFC 8881, sections 18.35 to 18.37 and 18.50). Nor do SEQUENCE and the cached reply of a slot
/// (`sequence`; section 18.46). They see nothing of the world: this holds in realms with equal clients, sessions and
/// open files.
pub fn sessions_disclose_nothing()
    ensures alone { (caller : Identity) (op : Operation) → DisclosesNothingAlone caller op }
    ensures sequence { (call : Call) (count : ℕ) (v : Value sequence_args) (operations : List ℕ) →
        BeginsAlike call count v operations }
{}

/// The law is false of a LOOKUP that reveals whether a name exists before EXECUTE is checked (`disclosing_lookup`), for
/// each caller and each valid name.
pub fn a_lookup_that_discloses_names_is_refused()
    ensures { (c : Context) (name : List ℕ) → name_fault name ≡ None →
        ((h : Handles) → DisclosesNothing (disclosing_lookup name c h)) → ⊥ }
{}
