//! The metrics: their names, types and helps.
ghost use Rattle.std.specs.Prelude.{◌≡◌};
ghost use Rattle.server_metrics.specs.Names.{help_of, kind_of, kind_word, name_of};

/// The type of a metric.
#[derive(Clone, Copy, Debug, PartialEq, Eq)]
pub enum Kind {
    /// It only grows, while the server runs.
    Counter,
    /// It may grow and shrink.
    Gauge,
}

/// A metric of a server.
#[derive(Clone, Copy, Debug, PartialEq, Eq)]
pub enum Metric {
    /// The version of the server, as a label. Its value is 1.
    BuildInfo,
    /// When the server started: the seconds since 1970 in UTC.
    StartTime,
    /// The connections.
    Connections,
    /// The most connections at a time.
    ConnectionsLimit,
    /// The clients that the server knows.
    Clients,
    /// The most clients.
    ClientsLimit,
    /// The sessions of clients.
    Sessions,
    /// The most sessions.
    SessionsLimit,
    /// The opens that clients have.
    Opens,
    /// The most opens.
    OpensLimit,
    /// The objects of the store.
    Objects,
    /// The most objects.
    ObjectsLimit,
    /// The bytes of all files.
    Content,
    /// The most bytes of all files. It is left out if there is no limit.
    ContentLimit,
    /// The calls, by operation and status.
    Calls,
    /// The operations that an ACL (access control list) refused.
    AclRefusals,
    /// The bytes that READ gave.
    ReadBytes,
    /// The bytes that WRITE took.
    WrittenBytes,
    /// The syncs of the store.
    Syncs,
    /// How long the slowest sync took, in seconds with six decimals.
    SlowestSync,
    /// The generation of the store.
    Generation,
    /// The bytes of the store's active file: the last checkpoint and the calls after it.
    LogBytes,
    /// The seconds since the last checkpoint.
    CheckpointAge,
    /// 1 if the store is full, else 0.
    Full,
    /// The epoch of the book of names.
    BookEpoch,
}

impl Kind {
    /// The word of a line `# TYPE`.
    #[tactic(auto, unfolding(crate::specs::Names::kind_word))]
    pub fn word(self) -> &'static str
        ensures { result.now ≡ kind_word self }
    {
        match self {
            Kind::Counter => "counter",
            Kind::Gauge => "gauge",
        }
    }
}

impl Metric {
    /// The name of its samples. It ends in the unit, and that of a counter ends in `_total`.
    #[tactic(auto, unfolding(crate::specs::Names::name_of))]
    pub fn name(self) -> &'static str
        ensures { result.now ≡ name_of self }
    {
        match self {
            Metric::BuildInfo => "zoclesavory_build_info",
            Metric::StartTime => "zoclesavory_start_time_seconds",
            Metric::Connections => "zoclesavory_connections",
            Metric::ConnectionsLimit => "zoclesavory_connections_limit",
            Metric::Clients => "zoclesavory_clients",
            Metric::ClientsLimit => "zoclesavory_clients_limit",
            Metric::Sessions => "zoclesavory_sessions",
            Metric::SessionsLimit => "zoclesavory_sessions_limit",
            Metric::Opens => "zoclesavory_opens",
            Metric::OpensLimit => "zoclesavory_opens_limit",
            Metric::Objects => "zoclesavory_objects",
            Metric::ObjectsLimit => "zoclesavory_objects_limit",
            Metric::Content => "zoclesavory_content_bytes",
            Metric::ContentLimit => "zoclesavory_content_limit_bytes",
            Metric::Calls => "zoclesavory_calls_total",
            Metric::AclRefusals => "zoclesavory_acl_refusals_total",
            Metric::ReadBytes => "zoclesavory_read_bytes_total",
            Metric::WrittenBytes => "zoclesavory_written_bytes_total",
            Metric::Syncs => "zoclesavory_syncs_total",
            Metric::SlowestSync => "zoclesavory_slowest_sync_seconds",
            Metric::Generation => "zoclesavory_generation",
            Metric::LogBytes => "zoclesavory_log_bytes",
            Metric::CheckpointAge => "zoclesavory_checkpoint_age_seconds",
            Metric::Full => "zoclesavory_full",
            Metric::BookEpoch => "zoclesavory_book_epoch",
        }
    }

    /// What it is, in one line.
    #[tactic(auto, unfolding(crate::specs::Names::help_of))]
    pub fn help(self) -> &'static str
        ensures { result.now ≡ help_of self }
    {
        match self {
            Metric::BuildInfo => "The version of the server.",
            Metric::StartTime => "When the server started, in seconds since 1970.",
            Metric::Connections => "Connections.",
            Metric::ConnectionsLimit => "The most connections at a time.",
            Metric::Clients => "Clients that the server knows.",
            Metric::ClientsLimit => "The most clients.",
            Metric::Sessions => "Sessions of clients.",
            Metric::SessionsLimit => "The most sessions.",
            Metric::Opens => "Opens of files.",
            Metric::OpensLimit => "The most opens.",
            Metric::Objects => "Objects of the store.",
            Metric::ObjectsLimit => "The most objects.",
            Metric::Content => "Bytes of all files.",
            Metric::ContentLimit => "The most bytes of all files.",
            Metric::Calls => "Calls by operation and status.",
            Metric::AclRefusals => "Operations that an ACL refused.",
            Metric::ReadBytes => "Bytes that READ gave.",
            Metric::WrittenBytes => "Bytes that WRITE took.",
            Metric::Syncs => "Syncs of the store.",
            Metric::SlowestSync => "How long the slowest sync took.",
            Metric::Generation => "The generation of the store.",
            Metric::LogBytes =>
                "Bytes of the store's active file: the last checkpoint and the calls after it.",
            Metric::CheckpointAge => "Seconds since the last checkpoint.",
            Metric::Full => "1 if the store is full, else 0.",
            Metric::BookEpoch => "The epoch of the book of names.",
        }
    }

    /// Its type.
    #[tactic(auto, unfolding(crate::specs::Names::kind_of))]
    pub fn kind(self) -> Kind
        ensures { result ≡ kind_of self }
    {
        match self {
            Metric::Calls
            | Metric::AclRefusals
            | Metric::ReadBytes
            | Metric::WrittenBytes
            | Metric::Syncs => Kind::Counter,
            _ => Kind::Gauge,
        }
    }
}
