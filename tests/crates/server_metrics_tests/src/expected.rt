//! The text of the server of `sample`, written down by the rules of the format.

/// With a limit of the bytes of all files.
pub(crate) const TEXT: &str = "\
# HELP zoclesavory_build_info The version of the server.
# TYPE zoclesavory_build_info gauge
zoclesavory_build_info{version=\"0.9\"} 1
# HELP zoclesavory_start_time_seconds When the server started, in seconds since 1970.
# TYPE zoclesavory_start_time_seconds gauge
zoclesavory_start_time_seconds 1795638435
# HELP zoclesavory_connections Connections.
# TYPE zoclesavory_connections gauge
zoclesavory_connections 3
# HELP zoclesavory_connections_limit The most connections at a time.
# TYPE zoclesavory_connections_limit gauge
zoclesavory_connections_limit 16
# HELP zoclesavory_clients Clients that the server knows.
# TYPE zoclesavory_clients gauge
zoclesavory_clients 2
# HELP zoclesavory_clients_limit The most clients.
# TYPE zoclesavory_clients_limit gauge
zoclesavory_clients_limit 64
# HELP zoclesavory_sessions Sessions of clients.
# TYPE zoclesavory_sessions gauge
zoclesavory_sessions 5
# HELP zoclesavory_sessions_limit The most sessions.
# TYPE zoclesavory_sessions_limit gauge
zoclesavory_sessions_limit 65
# HELP zoclesavory_opens Opens of files.
# TYPE zoclesavory_opens gauge
zoclesavory_opens 10
# HELP zoclesavory_opens_limit The most opens.
# TYPE zoclesavory_opens_limit gauge
zoclesavory_opens_limit 4096
# HELP zoclesavory_objects Objects of the store.
# TYPE zoclesavory_objects gauge
zoclesavory_objects 12000
# HELP zoclesavory_objects_limit The most objects.
# TYPE zoclesavory_objects_limit gauge
zoclesavory_objects_limit 16384
# HELP zoclesavory_content_bytes Bytes of all files.
# TYPE zoclesavory_content_bytes gauge
zoclesavory_content_bytes 1073741825
# HELP zoclesavory_content_limit_bytes The most bytes of all files.
# TYPE zoclesavory_content_limit_bytes gauge
zoclesavory_content_limit_bytes 2147483648
# HELP zoclesavory_calls_total Calls by operation and status.
# TYPE zoclesavory_calls_total counter
zoclesavory_calls_total{operation=\"GETATTR\",status=\"NFS4_OK\"} 18446744073709551615
zoclesavory_calls_total{operation=\"READ\",status=\"NFS4_OK\"} 41
zoclesavory_calls_total{operation=\"READ\",status=\"NFS4ERR_ACCESS\"} 0
# HELP zoclesavory_acl_refusals_total Operations that an ACL refused.
# TYPE zoclesavory_acl_refusals_total counter
zoclesavory_acl_refusals_total 7
# HELP zoclesavory_read_bytes_total Bytes that READ gave.
# TYPE zoclesavory_read_bytes_total counter
zoclesavory_read_bytes_total 8000000
# HELP zoclesavory_written_bytes_total Bytes that WRITE took.
# TYPE zoclesavory_written_bytes_total counter
zoclesavory_written_bytes_total 9000000
# HELP zoclesavory_syncs_total Syncs of the store.
# TYPE zoclesavory_syncs_total counter
zoclesavory_syncs_total 120
# HELP zoclesavory_slowest_sync_seconds How long the slowest sync took.
# TYPE zoclesavory_slowest_sync_seconds gauge
zoclesavory_slowest_sync_seconds 1.000250
# HELP zoclesavory_generation The generation of the store.
# TYPE zoclesavory_generation gauge
zoclesavory_generation 13
# HELP zoclesavory_log_bytes Bytes of the store's active file: the last checkpoint and the calls after it.
# TYPE zoclesavory_log_bytes gauge
zoclesavory_log_bytes 1400000
# HELP zoclesavory_checkpoint_age_seconds Seconds since the last checkpoint.
# TYPE zoclesavory_checkpoint_age_seconds gauge
zoclesavory_checkpoint_age_seconds 35
# HELP zoclesavory_full 1 if the store is full, else 0.
# TYPE zoclesavory_full gauge
zoclesavory_full 1
# HELP zoclesavory_book_epoch The epoch of the book of names.
# TYPE zoclesavory_book_epoch gauge
zoclesavory_book_epoch 4
";
