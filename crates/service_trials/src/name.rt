//! The name of a server.

use std::marker::Brand;

/// The name of a server, of its regions, of its log and of its versions. Contracts alone see it.
pub(crate) trait ServerName: region_calls::ServerNaming
    + region_calls::region_lock::LockNaming
    + region_calls::log_service::ServiceNaming
    + region_versions::VersionsNaming {}

impl ServerName for Brand {}
