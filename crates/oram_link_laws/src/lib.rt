//! Laws about a host that takes part in the exchanges of a link, and about STOREs that are sent again.
//!
//! The laws of `oram_session` ask for a function that gives the host behind a link's value. A link over sockets has no such
//! function, since its calls may give any answer. Here the host is a value of its own beside the link: a session has a list of
//! exchanges, each a message and the outcome of the call with it, and the host is honest in these exchanges, or may lie in them
//! ([`new_devices_hold_zeros_beside`], [`sessions_are_the_arrays_beside`], [`sessions_beside_heard_hosts`]). A link over a
//! reader whose bytes are known is an instance ([`streams_are_run`]).
//!
//! After a crash a client may send a list of STOREs again, whichever of them the host received before. The host then has
//! the records that it has if each STORE arrives once ([`resent_stores_mend`]). A client may also send a FETCH ahead of
//! STOREs, and lay their records over its answer ([`laid_over_is_fetched_later`]).
//!
//! Nothing here runs. The functions whose names end in `_example` give values that meet the premises of the laws.
#![tactic(auto)]

mod law;

pub use law::{
    beside_gives_inside, direct_sessions_are_run, direct_sessions_are_streamed,
    honest_links_are_run, laid_over_is_fetched_later, mending_example, new_device_example,
    new_devices_hold_zeros_beside, overlay_example, resending_example,
    resent_exchanges_leave_the_same, resent_stores_are_taken, resent_stores_go_through,
    resent_stores_leave_one_host, resent_stores_leave_the_same, resent_stores_mend,
    resent_stores_mend_runs, session_example, sessions_are_the_arrays_beside,
    sessions_beside_heard_hosts, stream_example, streamed_sessions_are_the_arrays, streams_are_run,
};
