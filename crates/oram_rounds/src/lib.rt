//! A link that holds STOREs back until they are kept.
//!
//! A core sends a FETCH and then a STORE for each tree, and each waits for its answer: four round trips for a command over
//! two trees. A [`RoundLink`] answers a STORE at once and sends it later, together with the next FETCH that may leave. Until
//! then it lays the records of these STOREs over the paths that it fetches, so the core receives what a host would give that
//! has carried them out. So a command alone waits once for each tree. The first FETCHes of all commands of a round go
//! together, ahead of the STOREs that may leave; the records of these are laid over their answers, too.
//!
//! The client keeps the STOREs that wait in a file before they leave. If its process ends, the next one sends them again.
//! A [`BatchLink`] carries the STOREs and the FETCHes that go with them; [`OneByOne`] makes one of any link.
//!
//! A round is one keeping and then the work of all commands that were submitted ([`submit_all`], [`perform`], [`resume`]).
//! Their replies may be given at once, since what is kept has the commands.
#![tactic(auto)]

mod ahead;
mod answers;
mod arrivals;
mod batch;
mod delivery;
mod exchanges;
mod keeper;
mod kept_file;
mod law;
mod lists;
mod one_by_one;
mod overlay;
mod path_messages;
mod records;
mod round_fault;
mod round_link;
mod rounds;
mod submissions;

pub use batch::BatchLink;
pub use exchanges::carry_out_all;
pub use keeper::{KeepError, Keeper, KeptParts, LinkRecords, RecordChanges};
pub use kept_file::{KeptCore, KeptCoreFault, ProcessText, decode_kept, encode_kept};
pub use law::{
    acts_are_safe, ahead_is_not_sent, ahead_is_of_the_host, ahead_stays_in_turn, begun_is_safe,
    calls_are_of_the_host_later, ends_are_safe, files_tell_of_one_process, held_is_safe,
    new_process_example, nothing_ahead_is_in_turn, one_waits_example, reading_process_example,
    replies_are_the_arrays, submitted_is_safe, submitted_to_processes,
};
pub use one_by_one::OneByOne;
pub use records::record_len;
pub use round_fault::RoundFault;
pub use round_link::RoundLink;
pub use rounds::{keep, perform, resume};
pub use submissions::{Submitted, submit_all};
