//! A link whose client keeps the records of the top levels of tree 0 itself.
//!
//! Each path of tree 0 begins with records of these levels, so the client needs only those below from its host. A [`NearLink`] takes FETCHes and
//! STOREs of whole paths, as a core sends them. It sends FETCHes and STOREs of the levels below, and completes the answers by the records that
//! it keeps ([`NearRecords`]). A formatting sends nothing: a record that the host doesn't have is made anew ([`EmptyRecords`]).
//! [`FormattedRecords`] makes these records from the digests of the formatting, which the client keeps behind the near records.
//!
//! The host may have carried out a STORE whose answer is lost. So the link keeps the STOREs that were sent and not acknowledged, lays their
//! records over the paths that it gives, and sends them again before the next batch, unless that batch has them itself. If the answers to a
//! batch are taken one by one, its STOREs stay unsure until the host has answered all of it. The law
//! [`completes_paths`] says what that comes to: the link above has a host of whole paths, which is honest if the host is.
//! [`resumes_paths`] says the same of the next process.
#![tactic(auto)]

mod answers;
mod coming_answers;
mod empty_records;
mod formatted_records;
mod hearing;
mod law;
mod levels;
mod near_changes;
mod near_link;
mod near_records;
mod near_stream;
mod overlay;
mod path_message;
mod requests;

pub use empty_records::EmptyRecords;
pub use formatted_records::FormattedRecords;
pub use law::{
    collected_bytes_are_of_formatting, collected_example, completes_paths, near_example,
    resumed_example, resumes_paths, stream_example, two_levels_example,
};
pub use levels::near_levels;
pub use near_changes::NearChanges;
pub use near_link::{NearLink, NearParts};
pub use near_records::NearRecords;
