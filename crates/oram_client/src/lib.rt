//! What a client keeps of a disk, and how it reaches the disk's host.
//!
//! A [`Head`] is what is kept of a disk before its process, as its title ([`title_of`], [`head_in`]).
//! [`keys_for`] returns the keys of the disk with a head, if it gets the key that the disk was formatted with.
//! A [`ReconnectLink`] carries batches of messages, and tries until the host answers all of them or the reconnect timeout
//! has passed. A [`TcpDialer`] opens its connections, and only to a host that keeps the disk, and whose stamps fit what the
//! client knows of them.
//! [`introduce`] tells a new disk's host what it needs to know of the disk.
#![tactic(auto)]

mod answer_lengths;
mod awaited;
mod dialer;
mod disk_head;
mod disk_keys;
mod due_batch;
mod faults;
mod identity;
mod introduction;
mod keys;
mod law;
mod named_files;
mod no_room;
mod reconnect_link;
mod reconnect_time;
mod stamp_answers;
mod stream_batches;
mod tcp_dialer;
mod timed_link;
mod trouble_reporter;

pub use answer_lengths::AnswerLengths;
pub use awaited::{AheadBatch, Awaited, BegunBatch, Progress, Sending};
pub use dialer::{Dial, HostWatch, Limits, Trouble};
pub use disk_head::{Head, SealerKind, TITLE_LEN, head_in, title_of};
pub use disk_keys::{Keys, WrongKey, keys_for};
pub use faults::IntroductionFault;
pub use identity::{IDENTITY_LEN, IDENTITY_TREE, STAMP_TREE};
pub use introduction::introduce;
pub use keys::{
    DiskKey, Identity, KeyCheck, Salt, SealerKey, TapeKey, disk_identity, key_check, sealer_key,
    stamp_key, tape_key,
};
pub use law::{
    answers_are_the_hosts, exchanges_are_of_one_host, exchanges_are_of_the_tries,
    faults_are_of_memory, path_messages_are_about_others, stamped_batch_example,
    stamped_batches_reach_the_host, stream_batches_are_run, stream_batches_reach_the_host,
    trees_apart_example, trees_are_apart, two_tries_example,
};
pub use named_files::{NamedFiles, SystemFiles, read_if_there};
pub use reconnect_link::ReconnectLink;
pub use stream_batches::StreamBatches;
pub use tcp_dialer::TcpDialer;
pub use timed_link::TimedLink;
