//! What the programs share at their edge: reading command lines and settings, writing texts, files and sockets.
//!
//! [`read_named`] reads a command line of subcommands with a word each. [`table_of`] reads a TOML document, and the functions
//! that are named after what they find at a key, such as [`address_at`], read its table. [`put`] and the functions named after
//! it write texts; their contracts say that a writer which fails has taken a beginning of the text. An [`AtomicFile`] is
//! replaced as a whole, and [`lock_state`] keeps other processes away from a state. [`listen`], [`connect`], [`connect_within`]
//! and [`buffered`] are for sockets. A [`HostFault`] says why a disk can't use its host.
#![tactic(auto)]

mod command_line;
mod file_faults;
mod files;
mod hosts;
mod input;
mod locks;
mod sockets;
mod tables;
mod writer;

pub use command_line::{arguments, read_named, texts_of, word_taker};
pub use file_faults::{FileFault, FileReason, call_fault, file_fault, reason_of};
pub use files::{
    AtomicFile, bytes_in, create_for_owner, folder_of, linked_name, new_name, sync_folder, text_in,
};
pub use hosts::HostFault;
pub use input::InputFault;
pub use locks::{LockFault, StateLock, is_locked, lock_state};
pub use sockets::{SocketFault, buffered, connect, connect_within, limit_silence, listen};
pub use tables::{
    address_at, begins_number, count_at, has_key, has_only, key_at, name_at, number_at, sealer_in,
    table_of,
};
pub use writer::{put, put_between, put_both, put_number};
