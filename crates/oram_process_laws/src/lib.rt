//! Laws about all processes of a device, one after the other, as `oram_rounds` defines them.
//!
//! Each process begins with the file that is read back where the one before ended. One run of the core goes through all of
//! them, and all messages that leave are of this run.
#![tactic(auto)]

mod law;

pub use law::{
    kept_commands_fix_messages, lives_are_one_run, messages_are_of_one_run,
    next_fetches_are_of_commands, one_ticket_has_one_reply, replies_are_of_one_run,
    two_lives_example, whole_command_example,
};
