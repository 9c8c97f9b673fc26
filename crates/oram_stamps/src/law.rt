//! Laws about what a client knows of its host's stamps.
ghost use Rattle.oram_stamps.specs.Lives.{LifeExample, NewestStatesPass, OlderFilesAreRefused, OlderStatesAreRefused, RefusalExample};

/// A law about definitions: beside an honest host, a process that starts from what was kept last is never refused, however often
/// processes end and connections break.
pub fn newest_states_pass()
    ensures { NewestStatesPass }
{}

/// A law about definitions: a process is refused if the host has begun a keeping that its state doesn't know.
pub fn older_states_are_refused()
    ensures { OlderStatesAreRefused }
{}

/// A law about definitions: once a process has learnt that a batch was carried out, no earlier file of an honest host passes that
/// lacks a STORE of this batch, neither before this process nor before the next one. So not even a file passes that has the stamps of
/// the batch since the host put them after it had refused a STORE.
pub fn older_files_are_refused()
    ensures { OlderFilesAreRefused }
{}

/// An example for the first two laws: a life in which messages are lost, and an older state beside it.
pub fn life_example()
    ensures { LifeExample }
{}

/// An example for the law about older files: a host refuses a STORE, and carries it out when it is sent again.
pub fn refusal_example()
    ensures { RefusalExample }
{}
