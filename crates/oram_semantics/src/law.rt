//! Laws about the definitions of a run.
ghost use Rattle.oram_semantics.specs.InTurn.{CoresAskInTurn, NextFetchesAreEntries};
ghost use Rattle.oram_semantics.specs.Law.{CoresServe, CoresTell, NewCoresServe, StepsAreRight};
ghost use Rattle.oram_semantics.specs.Nonces.{NoncesAreApart};
ghost use Rattle.oram_semantics.specs.TwoWorlds.{TwoWorldsLookAlike};

/// A law about definitions: a core that steps by the local rule is right over every list of events.
pub fn steps_are_right()
    ensures { StepsAreRight }
{}

/// A law about definitions: no two sealed buckets of a run have the same nonce.
pub fn nonces_are_apart()
    ensures { NoncesAreApart }
{}

/// A law about definitions: take a core with an unknown past, whose trees stand in a world and agree there. They still do after
/// each step by the local rule, unless the step fails the core, and the core answers like a plain array that begins with what
/// its tree 0 holds.
pub fn cores_serve()
    ensures { CoresServe }
{}

/// A law about definitions: a core that has just been formatted serves an array of zeros.
pub fn new_cores_serve()
    ensures { NewCoresServe }
{}

/// A law about definitions: after any list of events, what a core tells of itself agrees with its past: how many commands were
/// accepted, how many of them have no reply, its status, and why it failed.
pub fn cores_tell()
    ensures { CoresTell }
{}

/// A law about definitions: take two right runs with the same notes, whose commands may have different addresses. The second
/// run has the tape of the first one, rearranged. At each event both send equally many messages, of the same lengths and for
/// the same paths.
pub fn two_worlds_look_alike()
    ensures { TwoWorldsLookAlike }
{}

/// A law about definitions: a core whose trees stand in a world and agree there sends, each in its turn, the first FETCHes of
/// the commands that wait. While such a FETCH waits for its turn it stays the same, and the core sends no other FETCH of the
/// last tree.
pub fn cores_ask_in_turn()
    ensures { CoresAskInTurn }
{}

/// A law about definitions: after any list of events, the first FETCHes of the commands that wait are entries of the
/// accepted commands.
pub fn next_fetches_are_entries()
    ensures { NextFetchesAreEntries }
{}
