//! A law of sessions that are drained. Nothing calls what stands here, and it does nothing: its contract is the theorem, which is
//! said of the definitions alone and is proved because the contract of a public function is.
ghost use Rattle.std.specs.Prelude.{ℕ};
ghost use Rattle.interleave_core.specs.Meaning.{Parts, World};
ghost use Rattle.interleave_core.specs.Quiet.{QuietAsDrained};
ghost use Rattle.interleave_core.specs.World.{IsWorld};

/// A controlled session is quiet once it was closed at all its places and each task had ended its run by then, or has ended an
/// instruction or its run since: each place has the tag of its closing or a higher one, and no task has a breakpoint of it in hand
/// that is to be marked. No event then changes a set of it any more, as `apply` says.
pub fn drained_is_quiet_by_law()
    ensures { (w : World) (c : Parts) (s : ℕ) → IsWorld w → QuietAsDrained w c s }
{}
