//! What the definitions of replies mean, for all of them: the function's contract is the law, and its body is empty.

ghost use Rattle.std.specs.Prelude.{◌≡◌, ℕ, List};
ghost use Rattle.save_disk.specs.Trace.{Event, Told};
ghost use Rattle.save_disk.specs.State.{State};
ghost use Rattle.save_disk.specs.Stops.{Since, AtEachMoment};
ghost use Rattle.desk_output.specs.Output.{SaysFront, SaysAll};
ghost use Rattle.save_top.specs.Output.{Reply, SaysReply, SaysOneReply};

/// Where there is but one reply, a front of its text is said at each moment, and in the end the reply.
pub fn a_lone_reply_is_the_one_said()
    ensures front { (reply : Reply) (events : List Event) → SaysOneReply (λ one. one ≡ reply) events
        → AtEachMoment (SaysFront reply.text) events }
    ensures whole { (reply : Reply) (result : ℕ) (told : Told) (after : State)
        → SaysReply (λ one. one ≡ reply) result told after
        → (result ≡ reply.status) × Since (SaysAll reply.text) told after.told }
{}
