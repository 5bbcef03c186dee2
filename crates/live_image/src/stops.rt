//! What a stop leaves of an image whose live places are kept, as laws over traces: each function's contract is a law,
//! and its body is empty.

ghost use Rattle.std.specs.Prelude.{◌≡◌, ◌⊎◌, ◌≤◌, ℕ, List};
ghost use Rattle.save_disk.specs.Trace.{Event};
ghost use Rattle.save_disk.specs.Stops.{CrashMayLeave, EachWrite};
ghost use Rattle.save_disk.specs.Keeps.{HoldsAll, Keeps, EachStop, committing, image_committed};
ghost use Rattle.container.specs.Signers.{Signing};
ghost use Rattle.container.specs.Opens.{Opens};
ghost use Rattle.live_image.specs.Live.{live_places};
ghost use Rattle.live_image.specs.Same.{SameLive};

/// Where the last sync and each write since then hold the live places of an image, each image that a stop may leave
/// agrees with it there, and opens where it does.
pub fn a_stop_leaves_a_live_image()
    ensures agrees { (image : List ℕ) (grain : ℕ) (start : List ℕ) (events : List Event) → 1 ≤ grain
        → Keeps (live_places image) image grain start events → (left : List ℕ) → CrashMayLeave grain start events left
        → SameLive image left }
    ensures opens { (sign : Signing) (image : List ℕ) (grain : ℕ) (start : List ℕ) (events : List Event)
        → 1 ≤ grain → Keeps (live_places image) image grain start events → Opens sign image
        → (left : List ℕ) → CrashMayLeave grain start events left → Opens sign left }
{}

/// While a commit's events come, where its writes hold the live places, each image that a stop may leave agrees there
/// with the image before it, or is the image that the commit makes. So where both of them open, it opens.
pub fn a_commit_leaves_a_live_image()
    ensures agrees { (image : List ℕ) (grain : ℕ) (start : List ℕ) (events writes : List Event) (sector : ℕ)
        (bytes : List ℕ)
        → 1 ≤ grain → Keeps (live_places image) image grain start events
        → EachWrite (HoldsAll (live_places image) grain image) writes
        → EachStop (λ left. SameLive image left ⊎ (left ≡ image_committed grain start events writes sector bytes))
        grain start events (committing writes sector bytes) }
    ensures opens { (sign : Signing) (image : List ℕ) (grain : ℕ) (start : List ℕ) (events writes : List Event)
        (sector : ℕ) (bytes : List ℕ)
        → 1 ≤ grain → Keeps (live_places image) image grain start events
        → EachWrite (HoldsAll (live_places image) grain image) writes
        → Opens sign image → Opens sign (image_committed grain start events writes sector bytes)
        → EachStop (Opens sign) grain start events (committing writes sector bytes) }
{}
