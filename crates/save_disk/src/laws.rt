//! What a stop may leave, as laws over traces: each function's contract is a law, and its body is empty.

ghost use Rattle.std.specs.Prelude.{◌≡◌, ◌⊎◌, ◌↔◌, ◌≤◌, ℕ, Bool, List, [], ◌∷◌, ◌++◌, length, Some};
ghost use Rattle.save_disk.specs.Trace.{Event, Write, Told, image_after};
ghost use Rattle.save_disk.specs.State.{State, IsSound, Goes};
ghost use Rattle.save_disk.specs.Writes.{GrewBy};
ghost use Rattle.save_disk.specs.Stops.{CrashMayLeave, HasNoWrite, EachWrite, Fits, AtEachMoment, synced, unsynced, syncs, until_sync};
ghost use Rattle.save_disk.specs.Keeps.{HoldsAll, Agree, Keeps, EachStop, StopsLeave, IsMomentOf, IsOldOrNew, committing, image_committed};

/// Where a trace has no write, a stop leaves the image of its start and no other.
pub fn leaves_start()
    ensures { (grain : ℕ) (start : List ℕ) (events : List Event) (image : List ℕ) → 1 ≤ grain → HasNoWrite events
        → (CrashMayLeave grain start events image ↔ (image ≡ start)) }
{}

/// Where nothing was written since the last sync, a stop leaves the image that the sync kept and no other.
pub fn leaves_synced()
    ensures { (grain : ℕ) (start : List ℕ) (events : List Event) (image : List ℕ) → 1 ≤ grain
        → EachWrite (Fits grain (length start)) events → HasNoWrite (unsynced events)
        → (CrashMayLeave grain start events image ↔ (image ≡ image_after grain start (synced events))) }
{}

/// Where one write came since the last sync, a stop leaves the image before it or the one behind it.
pub fn leaves_one_write_whole()
    ensures { (grain : ℕ) (start : List ℕ) (events : List Event) (sector : ℕ) (bytes image : List ℕ) → 1 ≤ grain
        → EachWrite (Fits grain (length start)) (events ++ Write sector bytes ∷ []) → unsynced events ≡ []
        → CrashMayLeave grain start (events ++ Write sector bytes ∷ []) image
        → (image ≡ image_after grain start events) ⊎ (image ≡ image_after grain start (events ++ Write sector bytes ∷ [])) }
{}

/// Writes of whole sectors that begin inside the image leave its length, at each moment.
pub fn writes_keep_the_length()
    ensures { (grain : ℕ) (start : List ℕ) (events : List Event) → EachWrite (Fits grain (length start)) events
        → AtEachMoment (λ front. length (image_after grain start front) ≡ length start) events }
{}

/// Where nothing was written since the last sync, any places of the image are kept.
pub fn a_sync_keeps_all()
    ensures { (places : ℕ → Bool) (grain : ℕ) (start : List ℕ) (events : List Event)
        → EachWrite (Fits grain (length start)) events → HasNoWrite (unsynced events)
        → Keeps places (image_after grain start (synced events)) grain start events }
{}

/// Places that are kept stay so, whatever comes, where each write that comes holds them.
pub fn more_events_keep()
    ensures { (places : ℕ → Bool) (image : List ℕ) (grain : ℕ) (start : List ℕ) (events added : List Event)
        → EachWrite (Fits grain (length start)) (events ++ added) → EachWrite (HoldsAll places grain image) added
        → Keeps places image grain start events → Keeps places image grain start (events ++ added) }
{}

/// Of places that are kept each image that a stop may leave has the bytes, and so has the image with all writes.
pub fn a_stop_leaves_kept_places()
    ensures stopped { (places : ℕ → Bool) (image : List ℕ) (grain : ℕ) (start : List ℕ) (events : List Event) → 1 ≤ grain
        → Keeps places image grain start events → (left : List ℕ) → CrashMayLeave grain start events left
        → Agree places image left }
    ensures now { (places : ℕ → Bool) (image : List ℕ) (grain : ℕ) (start : List ℕ) (events : List Event)
        → EachWrite (Fits grain (length start)) events → Keeps places image grain start events
        → Agree places image (image_after grain start events) }
{}

/// Where each write that comes holds kept places, a stop leaves their bytes, at each moment.
pub fn writes_that_hold_are_safe()
    ensures { (places : ℕ → Bool) (image : List ℕ) (grain : ℕ) (start : List ℕ) (events added : List Event) → 1 ≤ grain
        → Keeps places image grain start events → EachWrite (HoldsAll places grain image) added
        → EachStop (Agree places image) grain start events added }
{}

/// While a commit's events come, a stop leaves kept places as they were, or the new image: where its writes hold the
/// places, and then come a sync, one write and a sync.
pub fn a_commit_leaves_old_or_new()
    ensures { (places : ℕ → Bool) (image : List ℕ) (grain : ℕ) (start : List ℕ) (events writes : List Event) (sector : ℕ) (bytes : List ℕ)
        → 1 ≤ grain → Keeps places image grain start events → EachWrite (HoldsAll places grain image) writes
        → EachStop (IsOldOrNew places image grain start events writes sector bytes)
        grain start events (committing writes sector bytes) }
{}

/// So on a disk that tells its trace, where a call adds a commit's events or the first of them.
pub fn a_commit_on_a_disk_leaves_old_or_new()
    ensures { (places : ℕ → Bool) (image : List ℕ) (before after : State) (told : Told) (writes : List Event) (sector : ℕ) (bytes : List ℕ)
        → before.told ≡ Some told → IsSound before → IsSound after
        → Keeps places image told.grain told.start told.events → EachWrite (HoldsAll places told.grain image) writes
        → Goes (GrewBy (IsMomentOf (committing writes sector bytes))) before after
        → Goes (GrewBy (StopsLeave (IsOldOrNew places image told.grain told.start told.events writes sector bytes) told)) before after }
{}

/// Behind a commit any places of the new image are kept.
pub fn a_commit_keeps_the_new_image()
    ensures { (places : ℕ → Bool) (grain : ℕ) (start : List ℕ) (events writes : List Event) (sector : ℕ) (bytes : List ℕ)
        → EachWrite (Fits grain (length start)) (events ++ committing writes sector bytes)
        → Keeps places (image_committed grain start events writes sector bytes) grain start (events ++ committing writes sector bytes) }
{}

/// The events up to a sync stay when more come, and what the last sync kept are the events up to it.
pub fn events_up_to_a_sync_stay()
    ensures stay { (events more : List Event) (n : ℕ) → n ≤ syncs events → until_sync (events ++ more) n ≡ until_sync events n }
    ensures last { (events : List Event) → synced events ≡ until_sync events (syncs events) }
{}
