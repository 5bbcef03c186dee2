//! What stops leave of small traces, worked out by hand: each row is a contract, for both grains.

ghost use Rattle.std.specs.Prelude.{◌≡◌, ◌⊎◌, ◌↔◌, ◌≤◌, ℕ, Bool, List, [], ◌∷◌, ◌++◌, length};
ghost use Rattle.save_disk.specs.Trace.{Event};
ghost use Rattle.save_disk.specs.Stops.{EachWrite, Fits};
ghost use Rattle.save_disk.specs.Keeps.{HoldsAll, Agree, EachStop, committing, image_committed};
ghost use Rattle.save_disk.specs.StopRows.{LeavesEitherWrite, LeavesSyncedOrLater, LeavesShortSector, HoldsLiveBytes, LosesALiveByte};

fn two_writes_of_one_sector_are_two_versions()
    ensures unsynced { LeavesEitherWrite 512 }
    ensures unsynced_wide { LeavesEitherWrite 4096 }
    ensures synced { LeavesSyncedOrLater 512 }
    ensures synced_wide { LeavesSyncedOrLater 4096 }
{}

fn a_short_last_sector_is_cut()
    ensures narrow { LeavesShortSector 512 }
    ensures wide { LeavesShortSector 4096 }
{}

fn a_sector_with_live_and_dead_bytes_keeps_the_live_ones()
    ensures holds { HoldsLiveBytes 512 }
    ensures holds_wide { HoldsLiveBytes 4096 }
    ensures loses { LosesALiveByte 512 }
    ensures loses_wide { LosesALiveByte 4096 }
{}

fn two_commits_leave_one_of_three()
    ensures { (grain : ℕ) (start : List ℕ) (kept next : ℕ → Bool) (one two : List Event) (sector other : ℕ) (bytes more : List ℕ)
        → 1 ≤ grain → EachWrite (Fits grain (length start)) (committing one sector bytes) → EachWrite (HoldsAll kept grain start) one
        → EachWrite (HoldsAll next grain (image_committed grain start [] one sector bytes)) two
        → EachStop (λ left. Agree kept start left ⊎ (Agree next (image_committed grain start [] one sector bytes) left
        ⊎ (left ≡ image_committed grain start (committing one sector bytes) two other more)))
        grain start [] (committing one sector bytes ++ committing two other more) }
{}

#[test]
fn rows_hold() {
    two_writes_of_one_sector_are_two_versions();
    a_short_last_sector_is_cut();
    a_sector_with_live_and_dead_bytes_keeps_the_live_ones();
    two_commits_leave_one_of_three();
}
