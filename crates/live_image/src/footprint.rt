//! What a transaction may write, as laws over whole images: each function's contract is a law, and its body is empty.

ghost use Rattle.std.specs.Prelude.{◌≡◌, ◌+◌, ◌/◌, ◌<◌, ◌≤◌, ℕ, Bool, List, length, slice_index, true, Ok, IsTrue};
ghost use Rattle.container_header.specs.declared.header.Header.{Header};
ghost use Rattle.container_header.specs.Conditions.{reading as header_reading};
ghost use Rattle.container_header.specs.Sound.{inactive_at};
ghost use Rattle.difi.specs.declared.descriptor.Difi.{Difi};
ghost use Rattle.difi.specs.Places.{block_size, blocks_of};
ghost use Rattle.difi.specs.Contents.{view_size};
ghost use Rattle.dpfs_tree.specs.declared.state.DpfsState.{DpfsState};
ghost use Rattle.dpfs_tree.specs.Marks.{is_marked, other_place, IsMadeForContents};
ghost use Rattle.dpfs_tree.specs.Held.{IsBeside};
ghost use Rattle.dpfs_tree.specs.Seals.{SealWrites};
ghost use Rattle.ivfc_tree.specs.Levels.{IsLevel, level_of};
ghost use Rattle.ivfc_tree.specs.Held.{IsOnPath};
ghost use Rattle.container.specs.Openings.{partition_of};
ghost use Rattle.live_image.specs.Live.{live_places};
ghost use Rattle.live_image.specs.Same.{HasPart};
ghost use Rattle.live_image.specs.Footprint.{MeetsPath, MayWrite, write_footprint};

/// No place that a transaction may write is live, but for bytes 0 to 511, which a commit writes.
pub fn what_may_be_written_is_not_live()
    ensures { (image : List ℕ) (blocks : ℕ → ℕ → Bool) (place : ℕ) → MayWrite image blocks place
        → live_places image place ≡ true → place < 512 }
{}

/// The sector of such a place is in the footprint.
pub fn places_that_may_be_written_are_in_the_footprint()
    ensures { (grain : ℕ) (image : List ℕ) (blocks : ℕ → ℕ → Bool) (place : ℕ) → 1 ≤ grain → place < length image
        → MayWrite image blocks place → write_footprint grain image blocks (place / grain) }
{}

/// A put into one of the level-four blocks writes in its block and in the blocks above it: in the copies of their
/// level 3 blocks that the image does not choose, or in external level four. It may write there.
pub fn a_put_writes_where_it_may()
    ensures { (image : List ℕ) (blocks : ℕ → ℕ → Bool) (header : Header) (part : ℕ) (difi : Difi)
        → HasPart image header part difi
        → (four level at y : ℕ) → four < difi.ivfc4.size → IsTrue (blocks part (four / block_size difi.ivfc4))
        → IsLevel level → IsOnPath difi four level at → IsBeside difi ((level_of difi level).at + at) y
        → y < view_size difi
        → MayWrite image blocks
        (other_place (λ x. slice_index image x) (partition_of header part).at difi difi.selector y) }
{}

/// A seal writes in levels 1 and 2. It may, where each block of level 3 that is marked meets one of the level-four
/// blocks or one above them.
pub fn a_seal_writes_where_it_may()
    ensures { (image : List ℕ) (blocks : ℕ → ℕ → Bool) (header : Header) (part : ℕ) (difi : Difi)
        → HasPart image header part difi
        → (state : DpfsState) → IsMadeForContents difi state → state.selector ≡ difi.selector
        → ((block : ℕ) → block < blocks_of difi.dpfs3 → is_marked state.touched.items block ≡ true
        → MeetsPath difi (blocks part) block)
        → (place : ℕ) → SealWrites (λ x. slice_index image x) (partition_of header part).at difi state place
        → MayWrite image blocks place }
{}

/// A commit may write the table that is not active, and bytes 0 to 511.
pub fn a_commit_writes_where_it_may()
    ensures table { (image : List ℕ) (blocks : ℕ → ℕ → Bool) (header : Header) → header_reading image ≡ Ok header
        → (place : ℕ) → inactive_at header ≤ place → place < inactive_at header + header.table_size
        → MayWrite image blocks place }
    ensures front { (image : List ℕ) (blocks : ℕ → ℕ → Bool) (place : ℕ) → place < 512 → MayWrite image blocks place }
{}

/// More level-four blocks have no smaller footprint.
pub fn more_blocks_widen_the_footprint()
    ensures { (grain : ℕ) (image : List ℕ) (few many : ℕ → ℕ → Bool) (sector : ℕ)
        → ((part block : ℕ) → IsTrue (few part block) → IsTrue (many part block))
        → write_footprint grain image few sector → write_footprint grain image many sector }
{}
