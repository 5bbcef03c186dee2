//! What hangs on the live places of an image alone, for all images: each function's contract is a law, and its body is
//! empty.

ghost use Rattle.std.specs.Prelude.{◌≡◌, ◌↔◌, ◌<◌, ◌≤◌, ◌/◌, ℕ, List, true, false, Some};
ghost use Rattle.save_bytes.specs.Cells.{Cell};
ghost use Rattle.container.specs.Signers.{Signing};
ghost use Rattle.container_header.specs.declared.header.Header.{Header};
ghost use Rattle.container_header.specs.Conditions.{reading as header_reading};
ghost use Rattle.difi.specs.declared.descriptor.Difi.{Difi};
ghost use Rattle.difi.specs.Places.{block_size, blocks_of};
ghost use Rattle.part_store.specs.declared.part.Part.{Part};
ghost use Rattle.container.specs.Openings.{fault_of};
ghost use Rattle.container.specs.Opens.{Opens};
ghost use Rattle.container.specs.declared.open.Container.{Container};
ghost use Rattle.container.specs.Parts.{part_at};
ghost use Rattle.container.specs.Containers.{IsOpenOf};
ghost use Rattle.container.specs.ImageCells.{contents_in, path_in, cell_at, AreImageCells};
ghost use Rattle.live_image.specs.Live.{live_places};
ghost use Rattle.live_image.specs.Same.{SameLive, HasPart, SameBlock};

/// An image that agrees with another one on its live places has the same live places.
pub fn live_places_stay()
    ensures { (image other : List ℕ) → SameLive image other → (place : ℕ)
        → live_places other place ≡ live_places image place }
{}

/// It has the same header, or the same fault in the header's place, and the same parts.
pub fn header_and_parts_stay()
    ensures header { (image other : List ℕ) → SameLive image other → header_reading other ≡ header_reading image }
    ensures parts { (image other : List ℕ) → SameLive image other → (header : Header) (part : ℕ) (difi : Difi)
        → HasPart image header part difi → HasPart other header part difi }
{}

/// Under any signer it opens where the other one does, and else has the same fault.
pub fn opening_stays()
    ensures opens { (image other : List ℕ) → SameLive image other → (sign : Signing)
        → (Opens sign image ↔ Opens sign other) }
    ensures fault { (image other : List ℕ) → SameLive image other → (sign : Signing)
        → fault_of sign other ≡ fault_of sign image }
{}

/// The chosen contents of each part are the same, and what the hash paths of IVFC levels 1 to 3 come to.
pub fn contents_stay()
    ensures contents { (image other : List ℕ) → SameLive image other → (header : Header) (part : ℕ) (difi : Difi)
        → HasPart image header part difi → (x : ℕ) → x < difi.dpfs3.size
        → contents_in other header part difi x ≡ contents_in image header part difi x }
    ensures paths { (image other : List ℕ) → SameLive image other → (header : Header) (part : ℕ) (difi : Difi)
        → HasPart image header part difi → (level block : ℕ) → 1 ≤ level → level ≤ 3
        → path_in other header part difi level block ≡ path_in image header part difi level block }
{}

/// The cells of an internal level four are the same, and what its blocks' hash paths come to.
pub fn internal_level_four_stays()
    ensures cells { (image other : List ℕ) → SameLive image other → (header : Header) (part : ℕ) (difi : Difi)
        → HasPart image header part difi → difi.external ≡ false → (x : ℕ) → x < difi.ivfc4.size
        → cell_at other header part difi x ≡ cell_at image header part difi x }
    ensures paths { (image other : List ℕ) → SameLive image other → (header : Header) (part : ℕ) (difi : Difi)
        → HasPart image header part difi → difi.external ≡ false → (block : ℕ)
        → path_in other header part difi 4 block ≡ path_in image header part difi 4 block }
{}

/// Where level four is external, the cells of each block on which the images agree besides are the same, and what that
/// block's hash path comes to.
pub fn external_blocks_stay()
    ensures cells { (image other : List ℕ) → SameLive image other → (header : Header) (part : ℕ) (difi : Difi)
        → HasPart image header part difi → difi.external ≡ true → (block : ℕ)
        → SameBlock image other header part difi block
        → (x : ℕ) → x < difi.ivfc4.size → x / block_size difi.ivfc4 ≡ block
        → cell_at other header part difi x ≡ cell_at image header part difi x }
    ensures path { (image other : List ℕ) → SameLive image other → (header : Header) (part : ℕ) (difi : Difi)
        → HasPart image header part difi → difi.external ≡ true → (block : ℕ)
        → SameBlock image other header part difi block
        → block < blocks_of difi.ivfc4
        → path_in other header part difi 4 block ≡ path_in image header part difi 4 block }
{}

/// A container that holds what opening the one image comes to holds what opening the other one does. Its store has the
/// same cells, where the images agree on each block of an external level four besides.
pub fn containers_stay()
    ensures opened { (image other : List ℕ) → SameLive image other → (sign : Signing) (container : Container)
        → IsOpenOf sign image container → IsOpenOf sign other container }
    ensures cells { (image other : List ℕ) → SameLive image other → (sign : Signing) (container : Container)
        → IsOpenOf sign image container
        → ((number : ℕ) (part : Part) → part_at container.parts number ≡ Some part → part.difi.external ≡ true
        → (block : ℕ) → SameBlock image other container.header number part.difi block)
        → (cells : ℕ → Cell) → AreImageCells image container.header container.parts cells
        → AreImageCells other container.header container.parts cells }
{}
