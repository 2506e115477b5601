//! Laws of the definitions: what is seen in an image is the entry.
ghost use Rattle.std.specs.Prelude.{◌≡◌, ◌+◌, ◌<◌, ◌≤◌, ℕ, List, length, AllPairs, Some};
ghost use Rattle.std.specs.Prelude.{slice_index_or};
ghost use Rattle.bl_map.specs.MachineFacts.{MachineFacts, IsWellFormedMachine};
ghost use Rattle.bl_load.specs.Handover.{Handover, Part, end_of};
ghost use Rattle.bl_load.specs.WellFormedEntry.{IsWellFormedValue};
ghost use Rattle.bl_load.specs.Parts.{IsHandover};
ghost use Rattle.bl_load.specs.EntryValue.{EntryValue};
ghost use Rattle.bl_image.specs.Image.{spelling};
ghost use Rattle.bl_image.specs.ImageHandover.{IsImage, IsKeptByImages};
ghost use Rattle.bl_image.specs.declared.version.Version.{Version};
ghost use Rattle.bl_walk.specs.Faults.{IsSound};
ghost use Rattle.bl_walk.specs.PartBytes.{part_with};
ghost use Rattle.bl_walk.specs.Seen.{IsSeen};
ghost use Rattle.bl_walk.specs.SeenFacts.{SeenFacts};
ghost use Rattle.bl_walk.specs.EntryShown.{ShowsEntry, RunsEndLow};
ghost use Rattle.bl_walk.specs.State.{IsEntered};

/// What is seen in an image is one thing.
pub fn seen_is_determined()
    ensures { (h : Handover) (s t : SeenFacts) → IsSeen h s → IsSeen h t → s ≡ t }
{}

/// Where something is seen in an image whose kernel is entered as it must be, no fault stands.
pub fn seen_is_sound()
    ensures { (h : Handover) (seen : SeenFacts) → IsEntered h → IsSeen h seen → IsSound h }
{}

/// A part that holds a range of at least one byte is the one in which it lies, where parts ascend.
pub fn ranges_lie_in_one_part()
    ensures { (parts : List Part) (address count k : ℕ) (d : Part)
        → AllPairs (λ p q. end_of p ≤ q.address) parts → k < length parts → 1 ≤ count
        → (slice_index_or parts k d).address ≤ address
        → address + count ≤ end_of (slice_index_or parts k d)
        → part_with parts address count ≡ Some (slice_index_or parts k d) }
{}

/// What an entry hands over shows its kernel the entry: its protocol, its line, where its kernel
/// lies and is entered, the bytes of its other files, its copies of the RSDP under Multiboot2, the
/// machine's runs, and what firmware tells by its protocol; the kernel is entered as its protocol
/// says; and no fault stands in it.
pub fn handovers_are_seen()
    ensures seen { (facts : MachineFacts) (value : EntryValue) (h : Handover)
        → IsWellFormedMachine facts → IsWellFormedValue value → IsHandover facts value h
        → (seen : SeenFacts) × IsSeen h seen × ShowsEntry facts value seen }
    ensures entered { (facts : MachineFacts) (value : EntryValue) (h : Handover)
        → IsWellFormedMachine facts → IsWellFormedValue value
        → IsHandover facts value h → IsEntered h }
    ensures sound { (facts : MachineFacts) (value : EntryValue) (h : Handover)
        → IsWellFormedMachine facts → IsWellFormedValue value
        → IsHandover facts value h → IsSound h }
{}

/// Whatever is read from the image of what an entry hands over shows that entry and nothing else;
/// its kernel is entered as its protocol says, with page tables that keep each address below 4 GiB
/// if it is entered with paging; and no fault stands in it. That the handover is what images keep
/// is `write_image.kept`.
pub fn images_show_their_entries()
    ensures seen { (facts : MachineFacts) (value : EntryValue) (version other : Version)
        (h image : Handover) (seen : SeenFacts)
        → IsWellFormedMachine facts → IsWellFormedValue value
        → IsHandover facts value h → IsKeptByImages h → IsImage other (spelling version h) image
        → IsSeen image seen → ShowsEntry facts value seen }
    ensures entered { (facts : MachineFacts) (value : EntryValue) (version other : Version)
        (h image : Handover) → IsWellFormedMachine facts → IsWellFormedValue value
        → IsHandover facts value h
        → IsKeptByImages h → IsImage other (spelling version h) image → IsEntered image }
    ensures sound { (facts : MachineFacts) (value : EntryValue) (version other : Version)
        (h image : Handover) → IsWellFormedMachine facts → IsWellFormedValue value
        → IsHandover facts value h
        → IsKeptByImages h → IsImage other (spelling version h) image → IsSound image }
{}

/// Each run of a memory map that is seen ends at most at 2^52.
pub fn seen_runs_end_low()
    ensures { (h : Handover) (seen : SeenFacts) → IsSeen h seen → RunsEndLow seen }
{}
