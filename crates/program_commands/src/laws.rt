//! Laws of boots, conversions and digests: two boots of one entry write one image, which shows the
//! entry; a converted image is walked, and digested, as its source is; and the digest of a boot
//! says those of its image.
ghost use Rattle.std.specs.Prelude.{◌≡◌, ◌++◌, ℕ, List, Some};
ghost use Rattle.bl_map.specs.MachineFacts.{MachineFacts};
ghost use Rattle.bl_map.specs.NormalMap.{kind_at};
ghost use Rattle.bl_load.specs.Handover.{Handover};
ghost use Rattle.bl_image.specs.Image.{spelling};
ghost use Rattle.bl_image.specs.ImageHandover.{IsImage};
ghost use Rattle.bl_image.specs.SourceFacts.{SourceFacts};
ghost use Rattle.bl_image.specs.Versions.{written_version};
ghost use Rattle.bl_image.specs.declared.version.Version.{Version};
ghost use Rattle.bl_walk.specs.Faults.{IsSound};
ghost use Rattle.bl_walk.specs.Seen.{IsSeen};
ghost use Rattle.bl_walk.specs.SeenFacts.{SeenFacts};
ghost use Rattle.bl_walk.specs.EntryShown.{ShowsEntry};
ghost use Rattle.bl_walk.specs.State.{IsEntered};
ghost use Rattle.bl_session.specs.attempt.AttemptResult.{AttemptResult};
ghost use Rattle.program_commands.specs.Converted.{Converts, Walks, WalkRefuses};
ghost use Rattle.program_desc.specs.Described.{DescriptionFacts};
ghost use Rattle.program_boots.specs.described.DescribedMachine.{IsMachineOf};
ghost use Rattle.program_boots.specs.described.BootCases.{BootCase, entry_value_at};
ghost use Rattle.program_boots.specs.described.BootCases.{file_sizes_at};
ghost use Rattle.program_boots.specs.described.BootCases.{HasResultAt};
ghost use Rattle.program_boots.specs.described.DescribedMenu.{described_entry};
ghost use Rattle.program_commands.specs.Ends.{IsBooted, Surroundings};
ghost use Rattle.program_boots.specs.BootLines.{boot_lines};
ghost use Rattle.program_commands.specs.digesting.Digested.{IsDigested};
ghost use Rattle.program_commands.specs.digesting.ImageDigested.{IsImageDigested, HasDigestLines};

use program_boots::Files;

/// Two boots are two calls of `boot` with no more in common than this: their machines have equal
/// facts (size, map, pool and what firmware tells), and the entries that they hand over have equal
/// values (protocol, line, files, the modules' lines and the copies of RSDPs). Memory, sinks,
/// titles, names, indices, other entries and files, what was refused before, where each file came
/// from and the order of its pieces may differ.
///
/// They write one image. And an entry that is refused in one is refused in the other, for the same,
/// if its files have equal sizes and it has an equal value there.
pub fn two_boots<F: Files, G: Files>()
    ensures one_image { (desc other : List ℕ) (before after : Surroundings F)
        (began ended : Surroundings G) (a : IsBooted F.answers F.faults desc before after)
        (b : IsBooted G.answers G.faults other began ended) → a.case.facts ≡ b.case.facts
        → entry_value_at a.case a.entry ≡ entry_value_at b.case b.entry → (image : List ℕ)
        × (after.sink ≡ before.sink ++ image) × (ended.sink ≡ began.sink ++ image) }
    ensures ends { (desc other : List ℕ) (before after : F) (began ended : G)
        (a : BootCase F.answers F.faults desc before after)
        (b : BootCase G.answers G.faults other began ended) → a.facts ≡ b.facts
        → (entry index : ℕ) → file_sizes_at a entry ≡ file_sizes_at b index
        → entry_value_at a entry ≡ entry_value_at b index → (e f : AttemptResult)
        → HasResultAt a entry e → HasResultAt b index f → e ≡ f }

    // Machines have equal facts where size, pool and what firmware tells are equal and each
    // address has one kind in the two.
    ensures same_facts { (one two : DescriptionFacts) (f g : MachineFacts) →
        IsMachineOf one f → IsMachineOf two g → one.size ≡ two.size → one.pool ≡ two.pool
        → one.firmware ≡ two.firmware
        → ((a : ℕ) → kind_at one.regions a ≡ kind_at two.regions a) → f ≡ g }
{}

/// Whatever is read from the image of an entry that was booted shows that entry and nothing else;
/// its kernel is entered as its protocol says; and no fault stands in it.
pub fn booted_images_show_their_entries<F: Files>()
    ensures seen { (desc : List ℕ) (before after : Surroundings F)
        (b : IsBooted F.answers F.faults desc before after) (version : Version)
        (image : Handover) (seen : SeenFacts)
        → IsImage version (spelling written_version b.handover) image → IsSeen image seen
        → ShowsEntry b.case.facts (entry_value_at b.case b.entry) seen }
    ensures entered { (desc : List ℕ) (before after : Surroundings F)
        (b : IsBooted F.answers F.faults desc before after) (version : Version)
        (image : Handover) → IsImage version (spelling written_version b.handover) image
        → IsEntered image }
    ensures sound { (desc : List ℕ) (before after : Surroundings F)
        (b : IsBooted F.answers F.faults desc before after) (version : Version)
        (image : Handover) → IsImage version (spelling written_version b.handover) image
        → IsSound image }
{}

/// An image and what it was converted to are images of one handover, so that one thing is seen in
/// both. Where a walk of each says what is seen, they say the same; and if a walk of one of the two
/// says it, no walk refuses the other.
pub fn converted_images_are_walked_alike()
    ensures handover { (image converted : List ℕ) → Converts image converted
        → (version : Version) × (handover : Handover) × IsImage version image handover
        × IsImage written_version converted handover }
    ensures said { (image converted a b : List ℕ) → Converts image converted
        → Walks image a → Walks converted b → a ≡ b }
    ensures sound { (image converted a : List ℕ) (number : ℕ) → Converts image converted
        → Walks image a → WalkRefuses converted number → ⊥ }
    ensures refused { (image converted b : List ℕ) (number : ℕ) → Converts image converted
        → WalkRefuses image number → Walks converted b → ⊥ }
{}

/// A boot and the digest of a boot are two calls with no more in common than this: their machines
/// have equal facts (size, map, pool and what firmware tells), and the entries that they hand over
/// have equal values (protocol, line, files, the modules' lines and the copies of RSDPs). Then what
/// is said of the digests is the table of the image that the boot wrote. Likewise two digests say
/// one table.
pub fn digests_are_of_booted_images<F: Files, G: Files>()
    ensures booted { (desc other : List ℕ) (before after : F) (old new : List ℕ)
        (began ended : Surroundings G) (a : IsDigested F.answers F.faults desc before after old new)
        (b : IsBooted G.answers G.faults other began ended) → a.case.facts ≡ b.case.facts
        → entry_value_at a.case a.entry ≡ entry_value_at b.case b.entry
        → (image table : List ℕ) × (ended.sink ≡ began.sink ++ image) × HasDigestLines image table
        × (new ≡ old ++ (boot_lines a.earlier a.entry
        (described_entry a.case.description a.entry).title ++ table)) }
    ensures one_table { (desc other : List ℕ) (before after : F) (old new : List ℕ)
        (began ended : G) (was is : List ℕ)
        (a : IsDigested F.answers F.faults desc before after old new)
        (b : IsDigested G.answers G.faults other began ended was is)
        → a.case.facts ≡ b.case.facts
        → entry_value_at a.case a.entry ≡ entry_value_at b.case b.entry → (table : List ℕ)
        × (new ≡ old ++ (boot_lines a.earlier a.entry
        (described_entry a.case.description a.entry).title ++ table))
        × (is ≡ was ++ (boot_lines b.earlier b.entry
        (described_entry b.case.description b.entry).title ++ table)) }
{}

/// The digest of an image says its table, and an image has one. The image that it is converted to
/// has the same.
pub fn images_have_one_table()
    ensures said { (image old new : List ℕ) (before after : SourceFacts)
        → before.rest ≡ Some image → IsImageDigested before after old new
        → (table : List ℕ) × HasDigestLines image table × (new ≡ old ++ table) }
    ensures one { (image a b : List ℕ) → HasDigestLines image a → HasDigestLines image b → a ≡ b }
    ensures converted { (image converted a b : List ℕ) → Converts image converted
        → HasDigestLines image a → HasDigestLines converted b → a ≡ b }
{}
