//! Laws of the definitions: bytes are one image or have one first fault.
ghost use Rattle.std.specs.Prelude.{◌≡◌, ◌<◌, ◌++◌, ℕ, List, slice_index, None, Some};
ghost use Rattle.bl_load.specs.Handover.{Handover};
ghost use Rattle.bl_image.specs.Front.{FrontFacts, IsKeptFront, front_spelling};
ghost use Rattle.bl_image.specs.Image.{spelling};
ghost use Rattle.bl_image.specs.ImageFaults.{front_fault, image_fault};
ghost use Rattle.bl_image.specs.ImageHandover.{IsKeptByImages, IsImage, handoff_of};
ghost use Rattle.bl_image.specs.Spellable.{IsSpellable};
ghost use Rattle.bl_image.specs.Versions.{HasProtocol};
ghost use Rattle.bl_image.specs.declared.fault.ImageFault.{ImageFault};
ghost use Rattle.bl_image.specs.declared.version.Version.{Version};

/// Two handovers whose numbers fit have one image only where they are one, in one version.
pub fn image_tells_all()
    ensures { (version other : Version) (h k : Handover) → IsSpellable h → IsSpellable k
        → spelling version h ≡ spelling other k → (version ≡ other) × (h ≡ k) }
{}

/// The image of what an image keeps, in a version that has its protocol, has no fault.
pub fn images_have_no_fault()
    ensures { (version : Version) (h : Handover) → HasProtocol version h.protocol → IsKeptByImages h
        → image_fault (spelling version h) ≡ None }
{}

/// Bytes that have no fault are an image.
pub fn what_has_no_fault_is_an_image()
    ensures { (bytes : List ℕ) → ((k : ℕ) → slice_index bytes k < 256) → image_fault bytes ≡ None
        → (version : Version) × (handover : Handover) × IsImage version bytes handover }
{}

/// Whatever image begins with what a front says has its version, and hands over that. The fault of
/// a front is that of an image that begins so. A front that an image may have has none, whatever
/// follows.
pub fn fronts_are_those_of_images()
    ensures handed { (front : FrontFacts) (rest : List ℕ) (version : Version)
        (handover : Handover)
        → IsKeptFront front → IsImage version (front_spelling front ++ rest) handover
        → (version ≡ front.version) × (handoff_of handover ≡ front.handoff) }
    ensures fault { (bytes : List ℕ) (fault : ImageFault) → front_fault bytes ≡ Some fault
        → image_fault bytes ≡ Some fault }
    ensures sound { (front : FrontFacts) (rest : List ℕ) → IsKeptFront front
        → front_fault (front_spelling front ++ rest) ≡ None }
{}
